//! The remedy of a get.
ghost use Rattle.std.specs.Prelude.{◌≡◌, ◌&&◌, ◌↔◌, false, IsTrue, IfSome, IfNone, Some};
ghost use Rattle.std.specs.FinSet as set;
ghost use Rattle.std.specs.FinMap as map;
ghost use Rattle.mls_labels.specs.Label.{Label, dominates};
ghost use Rattle.mls_tables.specs.Mode.{observes};
ghost use Rattle.mls_requests.specs.declared.reply.Reply.TheVariants.{Yes};
ghost use Rattle.mls_state.specs.State.{is_subject, is_active, is_above};
ghost use Rattle.mls_state.specs.Changes.{with_current};
ghost use Rattle.mls_state.specs.Properties.{discretionary_holds, simple_holds, star_holds, integrity_holds};
ghost use Rattle.mls_rules.specs.Rules.{reply, after};
ghost use Rattle.mls_explain.specs.Remedy.{level_request, get_request, HasCategories, Helps};

use crate::demand::Demand;
use crate::join::lowest;
use crate::least::covering;
use mls_labels::SecLabel;
use mls_requests::{Action, Reply, Request};
use mls_rules::decide;
use mls_state::{State, discretionary_holds, integrity_holds, simple_holds};
use mls_tables::{Mode, ObjectId, SubjectId};
use std::alloc::Allocator;

/// The label of an object where the mode observes it, else the lowest.
#[tactic(auto, using(crate::proofs::LowerLevels::lowest_below))]
fn observed_level<A: Allocator>(state: &State<A>, o: ObjectId, x: Mode) -> SecLabel
    requires { IsTrue (is_active state.now o) }
    ensures least { (m : Label) → (IsTrue (observes x) → IsTrue (is_above (Some m) (map.get state.now.object_label o)))
        → IsTrue (dominates m result) }
    ensures label { IsTrue (observes x) → map.get state.now.object_label o ≡ Some result }
{
    if x.observes() {
        state.object_label(o)
    } else {
        lowest()
    }
}

/// The least label at which a trusted subject gets an object.
fn least_trusted<A: Allocator>(state: &State<A>, s: SubjectId, o: ObjectId, x: Mode) -> SecLabel
    requires { IsTrue (set.contains state.now.trusted s) }
    ensures least { (m : Label) → HasCategories m → Helps state.now s o x m → IsTrue (dominates m result) }
    ensures helps { (m : Label) → HasCategories m → Helps state.now s o x m → Helps state.now s o x result }
{
    lowest()
}

/// The least label at which an untrusted subject may hold what it observes, and the object where the mode observes it.
fn least_untrusted<A: Allocator>(state: &State<A>, s: SubjectId, o: ObjectId, x: Mode) -> SecLabel
    requires subject { IsTrue (is_subject state.now s) }
    requires object { IsTrue (is_active state.now o) }
    requires untrusted { set.contains state.now.trusted s ≡ false }
    ensures least { (m : Label) → HasCategories m → Helps state.now s o x m → IsTrue (dominates m result) }
    ensures helps { (m : Label) → HasCategories m → Helps state.now s o x m → Helps state.now s o x result }
{
    let from = observed_level(state, o, x);
    covering(state, s, from)
}

/// The least label that helps, where one does.
fn least_level<A: Allocator>(state: &State<A>, s: SubjectId, o: ObjectId, x: Mode) -> SecLabel
    requires subject { IsTrue (is_subject state.now s) }
    requires object { IsTrue (is_active state.now o) }
    ensures least { (m : Label) → HasCategories m → Helps state.now s o x m → IsTrue (dominates m result) }
    ensures helps { (m : Label) → HasCategories m → Helps state.now s o x m → Helps state.now s o x result }
{
    if state.is_trusted(s) {
        least_trusted(state, s, o, x)
    } else {
        least_untrusted(state, s, o, x)
    }
}

/// Whether a reply is yes.
fn is_yes(reply: Reply) -> bool
    ensures { IsTrue result ↔ (reply ≡ Yes) }
{
    matches!(reply, Reply::Yes)
}

/// Whether the subject is granted this current label.
fn is_taken<A: Allocator>(state: &State<A>, s: SubjectId, level: SecLabel) -> bool
    ensures { IsTrue result ↔ (reply state.now (level_request s level) ≡ Yes) }
{
    let asked = Request {
        subject: s,
        action: Action::SubjectLevel(level),
    };
    is_yes(decide(state, &asked))
}

/// Whether the get passes all tests with this current label.
fn passes_at<A: Allocator>(
    state: &State<A>,
    s: SubjectId,
    o: ObjectId,
    x: Mode,
    level: SecLabel,
) -> bool
    requires subject { IsTrue (is_subject state.now s) }
    requires object { IsTrue (is_active state.now o) }
    ensures { result ≡ (discretionary_holds state.now (s, o, x) && (simple_holds state.now (s, o, x)
        && (star_holds (with_current state.now s level) (s, o, x) && integrity_holds state.now (s, o, x)))) }
{
    discretionary_holds(state, s, o, x)
        && (simple_holds(state, s, o, x)
            && (Demand::StarAtLevel(s, level).is_met(state, s, o, x)
                && integrity_holds(state, s, o, x)))
}

/// Whether the get would be granted with this current label.
fn is_granted_at<A: Allocator>(
    state: &State<A>,
    s: SubjectId,
    o: ObjectId,
    x: Mode,
    level: SecLabel,
) -> bool
    requires subject { IsTrue (is_subject state.now s) }
    requires object { IsTrue (is_active state.now o) }
    ensures yes { IsTrue result → reply (with_current state.now s level) (get_request s o x) ≡ Yes }
    ensures all { reply (with_current state.now s level) (get_request s o x) ≡ Yes → IsTrue result }
{
    passes_at(state, s, o, x, level)
}

/// Whether a label helps the subject to the get.
#[tactic(auto, using(crate::proofs::LowerLevels::helps_of, crate::proofs::LowerLevels::helps_get))]
fn helps<A: Allocator>(
    state: &State<A>,
    s: SubjectId,
    o: ObjectId,
    x: Mode,
    level: SecLabel,
) -> bool
    requires subject { IsTrue (is_subject state.now s) }
    requires object { IsTrue (is_active state.now o) }
    ensures yes { IsTrue result → Helps state.now s o x level }
    ensures all { Helps state.now s o x level → IsTrue result }
{
    if !is_taken(state, s, level) {
        return false;
    }
    is_granted_at(state, s, o, x, level)
}

/// Whether the subject is known and the object active.
pub(crate) fn is_known<A: Allocator>(state: &State<A>, s: SubjectId, o: ObjectId) -> bool
    ensures { result ≡ (is_subject state.now s && is_active state.now o) }
{
    state.is_subject(s) && state.is_active(o)
}

/// The remedy of a get: the least current label that the subject can take in this state after which the get is granted;
/// `None` where there is none. A get that names an unknown subject or an inactive object has none. It doesn't allocate.
#[tactic(auto, using(crate::proofs::LowerLevels::helps_known))]
pub fn remedy<A: Allocator>(
    state: &State<A>,
    s: SubjectId,
    o: ObjectId,
    x: Mode,
) -> Option<SecLabel>
    ensures granted { IfSome result (λ l. reply state.now (level_request s l) ≡ Yes) }
    ensures enough { IfSome result
        (λ l. reply (after state.now (level_request s l)) (get_request s o x) ≡ Yes) }
    ensures least { IfSome result
        (λ l. (m : Label) → HasCategories m → Helps state.now s o x m → IsTrue (dominates m l)) }
    ensures none { IfNone result ((m : Label) → HasCategories m → Helps state.now s o x m → ⊥) }
{
    if !is_known(state, s, o) {
        return None;
    }
    let level = least_level(state, s, o, x);
    if helps(state, s, o, x, level) {
        Some(level)
    } else {
        None
    }
}
