//! Whether a permission is of use.
ghost use Rattle.std.specs.Prelude.{◌≡◌, ◌↔◌, ◌||◌, IsTrue, Some, None, is_some};
ghost use Rattle.std.specs.FinSet as set;
ghost use Rattle.mls_tables.specs.Triples.{Triple};
ghost use Rattle.mls_tables.specs.declared.mode.Mode.TheVariants.{Read, Append, Write};
ghost use Rattle.mls_requests.specs.declared.reason.Reason.{Reason as ReasonName};
ghost use Rattle.mls_state.specs.State.{is_subject, is_active};
ghost use Rattle.mls_review.specs.Dead.{IsDead, IsReason, obstacle, is_live};
ghost use Rattle.mls_review.specs.Findings.{may_use};
ghost use Rattle.mls_review.specs.Flows.{has_live};

use mls_requests::Reason;
use mls_state::{State, integrity_holds, simple_holds};
use mls_tables::{Mode, Modes, ObjectId, SubjectId};
use std::alloc::Allocator;

/// What is found of a permission is so of all labels: just where there is an obstacle the get is granted at no current
/// label within the subject's reach, and the obstacle is the reason of the first condition that fails at each of them.
/// The function does nothing: what it says is so of every state.
pub fn dead_at_all_labels<A: Allocator>(state: &State<A>)
    ensures dead { (t : Triple) → IsTrue (set.contains state.now.matrix t)
        → IsTrue (is_some (obstacle state.now t)) ↔ IsDead state.now t }
    ensures reason { (t : Triple) (reason : ReasonName) → IsTrue (set.contains state.now.matrix t)
        → obstacle state.now t ≡ Some reason → IsReason state.now t reason }
{
    state.agrees();
}

/// What no current label mends, of what is in the way of an access.
pub(crate) fn obstacle<A: Allocator>(
    state: &State<A>,
    s: SubjectId,
    o: ObjectId,
    x: Mode,
) -> Option<Reason>
    requires subject { IsTrue (is_subject state.now s) }
    requires object { IsTrue (is_active state.now o) }
    ensures { result ≡ obstacle state.now (s, o, x) }
{
    if !simple_holds(state, s, o, x) {
        return Some(Reason::Simple);
    }
    if !integrity_holds(state, s, o, x) {
        return Some(Reason::Integrity);
    }
    None
}

/// Whether a mode is one of those that are permitted, and of use.
fn is_live<A: Allocator>(state: &State<A>, modes: Modes, s: SubjectId, o: ObjectId, x: Mode) -> bool
    requires subject { IsTrue (is_subject state.now s) }
    requires object { IsTrue (is_active state.now o) }
    requires modes { set.contains modes x ≡ set.contains state.now.matrix (s, o, x) }
    ensures { result ≡ is_live state.now (s, o, x) }
{
    if !modes.has(x) {
        return false;
    }
    obstacle(state, s, o, x).is_none()
}

/// Whether a subject has a permission on an object that isn't dead.
pub(crate) fn may_use<A: Allocator>(state: &State<A>, s: SubjectId, o: ObjectId) -> bool
    requires subject { IsTrue (is_subject state.now s) }
    requires object { IsTrue (is_active state.now o) }
    ensures { result ≡ may_use state.now s o }
{
    let modes = state.allowed(s, o);
    is_live(state, modes, s, o, Mode::Execute)
        || (is_live(state, modes, s, o, Mode::Read)
            || (is_live(state, modes, s, o, Mode::Append)
                || is_live(state, modes, s, o, Mode::Write)))
}

/// Whether a subject has a permission on an object, in this mode or to write, that isn't dead.
pub(crate) fn has_live<A: Allocator>(state: &State<A>, s: SubjectId, o: ObjectId, x: Mode) -> bool
    requires subject { IsTrue (is_subject state.now s) }
    requires object { IsTrue (is_active state.now o) }
    ensures { result ≡ has_live state.now s x o }
{
    let modes = state.allowed(s, o);
    is_live(state, modes, s, o, x) || is_live(state, modes, s, o, Mode::Write)
}
