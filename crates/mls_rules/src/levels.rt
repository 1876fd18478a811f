//! The rules that change levels: what they look at, and the replies to them.
ghost use Rattle.std.specs.Prelude.{◌≡◌, IsTrue, Some};
ghost use Rattle.std.specs.FinMap as map;
ghost use Rattle.mls_requests.specs.declared.action.Action.{Action};
ghost use Rattle.mls_tables.specs.Held.{each_mode};
ghost use Rattle.mls_state.specs.State.{is_subject, is_active, is_above};
ghost use Rattle.mls_rules.specs.Levels.{each_of_subject, each_of_object, each_child, label_fits};
ghost use Rattle.mls_rules.specs.Rules.{verdict};

use crate::authority::may_relabel;
use crate::demand::{LevelDemand, SimpleAtLabel, StarAtLabel, StarAtLevel};
use mls_labels::SecLabel;
use mls_requests::{Reason, Reply};
use mls_state::State;
use mls_tables::{Mode, ObjectId, SubjectId};
use std::alloc::Allocator;

/// Whether the accesses of a subject to an object meet the demand.
fn cell_meets<A: Allocator, D: LevelDemand>(
    state: &State<A>,
    s: SubjectId,
    o: ObjectId,
    demand: D,
) -> bool
    requires subject { IsTrue (is_subject state.now s) }
    requires object { IsTrue (is_active state.now o) }
    ensures { result ≡ each_mode state.now.accesses s o (D.asked demand state.now) }
{
    let modes = state.accesses(s, o);
    (!modes.has(Mode::Execute) || demand.is_met(state, s, o, Mode::Execute))
        && ((!modes.has(Mode::Read) || demand.is_met(state, s, o, Mode::Read))
            && ((!modes.has(Mode::Append) || demand.is_met(state, s, o, Mode::Append))
                && (!modes.has(Mode::Write) || demand.is_met(state, s, o, Mode::Write))))
}

/// Whether all accesses of the subject meet the demand; one that isn't known has none.
pub fn subject_meets<A: Allocator, D: LevelDemand>(
    state: &State<A>,
    s: SubjectId,
    demand: D,
) -> bool
    ensures { result ≡ each_of_subject state.now s (D.asked demand state.now) }
{
    state.agrees();
    if !state.is_subject(s) {
        return true;
    }
    for o in state.objects_of(s) {
        if !cell_meets(state, s, *o, demand) {
            return false;
        }
    }
    true
}

/// Whether all accesses to the object meet the demand; to one that isn't active there are none.
pub fn object_meets<A: Allocator, D: LevelDemand>(state: &State<A>, o: ObjectId, demand: D) -> bool
    ensures { result ≡ each_of_object state.now o (D.asked demand state.now) }
{
    state.agrees();
    if !state.is_active(o) {
        return true;
    }
    for s in state.subjects_of(o) {
        if !cell_meets(state, *s, o, demand) {
            return false;
        }
    }
    true
}

/// Whether the labels of all children of the object dominate this label.
pub fn children_dominate<A: Allocator>(state: &State<A>, o: ObjectId, l: &SecLabel) -> bool
    requires { IsTrue (is_active state.now o) }
    ensures { result ≡ each_child state.now o (λ c. is_above (map.get state.now.object_label c) (Some l.now)) }
{
    for c in state.children(o) {
        if !state.labels(*c).security.dominates(l) {
            return false;
        }
    }
    true
}

/// Whether this label fits the object's place between its parent and its children.
fn label_fits<A: Allocator>(state: &State<A>, o: ObjectId, l: &SecLabel) -> bool
    requires { IsTrue (is_active state.now o) }
    ensures { result ≡ label_fits state.now o l.now }
{
    if let Some(p) = state.parent(o) {
        if !l.dominates(&state.labels(p).security) {
            return false;
        }
    }
    children_dominate(state, o, l)
}

/// The reply to a subject that would change its current label, in the domain.
// (out of line, so that its loops have the registers to themselves)
#[inline(never)]
pub(crate) fn decide_subject_level<A: Allocator>(
    state: &State<A>,
    s: SubjectId,
    l: &SecLabel,
) -> Reply
    requires { IsTrue (is_subject state.now s) }
    ensures { result ≡ verdict state.now s (Action.SubjectLevel l.now) }
{
    let subject = state.subject(s);
    if !subject.maximum.dominates(l) {
        return Reply::No(Reason::Ceiling);
    }
    // (star doesn't bind it)
    if subject.trusted {
        return Reply::Yes;
    }
    let star = StarAtLevel {
        subject: s,
        level: *l,
    };
    if !subject_meets(state, s, star) {
        return Reply::No(Reason::Star);
    }
    Reply::Yes
}

/// The reply to a subject that would relabel an object, in the domain.
// (out of line, so that its loops have the registers to themselves)
#[inline(never)]
pub(crate) fn decide_object_level<A: Allocator>(
    state: &State<A>,
    s: SubjectId,
    o: ObjectId,
    l: &SecLabel,
) -> Reply
    requires subject { IsTrue (is_subject state.now s) }
    requires object { IsTrue (is_active state.now o) }
    ensures { result ≡ verdict state.now s (Action.ObjectLevel o l.now) }
{
    if !may_relabel(state, s, o, l) {
        return Reply::No(Reason::Authority);
    }
    if !label_fits(state, o, l) {
        return Reply::No(Reason::Compatibility);
    }
    let simple = SimpleAtLabel {
        object: o,
        label: *l,
    };
    if !object_meets(state, o, simple) {
        return Reply::No(Reason::Simple);
    }
    let star = StarAtLabel {
        object: o,
        label: *l,
    };
    if !object_meets(state, o, star) {
        return Reply::No(Reason::Star);
    }
    Reply::Yes
}
