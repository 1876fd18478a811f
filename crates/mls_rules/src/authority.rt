//! Who has authority over an object: by its place in the tree, or by trust.
ghost use Rattle.std.specs.Prelude.{◌≡◌, IsTrue};
ghost use Rattle.std.specs.FinMap as map;
ghost use Rattle.mls_state.specs.State.{is_subject, is_active};
ghost use Rattle.mls_rules.specs.Rules.{writes_parent, controls, may_relabel};

use mls_labels::SecLabel;
use mls_state::State;
use mls_tables::{Mode, ObjectId, SubjectId};
use std::alloc::Allocator;

/// Whether the subject writes the parent of an object that has one.
pub(crate) fn writes_parent<A: Allocator>(state: &State<A>, s: SubjectId, o: ObjectId) -> bool
    requires subject { IsTrue (is_subject state.now s) }
    requires object { IsTrue (is_active state.now o) }
    ensures { result ≡ writes_parent state.now s (map.get state.now.parent o) }
{
    match state.parent(o) {
        Some(p) => state.has_access(s, p, Mode::Write),
        None => false,
    }
}

/// Whether the subject controls who may access the object.
pub(crate) fn controls<A: Allocator>(state: &State<A>, s: SubjectId, o: ObjectId) -> bool
    requires subject { IsTrue (is_subject state.now s) }
    requires object { IsTrue (is_active state.now o) }
    ensures { result ≡ controls state.now s o }
{
    if o.number() == 0 {
        state.is_trusted(s)
    } else {
        writes_parent(state, s, o)
    }
}

/// Whether the subject may give the object this label.
pub(crate) fn may_relabel<A: Allocator>(
    state: &State<A>,
    s: SubjectId,
    o: ObjectId,
    l: &SecLabel,
) -> bool
    requires subject { IsTrue (is_subject state.now s) }
    requires object { IsTrue (is_active state.now o) }
    ensures { result ≡ may_relabel state.now s o l.now }
{
    let subject = state.subject(s);
    if subject.trusted {
        return true;
    }
    if o.number() == 0 {
        return false;
    }
    let label = &state.labels(o).security;
    writes_parent(state, s, o) && subject.current.dominates(label) && l.dominates(label)
}
