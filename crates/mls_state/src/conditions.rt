//! The conditions of one triple, each looked at alone.
ghost use Rattle.std.specs.Prelude.{◌≡◌, IsTrue, Some};
ghost use Rattle.mls_state.specs.State.{is_subject, is_active};
ghost use Rattle.mls_state.specs.Properties.{simple_between, simple_holds, star_between, star_holds};
ghost use Rattle.mls_state.specs.Properties.{integrity_between, integrity_holds, discretionary_holds};

use crate::state::State;
use mls_labels::{IntLabel, SecLabel};
use mls_tables::{Mode, ObjectId, SubjectId};
use std::alloc::Allocator;

/// Whether the matrix permits the access.
pub fn discretionary_holds<A: Allocator>(
    state: &State<A>,
    s: SubjectId,
    o: ObjectId,
    x: Mode,
) -> bool
    requires subject { IsTrue (is_subject state.now s) }
    requires object { IsTrue (is_active state.now o) }
    ensures { result ≡ discretionary_holds state.now (s, o, x) }
{
    state.allowed(s, o).has(x)
}

/// Whether simple security holds between the maximum label of a subject and the label of an object that it accesses.
pub fn simple_between(maximum: &SecLabel, label: &SecLabel, x: Mode) -> bool
    ensures { result ≡ simple_between (Some maximum.now) (Some label.now) x }
{
    !x.observes() || maximum.dominates(label)
}

/// Whether the access meets simple security.
pub fn simple_holds<A: Allocator>(state: &State<A>, s: SubjectId, o: ObjectId, x: Mode) -> bool
    requires subject { IsTrue (is_subject state.now s) }
    requires object { IsTrue (is_active state.now o) }
    ensures { result ≡ simple_holds state.now (s, o, x) }
{
    simple_between(&state.subject(s).maximum, &state.labels(o).security, x)
}

/// Whether star holds between the current label of an untrusted subject and the label of an object that it accesses.
pub fn star_between(own: &SecLabel, label: &SecLabel, x: Mode) -> bool
    ensures { result ≡ star_between (Some own.now) (Some label.now) x }
{
    match x {
        Mode::Append => label.dominates(own),
        Mode::Write => label.dominates(own) && own.dominates(label),
        Mode::Read => own.dominates(label),
        Mode::Execute => true,
    }
}

/// Whether the access meets the star property, which doesn't bind a trusted subject.
pub fn star_holds<A: Allocator>(state: &State<A>, s: SubjectId, o: ObjectId, x: Mode) -> bool
    requires subject { IsTrue (is_subject state.now s) }
    requires object { IsTrue (is_active state.now o) }
    ensures { result ≡ star_holds state.now (s, o, x) }
{
    let subject = state.subject(s);
    subject.trusted || star_between(&subject.current, &state.labels(o).security, x)
}

/// Whether strict integrity holds between the integrity labels of a subject and of an object that it accesses.
pub fn integrity_between(own: &IntLabel, label: &IntLabel, x: Mode) -> bool
    ensures { result ≡ integrity_between (Some own.now) (Some label.now) x }
{
    (!x.uses() || label.dominates(own)) && (!x.alters() || own.dominates(label))
}

/// Whether the access meets strict integrity, which binds every subject.
pub fn integrity_holds<A: Allocator>(state: &State<A>, s: SubjectId, o: ObjectId, x: Mode) -> bool
    requires subject { IsTrue (is_subject state.now s) }
    requires object { IsTrue (is_active state.now o) }
    ensures { result ≡ integrity_holds state.now (s, o, x) }
{
    integrity_between(&state.subject(s).integrity, &state.labels(o).integrity, x)
}
