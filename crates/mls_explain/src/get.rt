//! The conditions of a get.
ghost use Rattle.std.specs.Prelude.{◌≡◌, IsTrue};
ghost use Rattle.mls_state.specs.State.{is_subject, is_active};
ghost use Rattle.mls_state.specs.Properties.{discretionary_holds, simple_holds, star_holds, integrity_holds};
ghost use Rattle.mls_explain.specs.Grounds.{maximum_of, current_of, security_of, trust_of_subject, trust_of_object};
ghost use Rattle.mls_explain.specs.Grounds.{simple_ground, star_between_ground, star_ground};
ghost use Rattle.mls_explain.specs.Grounds.{integrity_between_ground, integrity_ground};

use crate::condition::Condition;
use crate::ground::Ground;
use crate::term::Term;
use mls_requests::Reason;
use mls_state::{State, discretionary_holds, integrity_holds, simple_holds, star_holds};
use mls_tables::{Mode, ObjectId, SubjectId};
use std::alloc::Allocator;

/// The maximum label of a subject.
pub(crate) fn maximum_of<A: Allocator>(state: &State<A>, s: SubjectId) -> Term
    requires { IsTrue (is_subject state.now s) }
    ensures { result ≡ maximum_of state.now s }
{
    Term::Maximum(state.maximum(s))
}

/// The current label of a subject.
pub(crate) fn current_of<A: Allocator>(state: &State<A>, s: SubjectId) -> Term
    requires { IsTrue (is_subject state.now s) }
    ensures { result ≡ current_of state.now s }
{
    Term::Current(state.current(s))
}

/// The security label of an object.
pub(crate) fn security_of<A: Allocator>(state: &State<A>, o: ObjectId) -> Term
    requires { IsTrue (is_active state.now o) }
    ensures { result ≡ security_of state.now o }
{
    Term::Object(state.object_label(o), o)
}

/// The integrity label of a subject.
fn trust_of_subject<A: Allocator>(state: &State<A>, s: SubjectId) -> Term
    requires { IsTrue (is_subject state.now s) }
    ensures { result ≡ trust_of_subject state.now s }
{
    Term::SubjectIntegrity(state.subject_integrity(s), s)
}

/// The integrity label of an object.
pub(crate) fn trust_of_object<A: Allocator>(state: &State<A>, o: ObjectId) -> Term
    requires { IsTrue (is_active state.now o) }
    ensures { result ≡ trust_of_object state.now o }
{
    Term::ObjectIntegrity(state.object_integrity(o), o)
}

/// What simple security of an access rests on.
fn simple_ground<A: Allocator>(state: &State<A>, s: SubjectId, o: ObjectId, x: Mode) -> Ground
    requires subject { IsTrue (is_subject state.now s) }
    requires object { IsTrue (is_active state.now o) }
    ensures { result ≡ simple_ground state.now s o x }
{
    if x.observes() {
        Ground::Dominance(maximum_of(state, s), security_of(state, o))
    } else {
        Ground::Unobserving(x)
    }
}

/// What star of an untrusted subject's access rests on.
pub(crate) fn star_between_ground(current: Term, label: Term, x: Mode) -> Ground
    ensures { result ≡ star_between_ground current label x }
{
    match x {
        Mode::Execute => Ground::Inert,
        Mode::Read => Ground::Dominance(current, label),
        Mode::Append => Ground::Dominance(label, current),
        Mode::Write => Ground::Equality(current, label),
    }
}

/// What star of an access rests on.
fn star_ground<A: Allocator>(state: &State<A>, s: SubjectId, o: ObjectId, x: Mode) -> Ground
    requires subject { IsTrue (is_subject state.now s) }
    requires object { IsTrue (is_active state.now o) }
    ensures { result ≡ star_ground state.now s o x }
{
    if state.is_trusted(s) {
        Ground::Trust(s)
    } else {
        star_between_ground(current_of(state, s), security_of(state, o), x)
    }
}

/// What strict integrity rests on, between the labels of a subject and of an object.
fn integrity_between_ground(own: Term, label: Term, x: Mode) -> Ground
    ensures { result ≡ integrity_between_ground own label x }
{
    match x {
        Mode::Execute | Mode::Read => Ground::Dominance(label, own),
        Mode::Append => Ground::Dominance(own, label),
        Mode::Write => Ground::Equality(own, label),
    }
}

/// What strict integrity of an access rests on.
fn integrity_ground<A: Allocator>(state: &State<A>, s: SubjectId, o: ObjectId, x: Mode) -> Ground
    requires subject { IsTrue (is_subject state.now s) }
    requires object { IsTrue (is_active state.now o) }
    ensures { result ≡ integrity_ground state.now s o x }
{
    integrity_between_ground(trust_of_subject(state, s), trust_of_object(state, o), x)
}

/// That the matrix permits the access.
pub(crate) fn discretionary<A: Allocator>(
    state: &State<A>,
    s: SubjectId,
    o: ObjectId,
    x: Mode,
) -> Condition
    requires subject { IsTrue (is_subject state.now s) }
    requires object { IsTrue (is_active state.now o) }
    ensures { result ≡ record {
      reason = Reason.Discretionary;
      holds = discretionary_holds state.now (s, o, x);
      basis = Ground.Permission s x o;
    } }
{
    let holds = discretionary_holds(state, s, o, x);
    Condition::new(Reason::Discretionary, holds, Ground::Permission(s, x, o))
}

/// That simple security holds of the access.
pub(crate) fn simple<A: Allocator>(
    state: &State<A>,
    s: SubjectId,
    o: ObjectId,
    x: Mode,
) -> Condition
    requires subject { IsTrue (is_subject state.now s) }
    requires object { IsTrue (is_active state.now o) }
    ensures { result ≡ record {
      reason = Reason.Simple;
      holds = simple_holds state.now (s, o, x);
      basis = simple_ground state.now s o x;
    } }
{
    let holds = simple_holds(state, s, o, x);
    Condition::new(Reason::Simple, holds, simple_ground(state, s, o, x))
}

/// That star holds of the access.
pub(crate) fn star<A: Allocator>(state: &State<A>, s: SubjectId, o: ObjectId, x: Mode) -> Condition
    requires subject { IsTrue (is_subject state.now s) }
    requires object { IsTrue (is_active state.now o) }
    ensures { result ≡ record {
      reason = Reason.Star;
      holds = star_holds state.now (s, o, x);
      basis = star_ground state.now s o x;
    } }
{
    let holds = star_holds(state, s, o, x);
    Condition::new(Reason::Star, holds, star_ground(state, s, o, x))
}

/// That strict integrity holds of the access.
pub(crate) fn integrity<A: Allocator>(
    state: &State<A>,
    s: SubjectId,
    o: ObjectId,
    x: Mode,
) -> Condition
    requires subject { IsTrue (is_subject state.now s) }
    requires object { IsTrue (is_active state.now o) }
    ensures { result ≡ record {
      reason = Reason.Integrity;
      holds = integrity_holds state.now (s, o, x);
      basis = integrity_ground state.now s o x;
    } }
{
    let holds = integrity_holds(state, s, o, x);
    Condition::new(Reason::Integrity, holds, integrity_ground(state, s, o, x))
}
