//! How content comes from one place to another one by one hand.
ghost use Rattle.std.specs.Prelude.{◌≡◌, ◌↔◌, IsTrue, slice_get};
ghost use Rattle.mls_state.specs.State.{is_subject};
ghost use Rattle.mls_flows.specs.declared.place.Place.TheVariants.{Subject, Object};
ghost use Rattle.mls_paths.specs.Hands.{acts_of, AreTakers, ComesBy, IsGiver, IsGround, entry_of};

use crate::ground::{Ground, could, is_actor};
use crate::reached::Hand;
use mls_flows::Place;
use mls_rules::State;
use mls_tables::{MAX_OBJECTS, Mode, ObjectId, SubjectId};

/// How a subject sees what is in an object, where it could: by read, or else by write.
fn seen(state: &State, ground: Ground<'_>, o: ObjectId, s: SubjectId) -> Option<Hand>
    requires { IsGround state.now ground }
    ensures { ComesBy state.now ground.entry (Object o) (Subject s) result }
{
    if could(state, ground, s, o, Mode::Read) {
        return Some(Hand::By(Mode::Read));
    }
    if could(state, ground, s, o, Mode::Write) {
        return Some(Hand::By(Mode::Write));
    }
    None
}

/// How a subject brings what it has into an object, where it could: by append, or else by write.
fn altered(state: &State, ground: Ground<'_>, s: SubjectId, o: ObjectId) -> Option<Hand>
    requires { IsGround state.now ground }
    ensures { ComesBy state.now ground.entry (Subject s) (Object o) result }
{
    if could(state, ground, s, o, Mode::Append) {
        return Some(Hand::By(Mode::Append));
    }
    if could(state, ground, s, o, Mode::Write) {
        return Some(Hand::By(Mode::Write));
    }
    None
}

/// Whether there is a free number, and a subject acts whose integrity dominates another one's, who is known.
fn could_hand(state: &State, ground: Ground<'_>, s: SubjectId, t: SubjectId) -> bool
    requires { IsTrue (is_subject state.now t) }
    ensures { IsTrue result ↔ IsGiver state.now (acts_of ground.entry) s t }
{
    state.agrees();
    if !state.is_subject(s) {
        return false;
    }
    if !is_actor(ground.actors, s) {
        return false;
    }
    if state.next() >= MAX_OBJECTS {
        return false;
    }
    let integrity = state.subject_integrity(t);
    state.subject_integrity(s).dominates(&integrity)
}

/// Who could make an object for a subject, and below which, by a table.
fn taker_at(takers: &[Option<(SubjectId, ObjectId)>], t: SubjectId) -> Option<(SubjectId, ObjectId)>
    ensures { result ≡ entry_of (slice_get takers.now t) }
{
    match takers.get(t.number() as usize) {
        Some(taker) => *taker,
        None => None,
    }
}

/// How a subject hands what it has on to another one, where it could: through an object that is made.
fn handed(
    state: &State,
    ground: Ground<'_>,
    takers: &[Option<(SubjectId, ObjectId)>],
    s: SubjectId,
    t: SubjectId,
) -> Option<Hand>
    requires takers { AreTakers state.now (acts_of ground) takers.now }
    ensures { ComesBy state.now ground.entry (Subject s) (Subject t) result }
{
    state.agrees();
    if !state.is_subject(t) {
        return None;
    }
    if !could_hand(state, ground, s, t) {
        return None;
    }
    match taker_at(takers, t) {
        Some(taker) => Some(Hand::Made(taker.0, taker.1)),
        None => None,
    }
}

/// How content comes from one place to another one by one hand, where it could.
pub(crate) fn pass(
    state: &State,
    ground: Ground<'_>,
    takers: &[Option<(SubjectId, ObjectId)>],
    from: &Place,
    to: &Place,
) -> Option<Hand>
    requires ground { IsGround state.now ground }
    requires takers { AreTakers state.now (acts_of ground) takers.now }
    ensures { ComesBy state.now ground.entry from.now to.now result }
{
    match *from {
        Place::Object(o) => match *to {
            Place::Subject(s) => seen(state, ground, o, s),
            Place::Object(_) => None,
        },
        Place::Subject(s) => match *to {
            Place::Subject(t) => handed(state, ground, takers, s, t),
            Place::Object(o) => altered(state, ground, s, o),
        },
    }
}
