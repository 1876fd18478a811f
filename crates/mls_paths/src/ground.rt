//! What is known of the futures of a state beforehand.
ghost use Rattle.std.specs.Prelude.{◌≡◌, ◌↔◌, IsTrue};
ghost use Rattle.mls_futures.specs.Closure.{acts_in, CouldGet};
ghost use Rattle.mls_paths.specs.Hands.{acts_of, IsGround};

use mls_futures::could_get_where;
use mls_rules::State;
use mls_tables::{Mode, ObjectId, SubjectId};

/// What is known of the futures of a state beforehand: who acts, whether one of these is trusted, and of which objects
/// one could give permissions, by number.
#[derive(Clone, Copy)]
pub(crate) struct Ground<'a> {
    pub actors: &'a [bool],
    pub trusted: bool,
    pub gives: &'a [bool],
}

/// Whether a subject acts.
pub(crate) fn is_actor(actors: &[bool], s: SubjectId) -> bool
    ensures { result ≡ acts_in actors.now s }
{
    match actors.get(s.number() as usize) {
        Some(acts) => *acts,
        None => false,
    }
}

/// Whether an actor could give permissions of an object, by its number.
fn is_givable(gives: &[bool], o: ObjectId) -> bool
    ensures { result ≡ acts_in gives.now o }
{
    match gives.get(o.number() as usize) {
        Some(gives) => *gives,
        None => false,
    }
}

/// Whether actors could get an access, by the closure of the state.
pub(crate) fn could(state: &State, ground: Ground<'_>, s: SubjectId, o: ObjectId, x: Mode) -> bool
    requires { IsGround state.now ground }
    ensures { IsTrue result ↔ CouldGet state.now (acts_of ground.entry) s o x }
{
    state.agrees();
    if !state.is_subject(s) || !state.is_active(o) {
        return false;
    }
    let gives = is_givable(ground.gives, o);
    could_get_where(state, ground.actors, ground.trusted, gives, s, o, x)
}
