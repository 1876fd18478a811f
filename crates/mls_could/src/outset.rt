//! What is known of the futures of a state beforehand.
ghost use Rattle.std.specs.Prelude.{◌≡◌, ◌↔◌, IsTrue, IfOk};
ghost use Rattle.mls_state.specs.State.{is_subject, is_active};
ghost use Rattle.mls_futures.specs.Closure.{acts_in, HasTrusted, CouldGet, CouldGive, IsGivable};
ghost use Rattle.mls_could.specs.Outsets.{acts_of, IsOutset};

use mls_futures::{could_get_where, givable, has_trusted};
use mls_rules::State;
use mls_tables::{Mode, ObjectId, SubjectId};
use std::alloc::{AllocError, Global};

/// What is known of the futures of a state beforehand: who acts, whether one of these is trusted, and of which objects
/// one could give permissions, by number.
#[derive(Drop)]
pub struct Outset {
    pub actors: Vec<bool>,
    pub trusted: bool,
    pub gives: Vec<bool>,
}

/// What is known of the futures of a state, where these act.
///
/// # Errors
/// `AllocError` where an allocation failed.
pub fn outset_of(alloc: Global, state: &State, actors: Vec<bool>) -> Result<Outset, AllocError>
    ensures right { IfOk result (λ outset. IsOutset state.now outset) }
    ensures actors { IfOk result (λ outset. outset.actors.items ≡ actors.items) }
{
    let trusted = has_trusted(state, &actors);
    match givable(alloc, state, &actors) {
        Ok(gives) => Ok(Outset {
            actors,
            trusted,
            gives,
        }),
        Err(fault) => {
            drop(actors);
            Err(fault)
        }
    }
}

impl Outset {
    /// Whether an actor could give permissions of an object of the state, by its number.
    pub(crate) fn could_give(&self, o: ObjectId) -> bool
        ensures { result ≡ acts_in self.now.gives.items o }
    {
        match self.gives.get(o.number() as usize) {
            Some(gives) => *gives,
            None => false,
        }
    }

    /// Whether actors could get an access, by the closure of the state.
    pub fn could(&self, state: &State, s: SubjectId, o: ObjectId, x: Mode) -> bool
        requires outset { IsOutset state.now self.now }
        ensures { IsTrue result ↔ CouldGet state.now (acts_of self.now) s o x }
    {
        state.agrees();
        if !state.is_subject(s) || !state.is_active(o) {
            return false;
        }
        could_get_where(
            state,
            &self.actors,
            self.trusted,
            self.could_give(o),
            s,
            o,
            x,
        )
    }
}
