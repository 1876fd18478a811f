//! Where content of an object could ever flow.
ghost use Rattle.std.specs.Prelude.{◌≡◌, ◌↔◌, IsTrue, IfOk, length};
ghost use Rattle.mls_tables.specs.declared.limits.TheConstants.{MAX_OBJECTS};
ghost use Rattle.mls_state.specs.State.{is_active};
ghost use Rattle.mls_futures.specs.Closure.{acts_in, IsGivable};
ghost use Rattle.mls_flows.specs.Reaching.{CouldReach};
ghost use Rattle.mls_flows.specs.declared.place.Place.{Place};
ghost use Rattle.mls_flows.specs.declared.place.Place.TheVariants.{Object};
ghost use Rattle.mls_paths.specs.Found.{IsFlow, IsThere};
ghost use Rattle.mls_paths.specs.Hands.{IsHand, has_room};

use crate::ground::Ground;
use crate::reached::Reached;
use crate::searching::search;
use crate::taking::takers;
use mls_futures::{givable, has_trusted};
use mls_rules::State;
use mls_tables::ObjectId;
use std::alloc::{AllocError, Global};

/// The places that content of an active object could reach, where it is known of which objects an actor could give
/// permissions.
fn flows_by(
    alloc: Global,
    state: &State,
    actors: &[bool],
    gives: &[bool],
    from: ObjectId,
) -> Result<Vec<Reached>, AllocError>
    requires object { IsTrue (is_active state.now from) }
    requires many { length gives.now ≡ MAX_OBJECTS }
    requires gives { IsGivable state.now (acts_in actors.now) gives.now }
    ensures { IfOk result (λ found. IsFlow (IsHand state.now (acts_in actors.now) (has_room state.now))
        (Object from) found.items) }
{
    let trusted = has_trusted(state, actors);
    let ground = Ground {
        actors,
        trusted,
        gives,
    };
    let takers = takers(alloc, state, ground)?;
    let found = search(alloc, state, ground, &takers, from);
    drop(takers);
    found
}

/// Just the places that content of an active object could reach, whatever the actors do, each once, by the closure of
/// the state: first the object, and then each place behind the one from which content comes to it by one hand, which
/// isn't reached by fewer hands. Of ways with equally many hands it is the one whose places come first by number,
/// subjects before objects.
///
/// # Errors
/// `AllocError` where an allocation failed.
pub fn flows(
    alloc: Global,
    state: &State,
    actors: &[bool],
    from: ObjectId,
) -> Result<Vec<Reached>, AllocError>
    requires { IsTrue (is_active state.now from) }
    ensures reach { IfOk result (λ found. (p : Place)
        → (IsThere found.items p ↔ CouldReach state.now (acts_in actors.now) (has_room state.now) (Object from) p)) }
    ensures ways { IfOk result (λ found. IsFlow (IsHand state.now (acts_in actors.now) (has_room state.now))
        (Object from) found.items) }
{
    let gives = givable(alloc, state, actors)?;
    let found = flows_by(alloc, state, actors, &gives, from);
    drop(gives);
    found
}
