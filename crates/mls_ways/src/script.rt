//! The script that brings an access about.
ghost use Rattle.std.specs.Prelude.{◌≡◌, IsTrue, IfOk};
ghost use Rattle.mls_state.specs.State.{is_subject, is_active};
ghost use Rattle.mls_state.specs.Properties.{IsSecure};
ghost use Rattle.mls_futures.specs.Closure.{acts_in, CouldGet};
ghost use Rattle.mls_futures.specs.Futures.{HasLabelsWithin, HoldsNothing};
ghost use Rattle.mls_ways.specs.Brings.{BringsLeanly, IsLeanScript};

use crate::bringing::bring;
use crate::leaning::lean;
use crate::releasing::release_all;
use crate::within::are_within;
use mls_rules::{Request, State};
use mls_tables::{MAX_OBJECTS, Mode, ObjectId, SubjectId};
use std::alloc::{AllocError, Global};

/// A script that brings an access about: releases of all that is held, and then requests of actors, of which none can
/// be left out alone.
#[derive(Drop)]
pub struct Script {
    pub releases: Vec<Request>,
    pub requests: Vec<Request>,
}

/// Requests of actors that bring an access about where nobody holds anything, of which none can be left out alone.
fn requests_of(
    alloc: Global,
    freed: &State,
    actors: &[bool],
    access: (SubjectId, ObjectId, Mode),
) -> Result<Vec<Request>, AllocError>
    requires secure { IsSecure freed.now }
    requires within { HasLabelsWithin freed.now }
    requires nothing { HoldsNothing freed.now }
    requires subject { IsTrue (is_subject freed.now access.0) }
    requires object { IsTrue (is_active freed.now access.1) }
    requires could { CouldGet freed.now (acts_in actors.now) access.0 access.1 access.2 }
    ensures { IfOk result (λ requests. IsLeanScript freed.now (acts_in actors.now) access requests.items) }
{
    let (s, o, x) = access;
    let mut requests = Vec::new(alloc);
    let mut state = freed.duplicate(alloc)?;
    let done = bring(&mut state, &mut requests, actors, s, o, x, MAX_OBJECTS);
    drop(state);
    match done {
        Ok(()) => lean(alloc, freed, actors, requests, &access),
        Err(fault) => {
            drop(requests);
            Err(fault)
        }
    }
}

/// The script that brings an access about which an actor could get.
fn script_within(
    alloc: Global,
    state: &State,
    actors: &[bool],
    access: (SubjectId, ObjectId, Mode),
) -> Result<Script, AllocError>
    requires secure { IsSecure state.now }
    requires within { HasLabelsWithin state.now }
    requires subject { IsTrue (is_subject state.now access.0) }
    requires object { IsTrue (is_active state.now access.1) }
    requires could { CouldGet state.now (acts_in actors.now) access.0 access.1 access.2 }
    ensures { IfOk result (λ script. BringsLeanly state.now (acts_in actors.now) access script.releases.items
        script.requests.items) }
{
    let mut releases = Vec::new(alloc);
    let mut freed = state.duplicate(alloc)?;
    release_all(alloc, &mut freed, &mut releases)?;
    let requests = requests_of(alloc, &freed, actors, access);
    drop(freed);
    match requests {
        Ok(requests) => Ok(Script { releases, requests }),
        Err(fault) => {
            drop(releases);
            Err(fault)
        }
    }
}

/// The script that brings an access about which an actor could get, from a secure state whose labels are within the
/// bounds, as those of each state are to which a journal leads: it releases all that is held, by whomever, and has then
/// requests of actors; each is answered yes, the access is held in the end, and none of the requests behind the
/// releases can be left out alone. From any other state both lists are empty.
///
/// # Errors
/// `AllocError` where an allocation failed.
pub fn script_of(
    alloc: Global,
    state: &State,
    actors: &[bool],
    access: (SubjectId, ObjectId, Mode),
) -> Result<Script, AllocError>
    requires secure { IsSecure state.now }
    requires subject { IsTrue (is_subject state.now access.0) }
    requires object { IsTrue (is_active state.now access.1) }
    requires could { CouldGet state.now (acts_in actors.now) access.0 access.1 access.2 }
    ensures { IfOk result (λ script. HasLabelsWithin state.now
        → BringsLeanly state.now (acts_in actors.now) access script.releases.items script.requests.items) }
{
    if are_within(state) {
        return script_within(alloc, state, actors, access);
    }
    Ok(Script {
        releases: Vec::new(alloc),
        requests: Vec::new(alloc),
    })
}
