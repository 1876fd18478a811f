//! The script by which content flows.
ghost use Rattle.std.specs.Prelude.{IfOk, IsTrue};
ghost use Rattle.mls_state.specs.State.{is_active};
ghost use Rattle.mls_state.specs.Properties.{IsSecure};
ghost use Rattle.mls_flows.specs.Arriving.{HasIntegrityWithin};
ghost use Rattle.mls_flows.specs.declared.place.Place.TheVariants.{Object};
ghost use Rattle.mls_futures.specs.Closure.{acts_in};
ghost use Rattle.mls_futures.specs.Futures.{HasLabelsWithin};
ghost use Rattle.mls_paths.specs.Hands.{IsHand, has_room};
ghost use Rattle.mls_paths.specs.Ways.{IsShortest};
ghost use Rattle.mls_flow_ways.specs.Scripts.{CarriesContent};

use crate::bounds::is_integrity_within;
use crate::passing::pass_on;
use mls_flows::Place;
use mls_paths::Hop;
use mls_rules::{Request, State};
use mls_tables::ObjectId;
use mls_ways::{are_within, release_all};
use std::alloc::{AllocError, Global};

/// A script by which content flows: releases of all that is held, and then requests of actors that carry it.
#[derive(Drop)]
pub struct FlowScript {
    pub releases: Vec<Request>,
    pub requests: Vec<Request>,
}

/// The script by which content of an object comes to a place, on a shortest way.
fn script_within(
    alloc: Global,
    state: &State,
    actors: &[bool],
    from: ObjectId,
    hops: &[Hop],
    to: Place,
) -> Result<FlowScript, AllocError>
    requires secure { IsSecure state.now }
    requires within { HasLabelsWithin state.now }
    requires bound { HasIntegrityWithin state.now }
    requires shortest { IsShortest (IsHand state.now (acts_in actors.now) (has_room state.now)) (Object from)
        hops.now to }
    ensures { IfOk result (λ script. CarriesContent state.now (acts_in actors.now) (Object from) to
        script.releases.items script.requests.items) }
{
    let mut releases = Vec::new(alloc);
    let mut freed = state.duplicate(alloc)?;
    release_all(alloc, &mut freed, &mut releases)?;
    let mut requests = Vec::new(alloc);
    let done = pass_on(
        &mut freed,
        &mut requests,
        actors,
        Place::Object(from),
        hops,
        to,
    );
    drop(freed);
    match done {
        Ok(()) => Ok(FlowScript { releases, requests }),
        Err(fault) => {
            drop(releases);
            drop(requests);
            Err(fault)
        }
    }
}

/// The script by which content of an object comes to a place on a shortest way, from a secure state whose labels are
/// within the bounds, as those of each state are to which a journal leads: it releases all that is held, by whomever,
/// and has then requests of actors, each of which is granted and none of which takes an object away; they carry the
/// content there. For each hand it brings the access about, and releases it again; where an object is to be made, an
/// actor makes it, permits one subject to append and the other one to read. From any other state both lists are empty.
///
/// # Errors
/// `AllocError` where an allocation failed.
pub fn flow_script_of(
    alloc: Global,
    state: &State,
    actors: &[bool],
    from: ObjectId,
    hops: &[Hop],
    to: Place,
) -> Result<FlowScript, AllocError>
    requires secure { IsSecure state.now }
    requires shortest { IsShortest (IsHand state.now (acts_in actors.now) (has_room state.now)) (Object from)
        hops.now to }
    ensures { IfOk result (λ script. HasLabelsWithin state.now → HasIntegrityWithin state.now
        → CarriesContent state.now (acts_in actors.now) (Object from) to script.releases.items
        script.requests.items) }
{
    if are_within(state) && is_integrity_within(state) {
        return script_within(alloc, state, actors, from, hops, to);
    }
    Ok(FlowScript {
        releases: Vec::new(alloc),
        requests: Vec::new(alloc),
    })
}
