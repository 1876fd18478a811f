//! Whether content of an object could flow to a place from a state on.
ghost use Rattle.std.specs.Prelude.{◌≡◌, option_map, IfOk, IfSome, IsTrue};
ghost use Rattle.mls_rows.specs.Rows.{bytes_of, form_of};
ghost use Rattle.mls_state.specs.State.{is_active};
ghost use Rattle.mls_state.specs.Properties.{IsSecure};
ghost use Rattle.mls_futures.specs.Closure.{acts_in};
ghost use Rattle.mls_flows.specs.declared.place.Place.TheVariants.{Object};
ghost use Rattle.mls_paths.specs.Hands.{IsHand, has_room};
ghost use Rattle.mls_paths.specs.Ways.{IsShortest};
ghost use Rattle.mls_flow_text.specs.Flows.{DoesWay, RowsOfActiveTo, RowsOfFlowTo};
ghost use Rattle.mls_flow_text.specs.Routes.{way_or_never};

use crate::ending::{never, with_full};
use crate::routing::with_route;
use mls_flow_ways::{FlowScript, flow_script_of};
use mls_flows::Place;
use mls_lines::Names;
use mls_paths::{Hop, flows, way_to};
use mls_rows::{Form, Listing, Output};
use mls_rules::State;
use mls_shared_rows::with_requests;
use mls_tables::ObjectId;
use std::alloc::{AllocError, Global};

/// The way from an object to a place, or that there is none.
fn written_way(
    alloc: Global,
    form: Form,
    names: &Names,
    state: &State,
    from: ObjectId,
    to: Place,
    way: &Option<Vec<Hop>>,
) -> Result<Output, AllocError>
    ensures form { IfOk result (λ new. form_of new ≡ form) }
    ensures bytes { IfOk result (λ new. bytes_of new
        ≡ way_or_never names.now form state.now from to (option_map (λ hops. hops.items) way.now)) }
{
    match way {
        Some(hops) => {
            let output = Output::new(alloc, form);
            with_route(alloc, output, names, state, from, to, hops)
        }
        None => never(alloc, form, names),
    }
}

/// The script that carries content of an object to a place on a way, where there is one.
fn script_on(
    alloc: Global,
    state: &State,
    actors: &[bool],
    from: ObjectId,
    to: Place,
    way: &Option<Vec<Hop>>,
) -> Result<FlowScript, AllocError>
    requires secure { IsSecure state.now }
    requires shortest { IfSome way.now
        (λ hops. IsShortest (IsHand state.now (acts_in actors.now) (has_room state.now)) (Object from) hops.items to) }
    ensures { IfOk result (λ script. DoesWay state.now (acts_in actors.now) from to
        (option_map (λ hops. hops.items) way.now) script.releases.items script.requests.items) }
{
    match way {
        Some(hops) => flow_script_of(alloc, state, actors, from, hops, to),
        None => Ok(FlowScript {
            releases: Vec::new(alloc),
            requests: Vec::new(alloc),
        }),
    }
}

/// The way from an object to a place with the script that carries content there, or that there is none; and whether
/// there is one, of an active object.
fn list_active_to(
    alloc: Global,
    form: Form,
    names: &Names,
    state: &State,
    actors: &[bool],
    from: ObjectId,
    to: Place,
) -> Result<Listing, AllocError>
    requires secure { IsSecure state.now }
    requires object { IsTrue (is_active state.now from) }
    ensures { IfOk result (λ listing. RowsOfActiveTo names.now state.now (acts_in actors.now) from to form
        listing.bytes.items listing.is_positive) }
{
    let found = flows(alloc, state, actors, from)?;
    let way = way_to(alloc, &found, to);
    drop(found);
    let way = way?;
    let is_positive = way.is_some();
    let output = written_way(alloc, form, names, state, from, to, &way);
    let script = script_on(alloc, state, actors, from, to, &way);
    drop(way);
    let FlowScript { releases, requests } = script?;
    let output = with_requests(alloc, output?, names, &releases);
    let output = with_requests(alloc, output?, names, &requests);
    drop(releases);
    drop(requests);
    let output = with_full(output?, names, state)?;
    Ok(Listing {
        bytes: output.into_bytes(),
        is_positive,
    })
}

/// Whether content of an object could flow to a place from a secure state on, whatever the actors do, in a form: a
/// shortest way there and the script that carries it there, or that it never does. The answer is positive where it
/// could. From an object that isn't active it never does.
///
/// # Errors
/// `AllocError` where an allocation failed.
pub fn list_flow_to(
    alloc: Global,
    form: Form,
    names: &Names,
    state: &State,
    actors: &[bool],
    from: ObjectId,
    to: Place,
) -> Result<Listing, AllocError>
    requires { IsSecure state.now }
    ensures { IfOk result (λ listing. RowsOfFlowTo names.now state.now (acts_in actors.now) from to form
        listing.bytes.items listing.is_positive) }
{
    if !state.is_active(from) {
        let output = never(alloc, form, names)?;
        return Ok(Listing {
            bytes: output.into_bytes(),
            is_positive: false,
        });
    }
    list_active_to(alloc, form, names, state, actors, from, to)
}
