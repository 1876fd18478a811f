//! The row of a way.
ghost use Rattle.std.specs.Prelude.{◌≡◌, ◌++◌, IfOk};
ghost use Rattle.mls_rows.specs.Rows.{bytes_of, form_of};
ghost use Rattle.mls_flow_text.specs.Routes.{route_bytes};
ghost use Rattle.mls_flow_text.specs.Steps.{steps_of as steps_told};

use crate::route::Route;
use crate::stepping::steps_of;
use mls_flows::Place;
use mls_lines::Names;
use mls_paths::Hop;
use mls_rows::Output;
use mls_rules::State;
use mls_tables::ObjectId;
use std::alloc::{AllocError, Global};

/// The way from an object to a place, as it is told.
fn route_of(
    alloc: Global,
    state: &State,
    from: ObjectId,
    place: Place,
    hops: &[Hop],
) -> Result<Route, AllocError>
    ensures place { IfOk result (λ route. route.place ≡ place) }
    ensures from { IfOk result (λ route. route.from ≡ from) }
    ensures steps { IfOk result (λ route. route.steps.items
        ≡ steps_told state.now from hops.now) }
{
    let steps = steps_of(alloc, state, from, hops)?;
    Ok(Route { place, from, steps })
}

/// The rows with that of a way from an object to a place behind them.
///
/// # Errors
/// `AllocError` where an allocation failed.
pub(crate) fn with_route(
    alloc: Global,
    output: Output,
    names: &Names,
    state: &State,
    from: ObjectId,
    place: Place,
    hops: &[Hop],
) -> Result<Output, AllocError>
    ensures form { IfOk result (λ new. form_of new ≡ form_of output) }
    ensures bytes { IfOk result (λ new. bytes_of new
        ≡ bytes_of output ++ route_bytes names.now (form_of output) state.now from place hops.now) }
{
    let route = route_of(alloc, state, from, place, hops)?;
    let output = output.with(names, None, &route);
    drop(route);
    output
}
