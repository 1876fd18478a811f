//! The rows of the ways to all places.
ghost use Rattle.std.specs.Prelude.{◌≡◌, [], false, IfOk};
ghost use Rattle.mls_rows.specs.Rows.{bytes_of, form_of};
ghost use Rattle.mls_paths.specs.declared.numbering.TheConstants.{PLACES};
ghost use Rattle.mls_flow_text.specs.Ways.{AddsPlace, AreFound};

use crate::routing::with_route;
use mls_flows::Place;
use mls_lines::Names;
use mls_paths::{PLACES, Reached, place_of, way_to};
use mls_rows::{Form, Output};
use mls_rules::State;
use mls_tables::ObjectId;
use std::alloc::{AllocError, Global};

/// Rows of ways, and whether there is one.
#[derive(Drop)]
pub(crate) struct Written {
    pub output: Output,
    pub any: bool,
}

/// The rows with that of the way to a place behind them, where content comes there by a hand or more.
fn with_place(
    alloc: Global,
    written: Written,
    names: &Names,
    state: &State,
    found: &[Reached],
    from: ObjectId,
    place: Place,
) -> Result<Written, AllocError>
    ensures { IfOk result (λ new. AddsPlace names.now state.now from found.now place written new) }
{
    let Written { output, any } = written;
    let Some(hops) = way_to(alloc, found, place)? else {
        return Ok(Written { output, any });
    };
    if hops.is_empty() {
        drop(hops);
        return Ok(Written { output, any });
    }
    let output = with_route(alloc, output, names, state, from, place, &hops);
    drop(hops);
    Ok(Written {
        output: output?,
        any: true,
    })
}

/// The rows of the ways to the places that were found, by their numbers.
///
/// # Errors
/// `AllocError` where an allocation failed.
pub(crate) fn written_ways(
    alloc: Global,
    form: Form,
    names: &Names,
    state: &State,
    found: &[Reached],
    from: ObjectId,
) -> Result<Written, AllocError>
    ensures { IfOk result (λ new. AreFound names.now form state.now from found.now PLACES new) }
{
    let mut written = Written {
        output: Output::new(alloc, form),
        any: false,
    };
    for n in 0..PLACES {
        written = with_place(alloc, written, names, state, found, from, place_of(n))?;
    }
    Ok(written)
}
