//! Where content of an object could flow from a state on.
ghost use Rattle.std.specs.Prelude.{◌≡◌, IfOk, IsTrue};
ghost use Rattle.mls_state.specs.State.{is_active};
ghost use Rattle.mls_futures.specs.Closure.{acts_in};
ghost use Rattle.mls_flow_text.specs.Flows.{RowsOfActive, RowsOfFlows};

use crate::ending::with_full;
use crate::visiting::{Written, written_ways};
use mls_lines::Names;
use mls_paths::flows;
use mls_rows::{Form, Listing};
use mls_rules::State;
use mls_tables::ObjectId;
use std::alloc::{AllocError, Global};

/// Where content of an active object could flow, as rows.
fn list_active(
    alloc: Global,
    form: Form,
    names: &Names,
    state: &State,
    actors: &[bool],
    from: ObjectId,
) -> Result<Listing, AllocError>
    requires { IsTrue (is_active state.now from) }
    ensures { IfOk result (λ listing. RowsOfActive names.now state.now (acts_in actors.now) from form
        listing.bytes.items listing.is_positive) }
{
    state.agrees();
    // how many subjects there are
    let _ = state.subject_count();
    let found = flows(alloc, state, actors, from)?;
    let written = written_ways(alloc, form, names, state, &found, from);
    drop(found);
    let Written { output, any } = written?;
    let output = with_full(output, names, state)?;
    Ok(Listing {
        bytes: output.into_bytes(),
        is_positive: any,
    })
}

/// Where content of an object could flow from a state on, whatever the actors do, in a form: a row for each other
/// subject and then for each other object to which it could flow, by number, with a shortest way there. The answer is
/// positive where there is one. An object that isn't active has no row.
///
/// # Errors
/// `AllocError` where an allocation failed.
pub fn list_flows(
    alloc: Global,
    form: Form,
    names: &Names,
    state: &State,
    actors: &[bool],
    from: ObjectId,
) -> Result<Listing, AllocError>
    ensures { IfOk result (λ listing. RowsOfFlows names.now state.now (acts_in actors.now) from form
        listing.bytes.items listing.is_positive) }
{
    if !state.is_active(from) {
        return Ok(Listing {
            bytes: Vec::new(alloc),
            is_positive: false,
        });
    }
    list_active(alloc, form, names, state, actors, from)
}
