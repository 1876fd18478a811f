//! The rows of what there is in a state.
ghost use Rattle.std.specs.Prelude.{◌≡◌, ◌++◌, IfOk};
ghost use Rattle.mls_rows.specs.Rows.{bytes_of, form_of};
ghost use Rattle.mls_shared_rows.specs.StateRows.{heads_bytes, next_bytes, profile_bytes, things_bytes};

use crate::head_row::HeadRow;
use crate::kinds::with_kind;
use crate::things::{with_objects, with_subjects};
use crate::triples::with_table;
use mls_lines::Names;
use mls_rows::Output;
use mls_state::{State, Table};
use std::alloc::{AllocError, Global};

/// Adds the row of a state's profile.
fn with_profile(output: Output, names: &Names, state: &State) -> Result<Output, AllocError>
    ensures form { IfOk result (λ new. form_of new ≡ form_of output) }
    ensures bytes { IfOk result (λ new. bytes_of new ≡ bytes_of output ++ profile_bytes state.now (form_of output)) }
{
    let profile = HeadRow::Profile(state.profile());
    with_kind(output, names, None, "profile", &profile)
}

/// Adds the row of the number that the next object will have.
fn with_next(output: Output, names: &Names, state: &State) -> Result<Output, AllocError>
    ensures form { IfOk result (λ new. form_of new ≡ form_of output) }
    ensures bytes { IfOk result (λ new. bytes_of new ≡ bytes_of output ++ next_bytes state.now (form_of output)) }
{
    let next = HeadRow::Next(state.next());
    with_kind(output, names, None, "next", &next)
}

/// Adds the rows of a state's profile and of the number that the next object will have.
fn with_heads(output: Output, names: &Names, state: &State) -> Result<Output, AllocError>
    ensures form { IfOk result (λ new. form_of new ≡ form_of output) }
    ensures bytes { IfOk result (λ new. bytes_of new ≡ bytes_of output ++ heads_bytes (form_of output) state.now) }
{
    let output = with_profile(output, names, state)?;
    let output = with_next(output, names, state)?;
    Ok(output)
}

/// Adds the rows of what there is in a state: its profile and the number that the next object will have, the subjects
/// and the active objects by number, what the matrix permits, and what is accessed.
///
/// # Errors
/// `AllocError` where an allocation failed.
pub fn with_state(
    alloc: Global,
    output: Output,
    names: &Names,
    state: &State,
) -> Result<Output, AllocError>
    ensures form { IfOk result (λ new. form_of new ≡ form_of output) }
    ensures bytes { IfOk result (λ new. bytes_of new
        ≡ bytes_of output ++ things_bytes (form_of output) names.now state.now) }
{
    let output = with_heads(output, names, state)?;
    let output = with_subjects(alloc, output, names, state)?;
    let output = with_objects(alloc, output, names, state)?;
    let output = with_table(output, names, state, Table::Matrix)?;
    with_table(output, names, state, Table::Accesses)
}
