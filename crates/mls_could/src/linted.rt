//! What untrusted subjects could bring about, as rows.
ghost use Rattle.std.specs.Prelude.{◌≡◌, ◌-◌, ◌++◌, ◌==◌, IfOk, length, take};
ghost use Rattle.std.specs.List.{flat_map};
ghost use Rattle.mls_rows.specs.Rows.{bytes_of, form_of, row_bytes};
ghost use Rattle.mls_could.specs.Brought.{brought_bytes, brought_line, brought_members, more_bytes, most_lines};
ghost use Rattle.mls_could.specs.Brought.{TellsBrought};

use crate::acting::untrusted;
use crate::bringing::brought;
use crate::brought_row::{BroughtRow, MoreRow};
use mls_lines::Names;
use mls_rows::{Form, Listing, Output};
use mls_rules::State;
use mls_tables::{Mode, ObjectId, SubjectId};
use std::alloc::{AllocError, Global};

/// How many accesses have a line each.
const MOST_LINES: usize = 20;

/// The rows of accesses.
fn listed(
    alloc: Global,
    form: Form,
    names: &Names,
    found: &[(SubjectId, ObjectId, Mode)],
) -> Result<Output, AllocError>
    ensures form { IfOk result (λ new. form_of new ≡ form) }
    ensures bytes { IfOk result (λ new. bytes_of new
        ≡ flat_map (λ t. row_bytes form (brought_line names.now t) (brought_members names.now t)) found.now) }
{
    let mut output = Output::new(alloc, form);
    for access in found {
        let row = BroughtRow { access: *access };
        output = output.with(names, None, &row)?;
    }
    Ok(output)
}

/// The rows with how many accesses there are beyond, where there are more.
fn with_more(output: Output, names: &Names, more: u64) -> Result<Output, AllocError>
    ensures { IfOk result (λ new. bytes_of new ≡ bytes_of output ++ more_bytes (form_of output) more) }
{
    if more == 0 {
        return Ok(output);
    }
    output.with(names, None, &MoreRow { more })
}

/// The accesses that have a line each.
fn firsts(found: &[(SubjectId, ObjectId, Mode)]) -> &[(SubjectId, ObjectId, Mode)]
    ensures { result.now ≡ take most_lines found.now }
{
    &found[..found.len().min(MOST_LINES)]
}

/// How many there are beyond.
fn beyond(found: &[(SubjectId, ObjectId, Mode)]) -> u64
    ensures { result ≡ length found.now - most_lines }
{
    found.len().saturating_sub(MOST_LINES) as u64
}

/// The rows of the first accesses, and how many there are beyond.
fn written(
    alloc: Global,
    form: Form,
    names: &Names,
    found: &[(SubjectId, ObjectId, Mode)],
) -> Result<Listing, AllocError>
    ensures bytes { IfOk result (λ listing. listing.bytes.items ≡ brought_bytes names.now form found.now) }
    ensures positive { IfOk result (λ listing. listing.is_positive ≡ (length found.now == 0)) }
{
    let output = listed(alloc, form, names, firsts(found))?;
    let output = with_more(output, names, beyond(found))?;
    Ok(Listing {
        bytes: output.into_bytes(),
        is_positive: found.is_empty(),
    })
}

/// What untrusted subjects could bring about that the matrix doesn't permit, in a form: of the first accesses a row
/// each, by subject, object and mode, and how many more there are. The answer is positive where there is nothing.
///
/// # Errors
/// `AllocError` where an allocation failed.
pub fn list_brought(
    alloc: Global,
    form: Form,
    names: &Names,
    state: &State,
) -> Result<Listing, AllocError>
    ensures { IfOk result
        (λ listing. TellsBrought names.now state.now form listing.bytes.items listing.is_positive) }
{
    let outset = untrusted(alloc, state)?;
    let found = brought(alloc, state, &outset);
    drop(outset);
    let found = found?;
    let listing = written(alloc, form, names, &found);
    drop(found);
    listing
}
