//! What is told of a subject.
ghost use Rattle.std.specs.Prelude.{◌≡◌, ◌++◌, codes, map, option_map, IfOk};
ghost use Rattle.mls_review.specs.Granted.{change_view};
ghost use Rattle.mls_review.specs.Powers.{powers as powers_in};
ghost use Rattle.mls_rows.specs.Rows.{bytes_of, form_of};
ghost use Rattle.mls_rows.specs.Times.{rows_lent};
ghost use Rattle.mls_shared_rows.specs.StateRows.{cells_bytes, subject_bytes};
ghost use Rattle.mls_tables.specs.declared.limits.TheConstants.{MAX_OBJECTS};
ghost use Rattle.mls_about.specs.Permissions.{permit_bytes};
ghost use Rattle.mls_about.specs.Subjects.{all_of, changes_bytes, subject_history, ShowsSubject, TellsSubject};

use crate::asked::with_asked;
use crate::giving::with_all_given;
use crate::permission::{Permission, permissions};
use crate::permit_row::with_permissions;
use mls_lines::Names;
use mls_marks::Marks;
use mls_requests::Entry;
use mls_review::{Asked, Change, changes};
use mls_rows::{Form, Output};
use mls_shared_rows::{with_kinds, with_row, with_subject};
use mls_state::{State, Table};
use mls_tables::SubjectId;
use std::alloc::{AllocError, Global};

/// What a subject may change.
fn powers_of(alloc: Global, state: &State, s: SubjectId) -> Result<Vec<Change>, AllocError>
    ensures { IfOk result (λ found. map change_view found.items ≡ powers_in state.now (all_of s)) }
{
    let asked = Asked {
        subject: Some(s),
        downgrades: false,
    };
    changes(alloc, state, asked)
}

/// Adds the rows of what a subject may change.
fn with_powers(output: Output, names: &Names, found: &[Change]) -> Result<Output, AllocError>
    ensures form { IfOk result (λ new. form_of new ≡ form_of output) }
    ensures bytes { IfOk result (λ new. bytes_of new
        ≡ bytes_of output ++ changes_bytes (form_of output) names.now (map change_view found.now)) }
{
    with_kinds(output, names, None, "power", found)
}

/// Adds what there is of a subject in a state, with these permissions and what it may change.
fn with_now(
    alloc: Global,
    output: Output,
    names: &Names,
    state: &State,
    s: SubjectId,
    found: (&[Permission], &[Change]),
) -> Result<Output, AllocError>
    ensures form { IfOk result (λ new. form_of new ≡ form_of output) }
    ensures bytes { IfOk result (λ new. bytes_of new ≡ bytes_of output
        ++ (subject_bytes (form_of output) names.now state.now s
        ++ (permit_bytes (form_of output) names.now state.now found.entry.0.now
        ++ (cells_bytes (form_of output) (codes "access") names.now state.now.accesses s MAX_OBJECTS
        ++ changes_bytes (form_of output) names.now (map change_view found.entry.1.now))))) }
{
    let output = with_subject(alloc, output, names, state, s)?;
    let output = with_permissions(alloc, output, names, state, found.0)?;
    let output = with_row(output, names, state, Table::Accesses, s)?;
    with_powers(output, names, found.1)
}

/// What there is of a subject in a state.
fn subject_now(
    alloc: Global,
    form: Form,
    names: &Names,
    state: &State,
    s: SubjectId,
) -> Result<Output, AllocError>
    ensures form { IfOk result (λ output. form_of output ≡ form) }
    ensures shows { IfOk result (λ output. ShowsSubject form names.now state.now s (bytes_of output)) }
{
    let permitted = permissions(alloc, state, s)?;
    let powers = powers_of(alloc, state, s)?;
    let found = (permitted.as_slice(), powers.as_slice());
    let output = with_now(alloc, Output::new(alloc, form), names, state, s, found);
    drop(powers);
    drop(permitted);
    output
}

/// Adds what a subject asked, and the rows of the entries about its permissions, where there is a journal.
fn with_history(
    alloc: Global,
    output: Output,
    names: &Names,
    marks: Option<&Marks>,
    s: SubjectId,
    entries: Option<&[Entry]>,
) -> Result<Output, AllocError>
    ensures { IfOk result (λ new. bytes_of new ≡ bytes_of output
        ++ subject_history (form_of output) names.now (rows_lent marks.entry) s
        (option_map (λ lent. lent.now) entries.entry)) }
{
    let Some(entries) = entries else {
        return Ok(output);
    };
    let output = with_asked(output, names, marks, s, entries)?;
    with_all_given(alloc, output, names, marks, s, entries)
}

/// What is told of a subject: what there is of it in a state, and where there is a journal what it asked, and the
/// entries about its permissions.
pub(crate) fn subject_rows(
    alloc: Global,
    form: Form,
    names: &Names,
    state: &State,
    s: SubjectId,
    marks: Option<&Marks>,
    entries: Option<&[Entry]>,
) -> Result<Vec<u8>, AllocError>
    ensures { IfOk result (λ bytes. TellsSubject form names.now state.now s (rows_lent marks.entry)
        (option_map (λ lent. lent.now) entries.entry) bytes.items) }
{
    let output = subject_now(alloc, form, names, state, s)?;
    let output = with_history(alloc, output, names, marks, s, entries)?;
    Ok(output.into_bytes())
}
