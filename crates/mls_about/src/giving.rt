//! The entries that ask for permissions for a subject.
ghost use Rattle.std.specs.Prelude.{◌≡◌, ◌++◌, IfOk};
ghost use Rattle.mls_rows.specs.Rows.{bytes_of, form_of};
ghost use Rattle.mls_rows.specs.Times.{rows_lent};
ghost use Rattle.mls_about.specs.Entries.{given_bytes, given_entry};

use crate::entry_row::with_entry;
use mls_lines::Names;
use mls_listings::is_permitted;
use mls_marks::Marks;
use mls_requests::Entry;
use mls_rows::Output;
use mls_tables::SubjectId;
use std::alloc::{AllocError, Global};

/// Adds the row of an entry, where it asks for a permission for a subject, or that it be rescinded.
fn with_given(
    alloc: Global,
    output: Output,
    names: &Names,
    marks: Option<&Marks>,
    s: SubjectId,
    entry: &Entry,
) -> Result<Output, AllocError>
    ensures form { IfOk result (λ new. form_of new ≡ form_of output) }
    ensures bytes { IfOk result (λ new. bytes_of new
        ≡ bytes_of output ++ given_entry (form_of output) names.now (rows_lent marks.entry) s entry.now) }
{
    if !is_permitted(s, &entry.request.action) {
        return Ok(output);
    }
    with_entry(alloc, output, names, marks, entry)
}

/// Adds the rows of the entries that ask for a permission for a subject, or that it be rescinded, whatever the replies.
pub(crate) fn with_all_given(
    alloc: Global,
    output: Output,
    names: &Names,
    marks: Option<&Marks>,
    s: SubjectId,
    entries: &[Entry],
) -> Result<Output, AllocError>
    ensures form { IfOk result (λ new. form_of new ≡ form_of output) }
    ensures bytes { IfOk result (λ new. bytes_of new
        ≡ bytes_of output ++ given_bytes (form_of output) names.now (rows_lent marks.entry) s entries.now) }
{
    let mut written = output;
    for entry in entries {
        written = with_given(alloc, written, names, marks, s, entry)?;
    }
    Ok(written)
}
