//! Entries that a second start answers otherwise, row by row or summed up.
ghost use Rattle.std.specs.Prelude.{◌≡◌, ◌==◌, length, map, IfOk};
ghost use Rattle.mls_compare.specs.Asked.{TellsEntries, TellsEntriesBy, asked_rows, entry_case, summary_of};
ghost use Rattle.mls_compare.specs.Entries.{entries_bytes};
ghost use Rattle.mls_differences.specs.Differences.{IsListing};
ghost use Rattle.mls_differences.specs.Scoped.{IsSummed};

use crate::asked::{Asked, is_asked};
use crate::entry_row::EntryRow;
use mls_differences::{Case, Count, listing, push_counts, summed, with_rows};
use mls_lines::Names;
use mls_rows::{Form, Listing, Output};
use std::alloc::{AllocError, Global};

/// Rows of entries, in a form.
fn written(
    alloc: Global,
    form: Form,
    names: (&Names, &Names),
    rows: &[EntryRow],
) -> Result<Vec<u8>, AllocError>
    ensures { IfOk result (λ bytes. bytes.items ≡ entries_bytes form names.entry.0.now rows.now) }
{
    let output = Output::new(alloc, form);
    let output = with_rows(alloc, output, ("", ""), names, rows)?;
    Ok(output.into_bytes())
}

/// Those of some entries that are asked for.
fn asked_rows(alloc: Global, asked: &Asked, rows: &[EntryRow]) -> Result<Vec<EntryRow>, AllocError>
    ensures { IfOk result (λ found. found.items ≡ asked_rows asked.now rows.now) }
{
    let mut found = Vec::new(alloc);
    for row in rows {
        if is_asked(asked, row) {
            let EntryRow { entry, second } = *row;
            found.push(EntryRow { entry, second })?;
        }
    }
    Ok(found)
}

/// An entry, as it is counted.
fn entry_case(row: &EntryRow) -> Case
    ensures { result ≡ entry_case row.now }
{
    Case {
        subject: row.entry.request.subject,
        first: row.entry.reply,
        second: row.second,
    }
}

/// Entries, as they are counted.
fn cases_of(alloc: Global, rows: &[EntryRow]) -> Result<Vec<Case>, AllocError>
    ensures { IfOk result (λ cases. cases.items ≡ map entry_case rows.now) }
{
    let mut cases = Vec::new(alloc);
    for row in rows {
        cases.push(entry_case(row))?;
    }
    Ok(cases)
}

/// The rows of a summary of entries.
fn summary_of(alloc: Global, rows: &[EntryRow]) -> Result<Vec<Count>, AllocError>
    ensures { IfOk result (λ counts. counts.items ≡ summary_of rows.now) }
{
    let cases = cases_of(alloc, rows)?;
    let mut counts = Vec::new(alloc);
    counts.push(Count::Entries(rows.len() as u64))?;
    push_counts(alloc, &mut counts, &cases)?;
    Ok(counts)
}

/// A summary of entries, as an answer.
fn sum_up(
    alloc: Global,
    form: Form,
    names: (&Names, &Names),
    rows: &[EntryRow],
) -> Result<Listing, AllocError>
    ensures { IfOk result
        (λ found. IsSummed form names.entry.0.now (length rows.now == 0) (summary_of rows.now) found) }
{
    let counts = summary_of(alloc, rows)?;
    let answer = summed(alloc, form, names, rows.is_empty(), &counts);
    drop(counts);
    answer
}

/// Entries, row by row or summed up.
fn tell_rows(
    alloc: Global,
    form: Form,
    names: (&Names, &Names),
    summary: bool,
    rows: &[EntryRow],
) -> Result<Listing, AllocError>
    ensures { IfOk result (λ found. TellsEntriesBy summary form names.entry.0.now rows.now found) }
{
    if summary {
        return sum_up(alloc, form, names, rows);
    }
    Ok(listing(written(alloc, form, names, rows)?))
}

/// Those of some entries that are asked for, row by row or summed up.
///
/// # Errors
/// `AllocError` where an allocation failed.
pub(crate) fn tell_entries(
    alloc: Global,
    form: Form,
    names: (&Names, &Names),
    asked: &Asked,
    rows: &[EntryRow],
) -> Result<Listing, AllocError>
    ensures { IfOk result (λ found. TellsEntries asked.now form names.entry.0.now rows.now found) }
{
    let found = asked_rows(alloc, asked, rows)?;
    let answer = tell_rows(alloc, form, names, asked.scope.summary, &found);
    drop(found);
    answer
}
