//! How two starts differ, as much of it as is asked for.
ghost use Rattle.std.specs.Prelude.{◌≡◌, ◌++◌, ◌+◌, true, length, map, IfOk, OnOk};
ghost use Rattle.std.specs.List.{flat_map};
ghost use Rattle.mls_differences.specs.Counting.{counts_bytes};
ghost use Rattle.mls_differences.specs.Differences.{rows_bytes};
ghost use Rattle.mls_differences.specs.Gets.{get_bytes};
ghost use Rattle.mls_differences.specs.Scoped.{IsSummed, SumsUp, TellsFound, TellsStarts, get_case, heads};
ghost use Rattle.mls_differences.specs.Scoped.{is_same, is_wanted_get, summary_of, wanted_gets};

use crate::breaking::is_wanted;
use crate::case::Case;
use crate::compared::with_rows;
use crate::count::Count;
use crate::counting::push_counts;
use crate::get_row::GetRow;
use crate::scope::Scope;
use crate::sections::Differences;
use crate::starts::{compare, listing};
use mls_lines::Names;
use mls_rows::{Form, Listing, Output};
use mls_start_file::Loaded;
use std::alloc::{AllocError, Global};

/// All differences, in a form.
fn all_written(
    alloc: Global,
    form: Form,
    words: (&str, &str),
    names: (&Names, &Names),
    found: &Differences,
) -> Result<Vec<u8>, AllocError>
    ensures { IfOk result (λ bytes. bytes.items ≡ rows_bytes form words.entry.0.now words.entry.1.now
        names.entry.0.now names.entry.1.now found.now) }
{
    let output = Output::new(alloc, form);
    let output = with_rows(alloc, output, words, names, &found.changes)?;
    let output = with_rows(alloc, output, words, names, &found.singles)?;
    let output = with_rows(alloc, output, words, names, &found.gets)?;
    Ok(output.into_bytes())
}

/// Gets, in a form.
fn gets_written(
    alloc: Global,
    form: Form,
    names: (&Names, &Names),
    gets: &[GetRow],
) -> Result<Vec<u8>, AllocError>
    ensures { IfOk result (λ bytes. bytes.items ≡ flat_map (get_bytes form names.entry.0.now) gets.now) }
{
    let output = Output::new(alloc, form);
    let output = with_rows(alloc, output, ("", ""), names, gets)?;
    Ok(output.into_bytes())
}

/// Rows of a summary, in a form.
fn counts_written(
    alloc: Global,
    form: Form,
    names: (&Names, &Names),
    rows: &[Count],
) -> Result<Vec<u8>, AllocError>
    ensures { IfOk result (λ bytes. bytes.items ≡ counts_bytes form names.entry.0.now rows.now) }
{
    let output = Output::new(alloc, form);
    let output = with_rows(alloc, output, ("", ""), names, rows)?;
    Ok(output.into_bytes())
}

/// Whether a get is asked for.
fn is_wanted_get(broken: bool, row: &GetRow) -> bool
    ensures { result ≡ is_wanted_get broken row.now }
{
    is_wanted(broken, &row.first, &row.second)
}

/// The gets that are asked for.
fn wanted_gets(alloc: Global, broken: bool, gets: &[GetRow]) -> Result<Vec<GetRow>, AllocError>
    ensures { IfOk result (λ found. found.items ≡ wanted_gets broken gets.now) }
{
    let mut found = Vec::new(alloc);
    for row in gets {
        if is_wanted_get(broken, row) {
            found.push(*row)?;
        }
    }
    Ok(found)
}

/// A get, as it is counted.
fn get_case(row: &GetRow) -> Case
    ensures { result ≡ get_case row.now }
{
    Case {
        subject: row.subject,
        first: row.first,
        second: row.second,
    }
}

/// Gets, as they are counted.
fn cases_of(alloc: Global, gets: &[GetRow]) -> Result<Vec<Case>, AllocError>
    ensures { IfOk result (λ cases. cases.items ≡ map get_case gets.now) }
{
    let mut cases = Vec::new(alloc);
    for row in gets {
        cases.push(get_case(row))?;
    }
    Ok(cases)
}

/// The first rows of a summary.
fn push_heads(
    rows: &mut Vec<Count>,
    broken: bool,
    changed: u64,
    gets: u64,
) -> Result<(), AllocError>
    ensures { OnOk result (rows.new.items ≡ rows.old.items ++ heads broken changed gets) }
{
    if !broken {
        rows.push(Count::Changes(changed))?;
    }
    rows.push(Count::Gets(gets))?;
    Ok(())
}

/// The rows of a summary.
fn summary_of(
    alloc: Global,
    broken: bool,
    changed: u64,
    gets: &[GetRow],
) -> Result<Vec<Count>, AllocError>
    ensures { IfOk result (λ rows. rows.items ≡ summary_of broken changed gets.now) }
{
    let cases = cases_of(alloc, gets)?;
    let mut rows = Vec::new(alloc);
    push_heads(&mut rows, broken, changed, gets.len() as u64)?;
    push_counts(alloc, &mut rows, &cases)?;
    Ok(rows)
}

/// Whether nothing differs: nothing else than gets, where that is asked for, and no get.
fn is_same(broken: bool, changed: u64, gets: u64) -> bool
    ensures { result ≡ is_same broken changed gets }
{
    if broken {
        gets == 0
    } else {
        changed == 0 && gets == 0
    }
}

/// Rows of a summary as an answer: a positive one where nothing differs.
///
/// # Errors
/// `AllocError` where an allocation failed.
pub fn summed(
    alloc: Global,
    form: Form,
    names: (&Names, &Names),
    same: bool,
    rows: &[Count],
) -> Result<Listing, AllocError>
    ensures { IfOk result (λ listing. IsSummed form names.entry.0.now same rows.now listing) }
{
    let bytes = counts_written(alloc, form, names, rows)?;
    Ok(Listing {
        bytes,
        is_positive: same,
    })
}

/// A summary of so much else that differs, and of these gets.
fn sum_up(
    alloc: Global,
    form: Form,
    names: (&Names, &Names),
    broken: bool,
    changed: u64,
    gets: &[GetRow],
) -> Result<Listing, AllocError>
    ensures { IfOk result (λ listing. SumsUp form names.entry.0.now broken changed gets.now listing) }
{
    let rows = summary_of(alloc, broken, changed, gets)?;
    let same = is_same(broken, changed, gets.len() as u64);
    let answer = summed(alloc, form, names, same, &rows);
    drop(rows);
    answer
}

/// The sum of two numbers.
///
/// # Errors
/// `AllocError` above the greatest number: memory for so many rows isn't there.
fn sum_of(count: u64, more: u64) -> Result<u64, AllocError>
    ensures { IfOk result (λ sum. sum ≡ count + more) }
{
    if count > u64::MAX - more {
        return Err(AllocError);
    }
    Ok(count + more)
}

/// A summary of differences, of what is asked for.
fn sum_found(
    alloc: Global,
    form: Form,
    names: (&Names, &Names),
    broken: bool,
    found: &Differences,
) -> Result<Listing, AllocError>
    ensures { IfOk result (λ listing. SumsUp form names.entry.0.now broken
        (length found.now.changes.items + length found.now.singles.items)
        (wanted_gets broken found.now.gets.items) listing) }
{
    let changed = sum_of(found.changes.len() as u64, found.singles.len() as u64)?;
    let gets = wanted_gets(alloc, broken, &found.gets)?;
    let answer = sum_up(alloc, form, names, broken, changed, &gets);
    drop(gets);
    answer
}

/// The gets that the second start breaks, as an answer.
fn list_broken(
    alloc: Global,
    form: Form,
    names: (&Names, &Names),
    found: &Differences,
) -> Result<Vec<u8>, AllocError>
    ensures { IfOk result (λ bytes. bytes.items
        ≡ flat_map (get_bytes form names.entry.0.now) (wanted_gets true found.now.gets.items)) }
{
    let gets = wanted_gets(alloc, true, &found.gets)?;
    let bytes = gets_written(alloc, form, names, &gets);
    drop(gets);
    bytes
}

/// What is asked for of differences.
fn tell_found(
    alloc: Global,
    form: Form,
    words: (&str, &str),
    names: (&Names, &Names),
    scope: Scope,
    found: &Differences,
) -> Result<Listing, AllocError>
    ensures { IfOk result (λ listing. TellsFound scope form words.entry.0.now words.entry.1.now
        names.entry.0.now names.entry.1.now found.now listing) }
{
    if scope.summary {
        return sum_found(alloc, form, names, scope.broken, found);
    }
    if scope.broken {
        return Ok(listing(list_broken(alloc, form, names, found)?));
    }
    Ok(listing(all_written(alloc, form, words, names, found)?))
}

/// How the second of two starts differs from the first, in a form, of what is asked for: what both have, but otherwise;
/// what only one of them has; and the gets, of subjects and objects that both have, that the two openings answer
/// otherwise; or only the gets that the first grants and the second doesn't; or how much that is. Files of these words
/// say the starts. The answer is positive where there is nothing of it.
///
/// # Errors
/// `AllocError` where an allocation failed.
pub fn compare_starts(
    alloc: Global,
    form: Form,
    words: (&str, &str),
    first: &Loaded,
    second: &Loaded,
    scope: Scope,
) -> Result<Listing, AllocError>
    ensures { IfOk result (λ listing.
        TellsStarts scope form words.entry.0.now words.entry.1.now first.now second.now listing) }
{
    let found = compare(alloc, first, second)?;
    let names = (first.names(), second.names());
    let answer = tell_found(alloc, form, words, names, scope, &found);
    drop(found);
    answer
}
