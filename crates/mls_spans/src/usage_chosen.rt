//! The permissions that are asked for, and how those were used.
ghost use Rattle.std.specs.Prelude.{◌≡◌, ◌++◌, filter, IfOk};
ghost use Rattle.mls_rows.specs.Times.{rows_lent};
ghost use Rattle.mls_spans.specs.UsageChosen.{IsUsageOf, chosen, chosen_seen, is_of, shown};
ghost use Rattle.mls_spans.specs.UsageLines.{ending_row, usages_bytes};
ghost use Rattle.mls_spans.specs.Uses.{is_unused};

use crate::choosing::{Choice, is_about};
use crate::states::States;
use crate::usage::Usage;
use crate::usage_rows::{Counted, count_unused};
use crate::using::usages_of;
use mls_lines::Names;
use mls_marks::Marks;
use mls_replay::TextReplay;
use mls_rows::{Form, Listing, written};
use std::alloc::{AllocError, Global};

/// Whether a permission is asked for.
fn is_of(choice: &Choice, usage: &Usage) -> bool
    ensures { result ≡ is_of choice.now usage.now }
{
    is_about(choice, usage.access)
}

/// Those of some permissions that are asked for.
fn chosen(alloc: Global, choice: &Choice, usages: &[Usage]) -> Result<Vec<Usage>, AllocError>
    ensures { IfOk result (λ found. found.items ≡ chosen choice.now usages.now) }
{
    let mut found = Vec::new(alloc);
    for usage in usages {
        if is_of(choice, usage) {
            found.push(*usage)?;
        }
    }
    Ok(found)
}

/// Those of some permissions that were never granted.
///
/// # Errors
/// `AllocError` where an allocation failed.
pub fn unused_of(alloc: Global, usages: &[Usage]) -> Result<Vec<Usage>, AllocError>
    ensures { IfOk result (λ found. found.items ≡ filter is_unused usages.now) }
{
    let mut found = Vec::new(alloc);
    for usage in usages {
        if usage.is_unused() {
            found.push(*usage)?;
        }
    }
    Ok(found)
}

/// How the permissions of some states of a replay were used, of those that are asked for. The replay looks at the first
/// of the states.
///
/// # Errors
/// `AllocError` where an allocation failed.
pub fn chosen_usages(
    alloc: Global,
    replay: &TextReplay,
    choice: &Choice,
    states: States,
) -> Result<Vec<Usage>, AllocError>
    ensures { IfOk result (λ found. found.items ≡ chosen_seen replay.now choice.now states) }
{
    let usages = usages_of(alloc, replay, states)?;
    let found = chosen(alloc, choice, &usages);
    drop(usages);
    found
}

/// Permissions in a form, with times where there are marks, and how many these and those never granted are said to be.
fn rows_written(
    alloc: Global,
    form: Form,
    names: &Names,
    marks: Option<&Marks>,
    usages: &[Usage],
    counted: Counted,
) -> Result<Vec<u8>, AllocError>
    ensures { IfOk result (λ bytes. bytes.items ≡ usages_bytes form names.now (rows_lent marks.entry) usages.now
        ++ ending_row form counted.count counted.unused) }
{
    let output = written(alloc, form, names, marks, usages)?;
    let output = output.with_plain(&counted)?;
    Ok(output.into_bytes())
}

/// The same, of all permissions or of those that were never granted.
fn shown_written(
    alloc: Global,
    form: Form,
    names: &Names,
    marks: Option<&Marks>,
    usages: &[Usage],
    never: bool,
    counted: Counted,
) -> Result<Vec<u8>, AllocError>
    ensures { IfOk result (λ bytes. bytes.items
        ≡ usages_bytes form names.now (rows_lent marks.entry) (shown never usages.now)
        ++ ending_row form counted.count counted.unused) }
{
    if !never {
        return rows_written(alloc, form, names, marks, usages, counted);
    }
    let unused = unused_of(alloc, usages)?;
    let bytes = rows_written(alloc, form, names, marks, &unused, counted);
    drop(unused);
    bytes
}

/// The answer that lists permissions, or those of them that were never granted.
fn list_shown(
    alloc: Global,
    form: Form,
    names: &Names,
    marks: Option<&Marks>,
    usages: &[Usage],
    never: bool,
) -> Result<Listing, AllocError>
    ensures { IfOk result (λ listing. IsUsageOf form names.now (rows_lent marks.entry) never usages.now listing) }
{
    let unused = count_unused(usages);
    let count = usages.len() as u64;
    let counted = Counted { count, unused };
    let bytes = shown_written(alloc, form, names, marks, usages, never, counted)?;
    Ok(Listing {
        bytes,
        is_positive: unused == 0,
    })
}

/// How the permissions of some states of a replay were used that are asked for, by these names, a row each in this
/// form, as [`list_usage`](crate::list_usage) has it; where only those are wanted that were never granted, no others
/// have rows. The last row counts all that are asked for. The replay looks at the first of the states. The answer is a
/// positive one where each permission was granted that is asked for.
///
/// # Errors
/// `AllocError` where an allocation failed.
pub fn list_usage_of(
    alloc: Global,
    form: Form,
    names: &Names,
    replay: &TextReplay,
    marks: Option<&Marks>,
    choice: &Choice,
    states: States,
    never: bool,
) -> Result<Listing, AllocError>
    ensures { IfOk result (λ listing. IsUsageOf form names.now (rows_lent marks.entry) never
        (chosen_seen replay.now choice.now states) listing) }
{
    let usages = chosen_usages(alloc, replay, choice, states)?;
    let listing = list_shown(alloc, form, names, marks, &usages, never);
    drop(usages);
    listing
}
