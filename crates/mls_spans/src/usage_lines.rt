//! The lines of permissions and of how they were used.
ghost use Rattle.std.specs.Prelude.{◌≡◌, ◌++◌, string_bytes, OnOk};
ghost use Rattle.mls_rows.specs.Times.{rows_lent};
ghost use Rattle.mls_spans.specs.UsageLines.{counts_text, ending_text, held_text, permissions_words};
ghost use Rattle.mls_spans.specs.UsageLines.{usage_line, uses_text};

use crate::entry_text::push_entry;
use crate::held_lines::push_access;
use crate::usage::Usage;
use crate::uses::Uses;
use mls_lines::Names;
use mls_marks::Marks;
use mls_wording::push_number;
use std::alloc::AllocError;

/// Appends how many were granted and denied: `N granted, N denied, last `.
fn push_counts(text: &mut String, uses: &Uses) -> Result<(), AllocError>
    ensures { OnOk result (string_bytes text.new ≡ string_bytes text.old ++ counts_text uses.now) }
{
    push_number(text, uses.granted)?;
    text.push_str(" granted, ")?;
    push_number(text, uses.denied)?;
    text.push_str(" denied, last ")?;
    Ok(())
}

/// What is said of an access that the first state has.
fn held_text(is_held: bool) -> &'static str
    ensures { result.now ≡ held_text is_held }
{
    if is_held { ", held at start" } else { "" }
}

/// Appends how a permission was used.
fn push_uses(text: &mut String, marks: Option<&Marks>, usage: &Usage) -> Result<(), AllocError>
    ensures { OnOk result (string_bytes text.new ≡ string_bytes text.old
        ++ uses_text (rows_lent marks.entry) usage.now.is_held usage.now.uses usage.now.uses.last) }
{
    match (usage.uses.last, usage.is_held) {
        (Some(number), is_held) => {
            push_counts(text, &usage.uses)?;
            push_entry(text, marks, number)?;
            text.push_str(held_text(is_held))?;
        }
        (None, true) => {
            push_counts(text, &usage.uses)?;
            text.push_str("start")?;
        }
        (None, false) => text.push_str("never asked")?,
    }
    Ok(())
}

/// Appends the line of a permission.
pub(crate) fn push_usage(
    text: &mut String,
    names: &Names,
    marks: Option<&Marks>,
    usage: &Usage,
) -> Result<(), AllocError>
    ensures { OnOk result (string_bytes text.new
        ≡ string_bytes text.old ++ usage_line names.now (rows_lent marks.entry) usage.now) }
{
    push_access(text, names, usage.access)?;
    text.push_str(": ")?;
    push_uses(text, marks, usage)?;
    text.push_str("\n")?;
    Ok(())
}

/// The words behind a number of permissions.
fn permissions_words(count: u64) -> &'static str
    ensures { result.now ≡ permissions_words count }
{
    if count == 1 {
        " permission, "
    } else {
        " permissions, "
    }
}

/// Appends how many permissions there are, and how many of them were never granted.
///
/// # Errors
/// `AllocError` where an allocation failed. The text may then have a part of it.
pub fn push_ending(text: &mut String, count: u64, unused: u64) -> Result<(), AllocError>
    ensures { OnOk result (string_bytes text.new ≡ string_bytes text.old ++ ending_text count unused) }
{
    push_number(text, count)?;
    text.push_str(permissions_words(count))?;
    push_number(text, unused)?;
    text.push_str(" never granted\n")?;
    Ok(())
}
