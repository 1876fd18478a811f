//! An entry, as a span begins or ends with it: its number, and its time.
ghost use Rattle.std.specs.Prelude.{◌≡◌, ◌++◌, string_bytes, codes, OnOk};
ghost use Rattle.mls_rows.specs.Times.{rows_lent};
ghost use Rattle.mls_spans.specs.EntryText.{begin_text, entry_text, mark_text};

use mls_marks::{Marks, Time};
use mls_rows::time_of;
use mls_wording::push_number;
use std::alloc::AllocError;
use std::str;

/// Appends a time behind an entry's number: ` [TIME]`.
fn push_time(text: &mut String, time: &Time) -> Result<(), AllocError>
    ensures { OnOk result (string_bytes text.new
        ≡ string_bytes text.old ++ codes " [" ++ time.now ++ codes "]") }
{
    let Ok(word) = str::from_utf8(time.text()) else {
        return Err(AllocError);
    };
    text.push_str(" [")?;
    text.push_str(word)?;
    text.push_str("]")
}

/// Appends what marks tell of the time of an entry, where there are marks.
fn push_mark(text: &mut String, marks: Option<&Marks>, number: u64) -> Result<(), AllocError>
    ensures { OnOk result (string_bytes text.new
        ≡ string_bytes text.old ++ mark_text (rows_lent marks.entry) number) }
{
    let Some(marks) = marks else {
        return Ok(());
    };
    match time_of(marks, number) {
        Some(time) => push_time(text, &time),
        None => text.push_str(" [-]"),
    }
}

/// Appends the number of an entry, and its time where times are told: `N [TIME]`.
///
/// # Errors
/// `AllocError` where an allocation failed. The text may then have a part of it.
pub fn push_entry(text: &mut String, marks: Option<&Marks>, number: u64) -> Result<(), AllocError>
    ensures { OnOk result (string_bytes text.new
        ≡ string_bytes text.old ++ entry_text (rows_lent marks.entry) number) }
{
    push_number(text, number)?;
    push_mark(text, marks, number)
}

/// Appends the entry that a span begins with, or `start`.
pub(crate) fn push_begin(
    text: &mut String,
    marks: Option<&Marks>,
    begin: Option<u64>,
) -> Result<(), AllocError>
    ensures { OnOk result (string_bytes text.new
        ≡ string_bytes text.old ++ begin_text (rows_lent marks.entry) begin) }
{
    match begin {
        Some(number) => push_entry(text, marks, number),
        None => text.push_str("start"),
    }
}
