//! The lines of the states in which gets would be granted.
ghost use Rattle.std.specs.Prelude.{◌≡◌, ◌++◌, string_bytes, OnOk};
ghost use Rattle.std.specs.List.{flat_map};
ghost use Rattle.mls_rows.specs.Times.{rows_lent};
ghost use Rattle.mls_spans.specs.EverLines.{closed_text, ever_line, next_text, window_text, windows_text};

use crate::entry_text::{push_begin, push_entry};
use crate::window::Window;
use mls_lines::Names;
use mls_marks::Marks;
use mls_requests::mode_word;
use mls_tables::{Mode, ObjectId, SubjectId};
use mls_wording::push_subject;
use std::alloc::AllocError;

/// Appends the entry up to which a get would be granted, or that it would be on.
fn push_closed(
    text: &mut String,
    marks: Option<&Marks>,
    closed: Option<u64>,
) -> Result<(), AllocError>
    ensures { OnOk result (string_bytes text.new
        ≡ string_bytes text.old ++ closed_text (rows_lent marks.entry) closed) }
{
    let Some(number) = closed else {
        return text.push_str(" on");
    };
    text.push_str(" to ")?;
    push_entry(text, marks, number)
}

/// Appends a span.
pub(crate) fn push_window(
    text: &mut String,
    marks: Option<&Marks>,
    window: &Window,
) -> Result<(), AllocError>
    ensures { OnOk result (string_bytes text.new
        ≡ string_bytes text.old ++ window_text (rows_lent marks.entry) window.now) }
{
    push_begin(text, marks, window.opened)?;
    push_closed(text, marks, window.closed)
}

/// Appends spans behind others.
fn push_rest(text: &mut String, marks: Option<&Marks>, windows: &[Window]) -> Result<(), AllocError>
    ensures { OnOk result (string_bytes text.new
        ≡ string_bytes text.old ++ flat_map (next_text (rows_lent marks.entry)) windows.now) }
{
    for window in windows {
        text.push_str(", ")?;
        push_window(text, marks, window)?;
    }
    Ok(())
}

/// Appends spans, or that there is none.
fn push_windows(
    text: &mut String,
    marks: Option<&Marks>,
    windows: &[Window],
) -> Result<(), AllocError>
    ensures { OnOk result (string_bytes text.new
        ≡ string_bytes text.old ++ windows_text (rows_lent marks.entry) windows.now) }
{
    match windows.split_first() {
        Some((first, rest)) => {
            push_window(text, marks, first)?;
            push_rest(text, marks, rest)
        }
        None => text.push_str("in no state"),
    }
}

/// Appends the line of an access and the spans in which its get would be granted.
pub(crate) fn push_ever(
    text: &mut String,
    names: &Names,
    marks: Option<&Marks>,
    access: &(SubjectId, ObjectId, Mode),
    windows: &[Window],
) -> Result<(), AllocError>
    ensures { OnOk result (string_bytes text.new
        ≡ string_bytes text.old ++ ever_line names.now (rows_lent marks.entry) access.now windows.now) }
{
    let (s, _o, x) = access;
    push_subject(text, names, *s)?;
    text.push_str(" ")?;
    text.push_str(mode_word(*x))?;
    text.push_str(": ")?;
    push_windows(text, marks, windows)?;
    text.push_str("\n")
}
