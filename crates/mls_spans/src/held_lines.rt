//! The lines of spans in which an access is held.
ghost use Rattle.std.specs.Prelude.{◌≡◌, ◌++◌, string_bytes, OnOk};
ghost use Rattle.mls_rows.specs.Times.{rows_lent};
ghost use Rattle.mls_spans.specs.Lines.{access_text, end_text, extent_text, span_line};

use crate::entry_text::{push_begin, push_entry};
use crate::span::{Ending, Span};
use mls_lines::Names;
use mls_marks::Marks;
use mls_requests::mode_word;
use mls_tables::{Mode, ObjectId, SubjectId};
use mls_wording::{push_object, push_subject};
use std::alloc::AllocError;

/// Appends an access: `SUBJECT MODE OBJECT`.
///
/// # Errors
/// `AllocError` where an allocation failed. The text may then have a part of it.
pub fn push_access(
    text: &mut String,
    names: &Names,
    access: (SubjectId, ObjectId, Mode),
) -> Result<(), AllocError>
    ensures { OnOk result (string_bytes text.new ≡ string_bytes text.old ++ access_text names.now access) }
{
    let (s, o, x) = access;
    push_subject(text, names, s)?;
    text.push_str(" ")?;
    text.push_str(mode_word(x))?;
    text.push_str(" ")?;
    push_object(text, names, o)?;
    Ok(())
}

/// Appends the entry that ended an access and its word, or that it is held on.
fn push_end(
    text: &mut String,
    marks: Option<&Marks>,
    ended: &Option<Ending>,
) -> Result<(), AllocError>
    ensures { OnOk result (string_bytes text.new
        ≡ string_bytes text.old ++ end_text (rows_lent marks.entry) ended.now) }
{
    match ended {
        Some(ending) => {
            text.push_str(" to ")?;
            push_entry(text, marks, ending.number)?;
            text.push_str(", ")?;
            text.push_str(ending.word.word())?;
        }
        None => text.push_str(" on")?,
    }
    Ok(())
}

/// Appends from which entry to which a span goes: `FROM to TO, ACTION`, or `FROM on`.
///
/// # Errors
/// `AllocError` where an allocation failed. The text may then have a part of it.
pub fn push_extent(text: &mut String, marks: Option<&Marks>, span: &Span) -> Result<(), AllocError>
    ensures { OnOk result (string_bytes text.new
        ≡ string_bytes text.old ++ extent_text (rows_lent marks.entry) span.now) }
{
    push_begin(text, marks, span.made)?;
    push_end(text, marks, &span.ended)
}

/// Appends the line of a span.
pub(crate) fn push_span(
    text: &mut String,
    names: &Names,
    marks: Option<&Marks>,
    span: &Span,
) -> Result<(), AllocError>
    ensures { OnOk result (string_bytes text.new
        ≡ string_bytes text.old ++ span_line names.now (rows_lent marks.entry) span.now) }
{
    push_access(text, names, span.access)?;
    text.push_str(": ")?;
    push_extent(text, marks, span)?;
    text.push_str("\n")?;
    Ok(())
}
