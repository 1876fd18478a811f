//! The members of the entries that spans begin and end with.
ghost use Rattle.std.specs.Prelude.{◌≡◌, codes};
ghost use Rattle.mls_rows.specs.Members.{Adds, null_member, text_member};
ghost use Rattle.mls_rows.specs.Times.{rows_lent};
ghost use Rattle.mls_requests.specs.ActionWords.{action_word};
ghost use Rattle.mls_spans.specs.Members.{begin_members, end_members, ended_members};

use crate::span::Ending;
use json::Writer;
use mls_marks::Marks;
use mls_requests::ActionWord;
use mls_rows::{write_entry, write_null, write_text};
use std::alloc::AllocError;

/// Writes the entry that a span begins with; null of the start.
pub(crate) fn write_begin(
    writer: &mut Writer,
    marks: Option<&Marks>,
    begin: Option<u64>,
) -> Result<(), AllocError>
    ensures { Adds result writer.old writer.new (begin_members (rows_lent marks.entry) begin) }
{
    write_entry(writer, ("begin", "begin_time"), marks, begin)
}

/// Writes the entry that a span ends with; null where there is none.
pub(crate) fn write_end(
    writer: &mut Writer,
    marks: Option<&Marks>,
    end: Option<u64>,
) -> Result<(), AllocError>
    ensures { Adds result writer.old writer.new (end_members (rows_lent marks.entry) end) }
{
    write_entry(writer, ("end", "end_time"), marks, end)
}

/// Writes the word of the entry that ended an access.
fn write_by(writer: &mut Writer, word: ActionWord) -> Result<(), AllocError>
    ensures { Adds result writer.old writer.new (text_member (codes "by") (action_word word)) }
{
    write_text(writer, "by", word.word())
}

/// Writes that no entry ended an access.
fn write_by_none(writer: &mut Writer) -> Result<(), AllocError>
    ensures { Adds result writer.old writer.new (null_member (codes "by")) }
{
    write_null(writer, "by")
}

/// Writes the entry that ended an access, and its word; null where it is held on.
pub(crate) fn write_ended(
    writer: &mut Writer,
    marks: Option<&Marks>,
    ended: &Option<Ending>,
) -> Result<(), AllocError>
    ensures { Adds result writer.old writer.new (ended_members (rows_lent marks.entry) ended.now) }
{
    match ended {
        Some(ending) => {
            write_end(writer, marks, Some(ending.number))?;
            write_by(writer, ending.word)
        }
        None => {
            write_end(writer, marks, None)?;
            write_by_none(writer)
        }
    }
}
