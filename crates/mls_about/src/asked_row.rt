//! The row of what a subject asked.
ghost use Rattle.std.specs.Prelude.{◌≡◌, ◌++◌, codes, string_bytes, OnOk};
ghost use Rattle.mls_rows.specs.Members.{Adds, two_members};
ghost use Rattle.mls_rows.specs.Times.{entry_members, rows_lent};
ghost use Rattle.mls_about.specs.Counting.{counts_line, counts_members, entries_words, last_text};

use json::Writer;
use mls_lines::Names;
use mls_marks::Marks;
use mls_rows::{Told, write_entry, write_two};
use mls_spans::push_entry;
use mls_wording::push_number;
use std::alloc::AllocError;

/// How many entries a subject asked, how many of these were denied, and the number of the last.
#[derive(Clone, Copy)]
pub(crate) struct AskedRow {
    pub asked: u64,
    pub denied: u64,
    pub last: Option<u64>,
}

/// The words behind a number of entries.
fn entries_words(count: u64) -> &'static str
    ensures { result.now ≡ entries_words count }
{
    if count == 1 { " entry, " } else { " entries, " }
}

/// Appends the last entry, where there is one.
fn push_last(text: &mut String, marks: Option<&Marks>, last: Option<u64>) -> Result<(), AllocError>
    ensures { OnOk result
        (string_bytes text.new ≡ string_bytes text.old ++ last_text (rows_lent marks.entry) last) }
{
    let Some(number) = last else {
        return Ok(());
    };
    text.push_str(", last ")?;
    push_entry(text, marks, number)
}

/// Appends how many entries there are and how many of them denied, and which was the last.
fn push_counts(
    text: &mut String,
    marks: Option<&Marks>,
    asked: u64,
    denied: u64,
    last: Option<u64>,
) -> Result<(), AllocError>
    ensures { OnOk result (string_bytes text.new
        ≡ string_bytes text.old ++ counts_line (rows_lent marks.entry) asked denied last) }
{
    push_number(text, asked)?;
    text.push_str(entries_words(asked))?;
    push_number(text, denied)?;
    text.push_str(" denied")?;
    push_last(text, marks, last)?;
    text.push_str("\n")
}

/// Writes how many entries there are, and how many of them denied.
fn write_counts(writer: &mut Writer, counts: (u64, u64)) -> Result<(), AllocError>
    ensures { Adds result writer.old writer.new
        (two_members (codes "entries") (codes "denied") counts.0 counts.1) }
{
    write_two(writer, ("entries", "denied"), counts)
}

/// Writes which entry was the last; null where there is none.
fn write_last(
    writer: &mut Writer,
    marks: Option<&Marks>,
    last: Option<u64>,
) -> Result<(), AllocError>
    ensures { Adds result writer.old writer.new
        (entry_members (codes "last") (codes "last_time") (rows_lent marks.entry) last) }
{
    write_entry(writer, ("last", "last_time"), marks, last)
}

impl Told for AskedRow {
    ghost line = { λ names marks r. counts_line marks r.asked r.denied r.last };

    ghost members = { λ names marks r. counts_members marks r.asked r.denied r.last };

    fn push_line(
        &self,
        text: &mut String,
        _names: &Names,
        marks: Option<&Marks>,
    ) -> Result<(), AllocError> {
        push_counts(text, marks, self.asked, self.denied, self.last)
    }

    fn write_members(
        &self,
        writer: &mut Writer,
        _names: &Names,
        marks: Option<&Marks>,
    ) -> Result<(), AllocError> {
        write_counts(writer, (self.asked, self.denied))?;
        write_last(writer, marks, self.last)
    }
}
