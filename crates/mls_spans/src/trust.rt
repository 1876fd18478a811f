//! The use of trust in a subject, as a row.
ghost use Rattle.std.specs.Prelude.{◌≡◌, ◌++◌, codes, string_bytes, OnOk};
ghost use Rattle.mls_rows.specs.Members.{Adds, number_member};
ghost use Rattle.mls_rows.specs.Times.{entry_members, rows_lent};
ghost use Rattle.mls_spans.specs.Trust.{count_text, trust_line, trust_members};

use crate::entry_text::push_entry;
use json::Writer;
use mls_lines::Names;
use mls_marks::Marks;
use mls_rows::{Told, write_entry, write_number, write_subject};
use mls_tables::SubjectId;
use mls_wording::{push_number, push_subject};
use std::alloc::AllocError;

/// How often trust granted what a subject asked: what would not have been granted if the subject were not trusted.
#[derive(Clone, Copy, Debug)]
pub struct TrustUse {
    pub subject: SubjectId,
    pub count: u64,
    /// The number of the last such entry.
    pub last: Option<u64>,
}

/// Appends how often trust was used, and last when.
fn push_count(
    text: &mut String,
    marks: Option<&Marks>,
    count: u64,
    last: Option<u64>,
) -> Result<(), AllocError>
    ensures { OnOk result (string_bytes text.new
        ≡ string_bytes text.old ++ count_text (rows_lent marks.entry) count last) }
{
    match last {
        Some(number) => {
            push_number(text, count)?;
            text.push_str(" granted, last ")?;
            push_entry(text, marks, number)
        }
        None => text.push_str("never used"),
    }
}

/// Writes how often trust was used.
fn write_count(writer: &mut Writer, count: u64) -> Result<(), AllocError>
    ensures { Adds result writer.old writer.new (number_member (codes "by_trust") count) }
{
    write_number(writer, "by_trust", count)
}

/// Writes the last use.
fn write_last(
    writer: &mut Writer,
    marks: Option<&Marks>,
    last: Option<u64>,
) -> Result<(), AllocError>
    ensures { Adds result writer.old writer.new
        (entry_members (codes "last") (codes "last_time") (rows_lent marks.entry) last) }
{
    write_entry(writer, ("last", "last_time"), marks, last)
}

impl Told for TrustUse {
    ghost line = { trust_line };

    ghost members = { trust_members };

    fn push_line(
        &self,
        text: &mut String,
        names: &Names,
        marks: Option<&Marks>,
    ) -> Result<(), AllocError> {
        push_subject(text, names, self.subject)?;
        text.push_str(" trust: ")?;
        push_count(text, marks, self.count, self.last)?;
        text.push_str("\n")
    }

    fn write_members(
        &self,
        writer: &mut Writer,
        names: &Names,
        marks: Option<&Marks>,
    ) -> Result<(), AllocError> {
        write_subject(writer, names, self.subject)?;
        write_count(writer, self.count)?;
        write_last(writer, marks, self.last)
    }
}
