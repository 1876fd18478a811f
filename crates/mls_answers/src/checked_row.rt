//! The row of a start that is checked.
ghost use Rattle.std.specs.Prelude.{◌≡◌, ◌++◌, codes, string_bytes, OnOk};
ghost use Rattle.mls_replay.specs.Checked.{access_line, count_line, counts_text};
ghost use Rattle.mls_rows.specs.Members.{Adds, number_member, two_members};
ghost use Rattle.mls_shared_rows.specs.StateRows.{truth_member};
ghost use Rattle.mls_answers.specs.Checking.{access_member, check_line, check_members, secure_line};

use json::Writer;
use mls_rows::{Plain, write_number, write_two};
use mls_wording::push_number;
use std::alloc::AllocError;

/// How many subjects, objects, cells and accesses a start has, and whether it opens secure.
#[derive(Clone, Copy)]
pub(crate) struct CheckedRow {
    pub subjects: u64,
    pub objects: u64,
    pub cells: u64,
    pub accesses: u64,
    pub secure: bool,
}

/// Appends a line with a word and a number.
fn push_count(text: &mut String, word: &str, count: u64) -> Result<(), AllocError>
    ensures { OnOk result (string_bytes text.new ≡ string_bytes text.old ++ count_line word.now count) }
{
    text.push_str(word)?;
    push_number(text, count)?;
    text.push_str("\n")
}

/// Appends the line that tells how many accesses there are, where there are any.
fn push_accesses(text: &mut String, count: u64) -> Result<(), AllocError>
    ensures { OnOk result (string_bytes text.new ≡ string_bytes text.old ++ access_line count) }
{
    if count == 0 {
        return Ok(());
    }
    push_count(text, "accesses ", count)
}

/// Appends the lines that tell how many subjects, objects, cells and accesses there are.
fn push_counts(text: &mut String, row: &CheckedRow) -> Result<(), AllocError>
    ensures { OnOk result (string_bytes text.new ≡ string_bytes text.old
        ++ counts_text row.now.subjects row.now.objects row.now.cells row.now.accesses) }
{
    push_count(text, "subjects ", row.subjects)?;
    push_count(text, "objects ", row.objects)?;
    push_count(text, "cells ", row.cells)?;
    push_accesses(text, row.accesses)
}

/// The line that tells whether a start opens secure.
fn secure_line(secure: bool) -> &'static str
    ensures { result.now ≡ secure_line secure }
{
    if secure {
        "secure yes\n"
    } else {
        "secure no\n"
    }
}

/// Writes how many subjects and objects there are.
fn write_things(writer: &mut Writer, counts: (u64, u64)) -> Result<(), AllocError>
    ensures { Adds result writer.old writer.new
        (two_members (codes "subjects") (codes "objects") counts.0 counts.1) }
{
    write_two(writer, ("subjects", "objects"), counts)
}

/// Writes how many cells there are.
fn write_cells(writer: &mut Writer, count: u64) -> Result<(), AllocError>
    ensures { Adds result writer.old writer.new (number_member (codes "cells") count) }
{
    write_number(writer, "cells", count)
}

/// Writes how many accesses there are.
fn write_count(writer: &mut Writer, count: u64) -> Result<(), AllocError>
    ensures { Adds result writer.old writer.new (number_member (codes "accesses") count) }
{
    write_number(writer, "accesses", count)
}

/// Writes how many accesses there are, where there are any.
fn write_accesses(writer: &mut Writer, count: u64) -> Result<(), AllocError>
    ensures { Adds result writer.old writer.new (access_member count) }
{
    if count == 0 {
        return Ok(());
    }
    write_count(writer, count)
}

/// Writes whether a start opens secure.
fn write_secure(writer: &mut Writer, secure: bool) -> Result<(), AllocError>
    ensures { Adds result writer.old writer.new (truth_member (codes "secure") secure) }
{
    writer.key("secure")?;
    writer.boolean(secure)
}

impl Plain for CheckedRow {
    ghost line = { λ r. check_line r.subjects r.objects r.cells r.accesses r.secure };

    ghost members = { λ r. check_members r.subjects r.objects r.cells r.accesses r.secure };

    fn push_line(&self, text: &mut String) -> Result<(), AllocError> {
        push_counts(text, self)?;
        text.push_str(secure_line(self.secure))
    }

    fn write_members(&self, writer: &mut Writer) -> Result<(), AllocError> {
        write_things(writer, (self.subjects, self.objects))?;
        write_cells(writer, self.cells)?;
        write_accesses(writer, self.accesses)?;
        write_secure(writer, self.secure)
    }
}
