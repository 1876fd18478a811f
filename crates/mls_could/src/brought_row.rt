//! Rows of what untrusted subjects could bring about.
ghost use Rattle.std.specs.Prelude.{◌≡◌, ◌++◌, string_bytes, OnOk};
ghost use Rattle.mls_could.specs.Brought.{access_text, brought_line, brought_members, could_member, more_line};
ghost use Rattle.mls_could.specs.Brought.{more_members};
ghost use Rattle.mls_rows.specs.Members.{Adds};

use json::Writer;
use mls_lines::Names;
use mls_marks::Marks;
use mls_requests::mode_word;
use mls_rows::{Told, write_access, write_number, write_text};
use mls_tables::{Mode, ObjectId, SubjectId};
use mls_wording::{push_number, push_object, push_subject};
use std::alloc::AllocError;

/// An access that untrusted subjects could bring about, as a row of an answer.
#[derive(Clone, Copy)]
pub(crate) struct BroughtRow {
    pub access: (SubjectId, ObjectId, Mode),
}

/// How many accesses there are beyond those that have a row, as one.
#[derive(Clone, Copy)]
pub(crate) struct MoreRow {
    pub more: u64,
}

/// Appends an access: its subject, its mode and its object.
fn push_access(
    text: &mut String,
    names: &Names,
    access: (SubjectId, ObjectId, Mode),
) -> Result<(), AllocError>
    ensures { OnOk result (string_bytes text.new ≡ string_bytes text.old ++ access_text names.now access) }
{
    let (s, o, x) = access;
    push_subject(text, names, s)?;
    text.push_str(" ")?;
    text.push_str(mode_word(x))?;
    text.push_str(" ")?;
    push_object(text, names, o)
}

/// Writes which finding it is.
fn write_could(writer: &mut Writer) -> Result<(), AllocError>
    ensures { Adds result writer.old writer.new could_member }
{
    write_text(writer, "finding", "could")
}

impl Told for BroughtRow {
    ghost line = { λ names marks r. brought_line names r.access };

    ghost members = { λ names marks r. brought_members names r.access };

    fn push_line(
        &self,
        text: &mut String,
        names: &Names,
        _marks: Option<&Marks>,
    ) -> Result<(), AllocError> {
        text.push_str("could: ")?;
        push_access(text, names, self.access)?;
        text.push_str(", by untrusted subjects\n")
    }

    fn write_members(
        &self,
        writer: &mut Writer,
        names: &Names,
        _marks: Option<&Marks>,
    ) -> Result<(), AllocError> {
        write_could(writer)?;
        write_access(writer, names, self.access)
    }
}

impl Told for MoreRow {
    ghost line = { λ names marks r. more_line r.more };

    ghost members = { λ names marks r. more_members r.more };

    fn push_line(
        &self,
        text: &mut String,
        _names: &Names,
        _marks: Option<&Marks>,
    ) -> Result<(), AllocError> {
        text.push_str("could: ")?;
        push_number(text, self.more)?;
        text.push_str(" more, by untrusted subjects\n")
    }

    fn write_members(
        &self,
        writer: &mut Writer,
        _names: &Names,
        _marks: Option<&Marks>,
    ) -> Result<(), AllocError> {
        write_could(writer)?;
        write_number(writer, "more", self.more)
    }
}
