//! Entries that a second start answers otherwise, as rows.
ghost use Rattle.std.specs.Prelude.{◌≡◌, ◌++◌, codes, string_bytes, OnOk};
ghost use Rattle.mls_rows.specs.Members.{Adds, number_member};
ghost use Rattle.mls_compare.specs.Entries.{entry_line, entry_members, entry_text};
ghost use Rattle.mls_differences.specs.Things.{difference_member};

use json::Writer;
use mls_differences::{Compared, push_replies, write_difference, write_replies};
use mls_lines::Names;
use mls_requests::{Entry, Reply};
use mls_rows::write_number;
use mls_shared_rows::write_asked;
use mls_wording::{push_number, push_request};
use std::alloc::{AllocError, Global};

/// An entry, and the other reply that a second start gives to its request.
#[derive(Clone, Copy)]
pub(crate) struct EntryRow {
    pub entry: Entry,
    pub second: Reply,
}

/// Appends what a line says of an entry before the replies: its number and its request.
fn push_entry(text: &mut String, names: &Names, entry: &Entry) -> Result<(), AllocError>
    ensures { OnOk result (string_bytes text.new ≡ string_bytes text.old ++ entry_text names.now entry.now) }
{
    text.push_str("entry ")?;
    push_number(text, entry.number)?;
    text.push_str(" ")?;
    push_request(text, names, &entry.request)
}

/// Writes that it is an entry.
fn write_kind(writer: &mut Writer) -> Result<(), AllocError>
    ensures { Adds result writer.old writer.new (difference_member (codes "entry")) }
{
    write_difference(writer, "entry")
}

/// Writes the number of an entry.
fn write_place(writer: &mut Writer, number: u64) -> Result<(), AllocError>
    ensures { Adds result writer.old writer.new (number_member (codes "number") number) }
{
    write_number(writer, "number", number)
}

impl Compared for EntryRow {
    ghost line = { λ file other a b row. entry_line a row };

    ghost members = { λ a b row. entry_members a row };

    fn push_line(
        &self,
        _alloc: Global,
        text: &mut String,
        _words: (&str, &str),
        names: (&Names, &Names),
    ) -> Result<(), AllocError> {
        push_entry(text, names.0, &self.entry)?;
        push_replies(text, self.entry.reply, self.second)
    }

    fn write_members(
        &self,
        alloc: Global,
        writer: &mut Writer,
        names: (&Names, &Names),
    ) -> Result<(), AllocError> {
        write_kind(writer)?;
        write_place(writer, self.entry.number)?;
        write_asked(alloc, writer, names.0, &self.entry.request)?;
        write_replies(writer, &self.entry.reply, &self.second)
    }
}
