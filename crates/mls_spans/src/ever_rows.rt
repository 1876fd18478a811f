//! Accesses and the spans in which their gets would be granted, as rows.
ghost use Rattle.std.specs.Prelude.{◌≡◌};
ghost use Rattle.mls_rows.specs.Members.{Adds};
ghost use Rattle.mls_rows.specs.Times.{rows_lent};
ghost use Rattle.mls_spans.specs.EverLines.{ever_line, window_text};
ghost use Rattle.mls_spans.specs.Members.{ever_members, window_members, windows_member};

use crate::edges::{write_begin, write_end};
use crate::ever_lines::{push_ever, push_window};
use crate::window::Window;
use json::Writer;
use mls_lines::Names;
use mls_marks::Marks;
use mls_rows::{Told, write_list, write_mode, write_subject};
use mls_tables::{Mode, ObjectId, SubjectId};
use std::alloc::AllocError;

/// An access of the object that is asked about, and the spans in which its get would be granted.
#[derive(Drop)]
pub(crate) struct EverRow {
    pub access: (SubjectId, ObjectId, Mode),
    pub windows: Vec<Window>,
}

impl Told for Window {
    ghost line = { λ names rows window. window_text rows window };

    ghost members = { λ names rows window. window_members rows window };

    fn push_line(
        &self,
        text: &mut String,
        _names: &Names,
        marks: Option<&Marks>,
    ) -> Result<(), AllocError> {
        push_window(text, marks, self)
    }

    fn write_members(
        &self,
        writer: &mut Writer,
        _names: &Names,
        marks: Option<&Marks>,
    ) -> Result<(), AllocError> {
        write_begin(writer, marks, self.opened)?;
        write_end(writer, marks, self.closed)
    }
}

/// Writes the list of spans.
fn write_windows(
    writer: &mut Writer,
    names: &Names,
    marks: Option<&Marks>,
    windows: &[Window],
) -> Result<(), AllocError>
    ensures { Adds result writer.old writer.new (windows_member (rows_lent marks.entry) windows.now) }
{
    write_list(writer, "spans", names, marks, windows)
}

impl Told for EverRow {
    ghost line = { λ names rows row. ever_line names rows row.access row.windows.items };

    ghost members = { λ names rows row. ever_members names rows row.access row.windows.items };

    fn push_line(
        &self,
        text: &mut String,
        names: &Names,
        marks: Option<&Marks>,
    ) -> Result<(), AllocError> {
        push_ever(text, names, marks, &self.access, &self.windows)
    }

    fn write_members(
        &self,
        writer: &mut Writer,
        names: &Names,
        marks: Option<&Marks>,
    ) -> Result<(), AllocError> {
        let (s, _o, x) = self.access;
        write_subject(writer, names, s)?;
        write_mode(writer, x)?;
        write_windows(writer, names, marks, &self.windows)
    }
}
