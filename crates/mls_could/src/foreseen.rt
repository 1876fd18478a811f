//! Rows of what could come about.
ghost use Rattle.std.specs.Prelude.{◌≡◌};
ghost use Rattle.mls_could.specs.Words.{foreseen_line, foreseen_members};

use crate::future::Future;
use json::Writer;
use mls_lines::Names;
use mls_marks::Marks;
use mls_requests::mode_word;
use mls_rows::{Told, write_mode, write_subject, write_text};
use mls_tables::{Mode, SubjectId};
use mls_wording::push_subject;
use std::alloc::AllocError;

/// What becomes of a subject's access to an object, as a row of an answer.
#[derive(Clone, Copy, Debug)]
pub struct Foreseen {
    pub subject: SubjectId,
    pub mode: Mode,
    pub future: Future,
}

impl Told for Foreseen {
    ghost line = { λ names marks r. foreseen_line names r };

    ghost members = { λ names marks r. foreseen_members names r };

    fn push_line(
        &self,
        text: &mut String,
        names: &Names,
        _marks: Option<&Marks>,
    ) -> Result<(), AllocError> {
        push_subject(text, names, self.subject)?;
        text.push_str(" ")?;
        text.push_str(mode_word(self.mode))?;
        text.push_str(": ")?;
        text.push_str(self.future.word())?;
        text.push_str("\n")
    }

    fn write_members(
        &self,
        writer: &mut Writer,
        names: &Names,
        _marks: Option<&Marks>,
    ) -> Result<(), AllocError> {
        write_subject(writer, names, self.subject)?;
        write_mode(writer, self.mode)?;
        write_text(writer, "future", self.future.word())
    }
}
