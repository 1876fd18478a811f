//! The first row of an answer: whether the access could come about.
ghost use Rattle.std.specs.Prelude.{◌≡◌};
ghost use Rattle.mls_futures_text.specs.Rows.{answer_word, answer_line, answer_members};

use json::Writer;
use mls_lines::Names;
use mls_marks::Marks;
use mls_rows::{Told, write_text};
use std::alloc::AllocError;

/// Whether an access could come about, as a row of an answer.
#[derive(Clone, Copy)]
pub(crate) struct AnswerRow {
    pub could: bool,
}

/// The word of it.
fn answer_word(could: bool) -> &'static str
    ensures { result.now ≡ answer_word could }
{
    if could { "yes" } else { "never" }
}

impl Told for AnswerRow {
    ghost line = { λ names marks r. answer_line r.could };

    ghost members = { λ names marks r. answer_members r.could };

    fn push_line(
        &self,
        text: &mut String,
        _names: &Names,
        _marks: Option<&Marks>,
    ) -> Result<(), AllocError> {
        text.push_str(answer_word(self.could))?;
        text.push_str("\n")
    }

    fn write_members(
        &self,
        writer: &mut Writer,
        _names: &Names,
        _marks: Option<&Marks>,
    ) -> Result<(), AllocError> {
        write_text(writer, "answer", answer_word(self.could))
    }
}
