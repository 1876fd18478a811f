//! Permissions and accesses as rows.
ghost use Rattle.std.specs.Prelude.{◌≡◌, ◌++◌, string_bytes, OnOk};
ghost use Rattle.mls_rows.specs.Members.{access_members};
ghost use Rattle.mls_snapshots.specs.States.{triple_line, word_of};

use json::Writer;
use mls_lines::Names;
use mls_marks::Marks;
use mls_requests::mode_word;
use mls_rows::{Told, write_access};
use mls_state::Table;
use mls_tables::{Mode, ObjectId, SubjectId};
use mls_wording::{push_object, push_subject};
use std::alloc::AllocError;

/// What a table has: what the matrix permits, or what is accessed.
#[derive(Clone, Copy)]
pub(crate) struct TripleRow {
    pub table: Table,
    pub triple: (SubjectId, ObjectId, Mode),
}

/// The word of a table, which its lines begin with.
pub(crate) fn word_of(table: Table) -> &'static str
    ensures { result.now ≡ word_of table }
{
    match table {
        Table::Matrix => "permit",
        Table::Accesses => "access",
    }
}

/// Appends the line of a triple.
fn push_triple(
    text: &mut String,
    names: &Names,
    word: &str,
    triple: (SubjectId, ObjectId, Mode),
) -> Result<(), AllocError>
    ensures { OnOk result
        (string_bytes text.new ≡ string_bytes text.old ++ triple_line word.now names.now triple) }
{
    let (s, o, x) = triple;
    text.push_str(word)?;
    text.push_str(" ")?;
    push_subject(text, names, s)?;
    text.push_str(" ")?;
    text.push_str(mode_word(x))?;
    text.push_str(" ")?;
    push_object(text, names, o)?;
    text.push_str("\n")?;
    Ok(())
}

impl Told for TripleRow {
    ghost line = { λ names marks r. triple_line (word_of r.table) names r.triple };

    ghost members = { λ names marks r. access_members names r.triple };

    fn push_line(
        &self,
        text: &mut String,
        names: &Names,
        _marks: Option<&Marks>,
    ) -> Result<(), AllocError> {
        push_triple(text, names, word_of(self.table), self.triple)
    }

    fn write_members(
        &self,
        writer: &mut Writer,
        names: &Names,
        _marks: Option<&Marks>,
    ) -> Result<(), AllocError> {
        write_access(writer, names, self.triple)
    }
}
