//! Accesses that untrusted subjects could get from one of two starts alone, as rows.
ghost use Rattle.std.specs.Prelude.{◌≡◌, codes};
ghost use Rattle.mls_rows.specs.Members.{Adds};
ghost use Rattle.mls_differences.specs.Coulds.{could_line, could_members};
ghost use Rattle.mls_differences.specs.Things.{difference_member};

use crate::compared::Compared;
use crate::side::Side;
use crate::single_lines::push_get;
use crate::single_members::write_triple;
use crate::thing::write_difference;
use json::Writer;
use mls_lines::Names;
use mls_tables::{Mode, ObjectId, SubjectId};
use std::alloc::{AllocError, Global};

/// An access that untrusted subjects could get from one of two starts alone, by the numbers of the first.
#[derive(Clone, Copy)]
pub(crate) struct CouldRow {
    pub subject: SubjectId,
    pub object: ObjectId,
    pub mode: Mode,
    /// The start that alone has it.
    pub side: Side,
}

/// Writes that it could come about.
fn write_could(writer: &mut Writer) -> Result<(), AllocError>
    ensures { Adds result writer.old writer.new (difference_member (codes "could")) }
{
    write_difference(writer, "could")
}

impl Compared for CouldRow {
    ghost line = { λ file other a b row. could_line file other a row };

    ghost members = { λ a b row. could_members a row };

    fn push_line(
        &self,
        _alloc: Global,
        text: &mut String,
        words: (&str, &str),
        names: (&Names, &Names),
    ) -> Result<(), AllocError> {
        text.push_str("could ")?;
        push_get(text, names.0, self.subject, self.object, self.mode)?;
        text.push_str(": only in ")?;
        text.push_str(self.side.file(words))?;
        text.push_str("\n")
    }

    fn write_members(
        &self,
        _alloc: Global,
        writer: &mut Writer,
        names: (&Names, &Names),
    ) -> Result<(), AllocError> {
        let access = (self.subject, self.object, self.mode);
        write_could(writer)?;
        write_triple(writer, self.side, names.0, access)
    }
}
