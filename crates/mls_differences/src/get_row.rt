//! Gets that two starts answer otherwise, as rows.
ghost use Rattle.std.specs.Prelude.{◌≡◌, codes};
ghost use Rattle.mls_rows.specs.Members.{Adds};
ghost use Rattle.mls_differences.specs.Gets.{get_line, get_members};
ghost use Rattle.mls_differences.specs.Things.{difference_member};

use crate::compared::Compared;
use crate::replying::{push_replies, write_replies};
use crate::single_lines::push_get;
use crate::thing::write_difference;
use json::Writer;
use mls_lines::Names;
use mls_requests::Reply;
use mls_rows::write_access;
use mls_tables::{Mode, ObjectId, SubjectId};
use std::alloc::{AllocError, Global};

/// A get that two starts answer otherwise, by the numbers of the first.
#[derive(Clone, Copy)]
pub(crate) struct GetRow {
    pub subject: SubjectId,
    pub object: ObjectId,
    pub mode: Mode,
    /// The first start's reply.
    pub first: Reply,
    pub second: Reply,
}

/// Writes that it is a get.
fn write_get(writer: &mut Writer) -> Result<(), AllocError>
    ensures { Adds result writer.old writer.new (difference_member (codes "get")) }
{
    write_difference(writer, "get")
}

impl Compared for GetRow {
    ghost line = { λ file other a b row. get_line a row };

    ghost members = { λ a b row. get_members a row };

    fn push_line(
        &self,
        _alloc: Global,
        text: &mut String,
        _words: (&str, &str),
        names: (&Names, &Names),
    ) -> Result<(), AllocError> {
        push_get(text, names.0, self.subject, self.object, self.mode)?;
        push_replies(text, self.first, self.second)
    }

    fn write_members(
        &self,
        _alloc: Global,
        writer: &mut Writer,
        names: (&Names, &Names),
    ) -> Result<(), AllocError> {
        let access = (self.subject, self.object, self.mode);
        write_get(writer)?;
        write_access(writer, names.0, access)?;
        write_replies(writer, &self.first, &self.second)
    }
}
