//! The children of an object as rows.
ghost use Rattle.std.specs.Prelude.{◌≡◌, ◌++◌, codes, string_bytes, OnOk};
ghost use Rattle.mls_rows.specs.Members.{object_member};
ghost use Rattle.mls_about.specs.Objects.{child_line};

use json::Writer;
use mls_lines::Names;
use mls_marks::Marks;
use mls_rows::{Told, write_object};
use mls_tables::ObjectId;
use mls_wording::push_object;
use std::alloc::AllocError;

/// A child of the object that is asked about.
#[derive(Clone, Copy)]
pub(crate) struct ChildRow {
    pub object: ObjectId,
}

impl Told for ChildRow {
    ghost line = { λ names marks r. child_line names r.object };

    ghost members = { λ names marks r. object_member (codes "object") (codes "object_name") names r.object };

    fn push_line(
        &self,
        text: &mut String,
        names: &Names,
        _marks: Option<&Marks>,
    ) -> Result<(), AllocError> {
        text.push_str("child ")?;
        push_object(text, names, self.object)?;
        text.push_str("\n")
    }

    fn write_members(
        &self,
        writer: &mut Writer,
        names: &Names,
        _marks: Option<&Marks>,
    ) -> Result<(), AllocError> {
        write_object(writer, names, self.object)
    }
}
