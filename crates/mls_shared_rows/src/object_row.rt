//! Objects as rows.
ghost use Rattle.std.specs.Prelude.{◌≡◌, Some, codes};
ghost use Rattle.mls_rows.specs.Members.{Adds};
ghost use Rattle.mls_shared_rows.specs.StateRows.{object_members, parent_member};
ghost use Rattle.mls_snapshots.specs.States.{object_parts};

use crate::asked::{write_integrity, write_parent, write_security};
use crate::object_lines::push_object_line;
use json::Writer;
use mls_lines::Names;
use mls_marks::Marks;
use mls_rows::{Told, write_null, write_object};
use mls_state::ObjectLabels;
use mls_tables::ObjectId;
use std::alloc::{AllocError, Global};

/// An object with its labels, and its parent, which the root hasn't.
#[derive(Clone, Copy)]
pub(crate) struct ObjectRow {
    pub alloc: Global,
    pub object: ObjectId,
    pub labels: ObjectLabels,
    pub parent: Option<ObjectId>,
}

/// Writes the parent of an object; null where it has none.
fn write_parent_of(
    writer: &mut Writer,
    names: &Names,
    parent: Option<ObjectId>,
) -> Result<(), AllocError>
    ensures { Adds result writer.old writer.new (parent_member names.now parent) }
{
    match parent {
        Some(p) => write_parent(writer, names, p),
        None => write_null(writer, "parent"),
    }
}

impl Told for ObjectRow {
    ghost line = { λ names marks r. object_parts names r.object (Some r.labels.security)
        (Some r.labels.integrity) r.parent };

    ghost members = { λ names marks r. object_members names r.object r.labels.security
        r.labels.integrity r.parent };

    fn push_line(
        &self,
        text: &mut String,
        names: &Names,
        _marks: Option<&Marks>,
    ) -> Result<(), AllocError> {
        push_object_line(text, names, self.object, &self.labels, self.parent)
    }

    fn write_members(
        &self,
        writer: &mut Writer,
        names: &Names,
        _marks: Option<&Marks>,
    ) -> Result<(), AllocError> {
        write_object(writer, names, self.object)?;
        write_security(self.alloc, writer, names, self.labels.security)?;
        write_integrity(self.alloc, writer, names, self.labels.integrity)?;
        write_parent_of(writer, names, self.parent)
    }
}
