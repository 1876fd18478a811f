//! The members of what one of two starts alone has.
ghost use Rattle.std.specs.Prelude.{◌≡◌, ◌++◌, codes};
ghost use Rattle.mls_rows.specs.Members.{Adds, access_members, text_member};
ghost use Rattle.mls_differences.specs.SingleForms.{area_members, kind_word, name_members, side_member};

use crate::level_lists::write_area;
use crate::side::{Area, Side};
use crate::single::Kind;
use json::Writer;
use mls_lines::Names;
use mls_rows::{write_access, write_text};
use mls_tables::{Mode, ObjectId, SubjectId};
use std::alloc::AllocError;

/// Writes which start has it.
fn write_side(writer: &mut Writer, side: Side) -> Result<(), AllocError>
    ensures { Adds result writer.old writer.new (side_member side) }
{
    write_text(writer, "only_in", side.word())
}

/// Writes an access that one start alone has.
pub(crate) fn write_triple(
    writer: &mut Writer,
    side: Side,
    names: &Names,
    access: (SubjectId, ObjectId, Mode),
) -> Result<(), AllocError>
    ensures { Adds result writer.old writer.new (access_members names.now access ++ side_member side) }
{
    write_access(writer, names, access)?;
    write_side(writer, side)
}

/// Writes the scheme that a name is one of, where it is one of a scheme.
fn write_area_of(writer: &mut Writer, area: Option<Area>) -> Result<(), AllocError>
    ensures { Adds result writer.old writer.new (area_members area) }
{
    match area {
        Some(area) => write_area(writer, area),
        None => Ok(()),
    }
}

/// Writes the kind of a name.
fn write_kind(writer: &mut Writer, kind: Kind) -> Result<(), AllocError>
    ensures { Adds result writer.old writer.new (text_member (codes "kind") (kind_word kind)) }
{
    write_text(writer, "kind", kind.word())
}

/// Writes a name.
fn write_word(writer: &mut Writer, name: &str) -> Result<(), AllocError>
    ensures { Adds result writer.old writer.new (text_member (codes "name") name.now) }
{
    write_text(writer, "name", name)
}

/// Writes a name and its kind.
fn write_named(writer: &mut Writer, kind: Kind, name: &str) -> Result<(), AllocError>
    ensures { Adds result writer.old writer.new (name_members kind name.now) }
{
    write_area_of(writer, kind.area())?;
    write_kind(writer, kind)?;
    write_word(writer, name)
}

/// Writes a name that one start alone has.
pub(crate) fn write_name(
    writer: &mut Writer,
    side: Side,
    kind: Kind,
    name: &str,
) -> Result<(), AllocError>
    ensures { Adds result writer.old writer.new (side_member side ++ name_members kind name.now) }
{
    write_side(writer, side)?;
    write_named(writer, kind, name)
}
