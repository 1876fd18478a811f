//! The members of accesses, by the keys that all answers have for them.
ghost use Rattle.std.specs.Prelude.{◌≡◌, codes};
ghost use Rattle.mls_rows.specs.Members.{Adds, access_members, mode_member, object_member, subject_member};

use crate::members::write_mode_at;
use crate::naming::{write_object_at, write_subject_at};
use json::Writer;
use mls_lines::Names;
use mls_tables::{Mode, ObjectId, SubjectId};
use std::alloc::AllocError;

/// Writes a subject.
///
/// # Errors
/// `AllocError` where an allocation failed.
pub fn write_subject(writer: &mut Writer, names: &Names, s: SubjectId) -> Result<(), AllocError>
    ensures { Adds result writer.old writer.new
        (subject_member (codes "subject") (codes "subject_name") names.now s) }
{
    write_subject_at(writer, ("subject", "subject_name"), names, s)
}

/// Writes an object.
///
/// # Errors
/// `AllocError` where an allocation failed.
pub fn write_object(writer: &mut Writer, names: &Names, o: ObjectId) -> Result<(), AllocError>
    ensures { Adds result writer.old writer.new
        (object_member (codes "object") (codes "object_name") names.now o) }
{
    write_object_at(writer, ("object", "object_name"), names, o)
}

/// Writes a mode.
///
/// # Errors
/// `AllocError` where an allocation failed.
pub fn write_mode(writer: &mut Writer, mode: Mode) -> Result<(), AllocError>
    ensures { Adds result writer.old writer.new (mode_member (codes "mode") mode) }
{
    write_mode_at(writer, "mode", mode)
}

/// Writes an access: its subject, its mode and its object.
///
/// # Errors
/// `AllocError` where an allocation failed.
pub fn write_access(
    writer: &mut Writer,
    names: &Names,
    access: (SubjectId, ObjectId, Mode),
) -> Result<(), AllocError>
    ensures { Adds result writer.old writer.new (access_members names.now access) }
{
    let (s, o, x) = access;
    write_subject(writer, names, s)?;
    write_mode(writer, x)?;
    write_object(writer, names, o)
}
