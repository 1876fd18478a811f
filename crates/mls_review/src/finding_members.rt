//! The members of the JSON objects of findings.
ghost use Rattle.std.specs.Prelude.{◌≡◌, ◌++◌, codes};
ghost use Rattle.mls_rows.specs.Members.{Adds, number_member, object_member, text_member};
ghost use Rattle.mls_review.specs.LintRows.{dead_members, downflow_members, kind_member, pair_members};
ghost use Rattle.mls_review.specs.LintRows.{pairs_members};

use crate::dead::Dead;
use crate::downflow::Downflow;
use json::Writer;
use mls_lines::Names;
use mls_rows::{write_access, write_number, write_object_at, write_subject, write_text};
use mls_tables::ObjectId;
use std::alloc::AllocError;

/// Writes which finding it is.
pub(crate) fn write_kind(writer: &mut Writer, word: &str) -> Result<(), AllocError>
    ensures { Adds result writer.old writer.new (kind_member word.now) }
{
    write_text(writer, "finding", word)
}

/// Writes for which reason a permission is dead.
fn write_reason(writer: &mut Writer, word: &str) -> Result<(), AllocError>
    ensures { Adds result writer.old writer.new (text_member (codes "reason") word.now) }
{
    write_text(writer, "reason", word)
}

/// Writes the members of a dead permission.
pub(crate) fn write_dead(writer: &mut Writer, names: &Names, d: &Dead) -> Result<(), AllocError>
    ensures { Adds result writer.old writer.new (dead_members names.now d.now) }
{
    write_kind(writer, "dead")?;
    write_access(writer, names, (d.subject, d.object, d.mode))?;
    write_reason(writer, d.reason.word())
}

/// Writes how many pairs there are.
fn write_pairs(writer: &mut Writer, count: u64) -> Result<(), AllocError>
    ensures { Adds result writer.old writer.new (number_member (codes "pairs") count) }
{
    write_number(writer, "pairs", count)
}

/// Writes the first object of a pair.
fn write_from(writer: &mut Writer, names: &Names, o: ObjectId) -> Result<(), AllocError>
    ensures { Adds result writer.old writer.new (object_member (codes "from") (codes "from_name") names.now o) }
{
    write_object_at(writer, ("from", "from_name"), names, o)
}

/// Writes the second object of a pair.
fn write_to(writer: &mut Writer, names: &Names, o: ObjectId) -> Result<(), AllocError>
    ensures { Adds result writer.old writer.new (object_member (codes "to") (codes "to_name") names.now o) }
{
    write_object_at(writer, ("to", "to_name"), names, o)
}

/// Writes a pair of objects.
fn write_pair(
    writer: &mut Writer,
    names: &Names,
    from: ObjectId,
    to: ObjectId,
) -> Result<(), AllocError>
    ensures { Adds result writer.old writer.new (pair_members names.now from to) }
{
    write_from(writer, names, from)?;
    write_to(writer, names, to)
}

/// Writes how many pairs a flow downwards has, and the first of them.
fn write_flow(writer: &mut Writer, names: &Names, f: &Downflow) -> Result<(), AllocError>
    ensures { Adds result writer.old writer.new (pairs_members names.now f.now) }
{
    write_pairs(writer, u64::from(f.pairs))?;
    write_pair(writer, names, f.from, f.to)
}

/// Writes that it is a flow downwards.
fn write_is_downflow(writer: &mut Writer) -> Result<(), AllocError>
    ensures { Adds result writer.old writer.new (kind_member (codes "downflow")) }
{
    write_kind(writer, "downflow")
}

/// Writes the members of a flow downwards.
pub(crate) fn write_downflow(
    writer: &mut Writer,
    names: &Names,
    f: &Downflow,
) -> Result<(), AllocError>
    ensures { Adds result writer.old writer.new (downflow_members names.now f.now) }
{
    write_is_downflow(writer)?;
    write_subject(writer, names, f.subject)?;
    write_flow(writer, names, f)
}
