//! The members of the JSON objects of what subjects may change.
ghost use Rattle.std.specs.Prelude.{◌≡◌, ◌++◌, codes};
ghost use Rattle.std.specs.List.{flat_map};
ghost use Rattle.mls_rows.specs.Members.{Adds, list_member, object_member, text_member};
ghost use Rattle.mls_review.specs.Granted.{relabels};
ghost use Rattle.mls_review.specs.PowerRows.{directed_members, granted_members, label_tokens, labels_member};
ghost use Rattle.mls_review.specs.PowerRows.{over_members, power_name, relabeling_members, what_member};

use crate::power::Power;
use crate::relabeling::Relabeling;
use json::Writer;
use mls_labels::SecLabel;
use mls_lines::Names;
use mls_rows::{write_object, write_object_at, write_subject, write_text};
use mls_tables::{ObjectId, SubjectId};
use mls_wording::push_security;
use std::alloc::{AllocError, Global};

/// The word for a power.
fn power_name(power: Power) -> &'static str
    ensures { result.now ≡ power_name power }
{
    match power {
        Power::Gives => "give",
        Power::Creates => "create",
        Power::Deletes => "delete",
    }
}

/// Writes which power it is.
fn write_power(writer: &mut Writer, word: &str) -> Result<(), AllocError>
    ensures { Adds result writer.old writer.new (text_member (codes "power") word.now) }
{
    write_text(writer, "power", word)
}

/// Writes the parent of objects that may be created.
fn write_parent(writer: &mut Writer, names: &Names, o: ObjectId) -> Result<(), AllocError>
    ensures { Adds result writer.old writer.new
        (object_member (codes "parent") (codes "parent_name") names.now o) }
{
    write_object_at(writer, ("parent", "parent_name"), names, o)
}

/// Writes what a power is over.
fn write_what(
    writer: &mut Writer,
    names: &Names,
    power: Power,
    o: ObjectId,
) -> Result<(), AllocError>
    ensures { Adds result writer.old writer.new (what_member names.now power o) }
{
    match power {
        Power::Gives | Power::Deletes => write_object(writer, names, o),
        Power::Creates => write_parent(writer, names, o),
    }
}

/// Writes the members of a power over an object.
pub(crate) fn write_over(
    writer: &mut Writer,
    names: &Names,
    s: SubjectId,
    power: Power,
    o: ObjectId,
) -> Result<(), AllocError>
    ensures { Adds result writer.old writer.new (over_members names.now s power o) }
{
    write_subject(writer, names, s)?;
    write_power(writer, power_name(power))?;
    write_what(writer, names, power, o)
}

/// Writes in which direction a label is changed.
fn write_direction(writer: &mut Writer, word: &str) -> Result<(), AllocError>
    ensures { Adds result writer.old writer.new (text_member (codes "direction") word.now) }
{
    write_text(writer, "direction", word)
}

/// Writes that an object's label is changed.
fn write_relabel(writer: &mut Writer) -> Result<(), AllocError>
    ensures { Adds result writer.old writer.new (text_member (codes "power") (codes "relabel")) }
{
    write_power(writer, "relabel")
}

/// Writes that a subject's own label is changed.
fn write_level(writer: &mut Writer) -> Result<(), AllocError>
    ensures { Adds result writer.old writer.new (text_member (codes "power") (codes "level")) }
{
    write_power(writer, "level")
}

/// Writes the object whose label is changed, and in which direction.
fn write_directed(
    writer: &mut Writer,
    names: &Names,
    o: ObjectId,
    direction: &str,
) -> Result<(), AllocError>
    ensures { Adds result writer.old writer.new (directed_members names.now o direction.now) }
{
    write_relabel(writer)?;
    write_object(writer, names, o)?;
    write_direction(writer, direction)
}

/// Writes whose label is changed.
fn write_relabeling(
    writer: &mut Writer,
    names: &Names,
    change: Relabeling,
) -> Result<(), AllocError>
    ensures { Adds result writer.old writer.new (relabeling_members names.now change) }
{
    match change {
        Relabeling::Level => write_level(writer),
        Relabeling::Down(o) => write_directed(writer, names, o, "down"),
        Relabeling::Aside(o) => write_directed(writer, names, o, "aside"),
        Relabeling::Up(o) => write_directed(writer, names, o, "up"),
    }
}

/// Writes a label.
fn write_label(
    writer: &mut Writer,
    alloc: Global,
    names: &Names,
    l: SecLabel,
) -> Result<(), AllocError>
    ensures { Adds result writer.old writer.new (label_tokens names.now l) }
{
    let mut word = String::new(alloc);
    push_security(&mut word, names, l)?;
    let written = writer.string(&word);
    drop(word);
    written
}

/// Writes labels.
fn write_each(
    writer: &mut Writer,
    alloc: Global,
    names: &Names,
    labels: &[SecLabel],
) -> Result<(), AllocError>
    ensures { Adds result writer.old writer.new (flat_map (label_tokens names.now) labels.now) }
{
    for l in labels {
        write_label(writer, alloc, names, *l)?;
    }
    Ok(())
}

/// Writes a member that is a list of labels.
fn write_list(
    writer: &mut Writer,
    alloc: Global,
    at: &str,
    names: &Names,
    labels: &[SecLabel],
) -> Result<(), AllocError>
    ensures { Adds result writer.old writer.new
        (list_member at.now (flat_map (label_tokens names.now) labels.now)) }
{
    writer.key(at)?;
    writer.begin_array()?;
    write_each(writer, alloc, names, labels)?;
    writer.end_array()
}

/// Writes the list of labels.
fn write_labels(
    writer: &mut Writer,
    alloc: Global,
    names: &Names,
    labels: &[SecLabel],
) -> Result<(), AllocError>
    ensures { Adds result writer.old writer.new (labels_member names.now labels.now) }
{
    write_list(writer, alloc, "labels", names, labels)
}

/// Writes the members of labels that a subject may take, or give to an object.
pub(crate) fn write_taken(
    writer: &mut Writer,
    alloc: Global,
    names: &Names,
    s: SubjectId,
    change: Relabeling,
    labels: &[SecLabel],
) -> Result<(), AllocError>
    ensures { Adds result writer.old writer.new (granted_members names.now (relabels s change labels.now)) }
{
    write_subject(writer, names, s)?;
    write_relabeling(writer, names, change)?;
    write_labels(writer, alloc, names, labels)
}
