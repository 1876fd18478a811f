//! Subjects and objects that two starts share, and how what these have otherwise is told.
ghost use Rattle.std.specs.Prelude.{◌≡◌, ◌++◌, string_bytes, OnOk};
ghost use Rattle.mls_rows.specs.Members.{Adds};
ghost use Rattle.mls_differences.specs.Things.{both_text, both_texts, difference_member, part_text, text_members};
ghost use Rattle.mls_differences.specs.Things.{thing_member, thing_text, truth_member, truth_members};

use json::Writer;
use mls_lines::Names;
use mls_rows::{write_object, write_subject, write_text};
use mls_tables::{ObjectId, SubjectId};
use mls_wording::{push_object, push_subject};
use std::alloc::AllocError;

/// A subject or an object, by its number in the first of two starts.
#[derive(Clone, Copy)]
pub(crate) enum Thing {
    Subject(SubjectId),
    Object(ObjectId),
}

/// Appends the kind and the name of a subject or an object.
fn push_thing(text: &mut String, names: &Names, thing: Thing) -> Result<(), AllocError>
    ensures { OnOk result (string_bytes text.new ≡ string_bytes text.old ++ thing_text names.now thing) }
{
    match thing {
        Thing::Subject(s) => {
            text.push_str("subject ")?;
            push_subject(text, names, s)?;
        }
        Thing::Object(o) => {
            text.push_str("object ")?;
            push_object(text, names, o)?;
        }
    }
    Ok(())
}

/// Appends what the line of a part of a subject or an object begins with.
pub(crate) fn push_part(
    text: &mut String,
    names: &Names,
    thing: Thing,
    part: &str,
) -> Result<(), AllocError>
    ensures { OnOk result (string_bytes text.new ≡ string_bytes text.old ++ part_text names.now thing part.now) }
{
    push_thing(text, names, thing)?;
    text.push_str(" ")?;
    text.push_str(part)?;
    text.push_str(": ")
}

/// Appends both of two texts, the first start's first, and the end of the line.
pub(crate) fn push_both(text: &mut String, here: &str, there: &str) -> Result<(), AllocError>
    ensures { OnOk result (string_bytes text.new ≡ string_bytes text.old ++ both_text here.now there.now) }
{
    text.push_str(here)?;
    text.push_str(" > ")?;
    text.push_str(there)?;
    text.push_str("\n")
}

/// Writes what differs.
///
/// # Errors
/// `AllocError` where an allocation failed.
pub fn write_difference(writer: &mut Writer, word: &str) -> Result<(), AllocError>
    ensures { Adds result writer.old writer.new (difference_member word.now) }
{
    write_text(writer, "difference", word)
}

/// Writes the member that is a subject or an object.
pub(crate) fn write_thing(
    writer: &mut Writer,
    names: &Names,
    thing: Thing,
) -> Result<(), AllocError>
    ensures { Adds result writer.old writer.new (thing_member names.now thing) }
{
    match thing {
        Thing::Subject(s) => write_subject(writer, names, s),
        Thing::Object(o) => write_object(writer, names, o),
    }
}

/// Writes two members that are strings.
fn write_texts(
    writer: &mut Writer,
    keys: (&str, &str),
    one: &str,
    other: &str,
) -> Result<(), AllocError>
    ensures { Adds result writer.old writer.new
        (text_members keys.entry.0.now keys.entry.1.now one.now other.now) }
{
    write_text(writer, keys.0, one)?;
    write_text(writer, keys.1, other)
}

/// Writes both sides as strings, the first start's first.
pub(crate) fn write_both(writer: &mut Writer, here: &str, there: &str) -> Result<(), AllocError>
    ensures { Adds result writer.old writer.new (both_texts here.now there.now) }
{
    write_texts(writer, ("first", "second"), here, there)
}

/// Writes a member that is true or false.
fn write_truth(writer: &mut Writer, at: &str, so: bool) -> Result<(), AllocError>
    ensures { Adds result writer.old writer.new (truth_member at.now so) }
{
    writer.key(at)?;
    writer.boolean(so)
}

/// Writes two members that are true or false.
pub(crate) fn write_truths(
    writer: &mut Writer,
    keys: (&str, &str),
    one: bool,
    other: bool,
) -> Result<(), AllocError>
    ensures { Adds result writer.old writer.new
        (truth_members keys.entry.0.now keys.entry.1.now one other) }
{
    write_truth(writer, keys.0, one)?;
    write_truth(writer, keys.1, other)
}
