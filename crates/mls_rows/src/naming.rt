//! Members that are subjects and objects.
ghost use Rattle.std.specs.Prelude.{◌≡◌, option_map};
ghost use Rattle.mls_rows.specs.Members.{Adds, member_of, named_member, object_member, subject_member};

use crate::members::{write_number, write_text};
use crate::numbered::{digits_of, write_digits};
use json::Writer;
use mls_lines::Names;
use mls_tables::{ObjectId, SubjectId};
use std::alloc::AllocError;

/// Writes the member of a subject or an object by its word.
fn write_word(writer: &mut Writer, keys: (&str, &str), word: &str) -> Result<(), AllocError>
    ensures { Adds result writer.old writer.new (named_member keys.entry.0.now keys.entry.1.now word.now) }
{
    match digits_of(word) {
        Some(digits) => {
            writer.key(keys.0)?;
            write_digits(writer, digits)
        }
        None => write_text(writer, keys.1, word),
    }
}

/// Writes the member of what has this name, or else this number.
fn write_named(
    writer: &mut Writer,
    keys: (&str, &str),
    name: Option<&str>,
    number: u16,
) -> Result<(), AllocError>
    ensures { Adds result writer.old writer.new
        (member_of keys.entry.0.now keys.entry.1.now (option_map (λ name. name.now) name.entry) number) }
{
    match name {
        Some(name) => write_word(writer, keys, name),
        None => write_number(writer, keys.0, u64::from(number)),
    }
}

/// Writes the member of a subject: its number under the first key, or its name under the second.
///
/// # Errors
/// `AllocError` where an allocation failed.
pub fn write_subject_at(
    writer: &mut Writer,
    keys: (&str, &str),
    names: &Names,
    s: SubjectId,
) -> Result<(), AllocError>
    ensures { Adds result writer.old writer.new (subject_member keys.entry.0.now keys.entry.1.now names.now s) }
{
    write_named(writer, keys, names.subject_name(s), s.number())
}

/// Writes the member of an object: its number under the first key, or its name under the second. A name that is `#` and
/// a number is a number too.
///
/// # Errors
/// `AllocError` where an allocation failed.
pub fn write_object_at(
    writer: &mut Writer,
    keys: (&str, &str),
    names: &Names,
    o: ObjectId,
) -> Result<(), AllocError>
    ensures { Adds result writer.old writer.new (object_member keys.entry.0.now keys.entry.1.now names.now o) }
{
    write_named(writer, keys, names.object_name(o), o.number())
}
