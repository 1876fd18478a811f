//! Members that are entries and their times.
ghost use Rattle.std.specs.Prelude.{◌≡◌, ◌∷◌, []};
ghost use Rattle.json.specs.Token.{key};
ghost use Rattle.mls_rows.specs.Members.{Adds};
ghost use Rattle.mls_rows.specs.Times.{entry_members, rows_lent, time_member, time_members, time_token};
ghost use Rattle.mls_rows.specs.Times.{time_of as time_of_entry};

use crate::members::{write_null, write_number};
use json::Writer;
use mls_marks::{Marks, Time};
use std::alloc::AllocError;
use std::str;

/// The time of an entry, where a mark covers it.
pub fn time_of(marks: &Marks, number: u64) -> Option<Time>
    ensures { result ≡ time_of_entry marks.now number }
{
    marks.time_of(number)
}

/// Writes a time, or null where there is none.
fn write_time(writer: &mut Writer, time: &Option<Time>) -> Result<(), AllocError>
    ensures { Adds result writer.old writer.new (time_token time.now ∷ []) }
{
    let Some(time) = time else {
        return writer.null();
    };
    match str::from_utf8(time.text()) {
        Ok(word) => writer.string(word),
        Err(_) => Err(AllocError),
    }
}

/// Writes a member that is a time.
fn write_time_at(writer: &mut Writer, at: &str, time: &Option<Time>) -> Result<(), AllocError>
    ensures { Adds result writer.old writer.new (time_member at.now time.now) }
{
    writer.key(at)?;
    write_time(writer, time)
}

/// Writes the member that is the time of an entry, where there are marks.
fn write_mark(
    writer: &mut Writer,
    at: &str,
    marks: Option<&Marks>,
    number: u64,
) -> Result<(), AllocError>
    ensures { Adds result writer.old writer.new (time_members at.now (rows_lent marks.entry) number) }
{
    match marks {
        Some(marks) => write_time_at(writer, at, &time_of(marks, number)),
        None => Ok(()),
    }
}

/// Writes the number of an entry under the first key, and its time under the second where there are marks; null under
/// the first where there is no entry.
///
/// # Errors
/// `AllocError` where an allocation failed.
pub fn write_entry(
    writer: &mut Writer,
    keys: (&str, &str),
    marks: Option<&Marks>,
    entry: Option<u64>,
) -> Result<(), AllocError>
    ensures { Adds result writer.old writer.new
        (entry_members keys.entry.0.now keys.entry.1.now (rows_lent marks.entry) entry) }
{
    match entry {
        Some(number) => {
            write_number(writer, keys.0, number)?;
            write_mark(writer, keys.1, marks, number)
        }
        None => write_null(writer, keys.0),
    }
}
