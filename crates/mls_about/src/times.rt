//! The time that the object of an entry begins with.
ghost use Rattle.std.specs.Prelude.{◌≡◌, ◌∷◌, [], codes};
ghost use Rattle.mls_rows.specs.Members.{Adds};
ghost use Rattle.mls_rows.specs.Times.{rows_lent, time_member, time_members, time_token};

use json::Writer;
use mls_marks::{Marks, Time};
use mls_rows::time_of;
use std::alloc::AllocError;
use std::str;

/// Writes a time, or null where there is none.
fn write_text_of(writer: &mut Writer, time: &Option<Time>) -> Result<(), AllocError>
    ensures { Adds result writer.old writer.new (time_token time.now ∷ []) }
{
    let Some(time) = time else {
        return writer.null();
    };
    match str::from_utf8(time.text()) {
        Ok(word) => writer.string(word),
        Err(_) => Err(AllocError),
    }
}

/// Writes the member that is a time.
fn write_member(writer: &mut Writer, time: &Option<Time>) -> Result<(), AllocError>
    ensures { Adds result writer.old writer.new (time_member (codes "time") time.now) }
{
    writer.key("time")?;
    write_text_of(writer, time)
}

/// Writes the time of an entry, where there are marks.
pub(crate) fn write_time(
    writer: &mut Writer,
    marks: Option<&Marks>,
    number: u64,
) -> Result<(), AllocError>
    ensures { Adds result writer.old writer.new (time_members (codes "time") (rows_lent marks.entry) number) }
{
    match marks {
        Some(marks) => write_member(writer, &time_of(marks, number)),
        None => Ok(()),
    }
}
