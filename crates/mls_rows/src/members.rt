//! Members of JSON objects, by their keys.
ghost use Rattle.std.specs.Prelude.{◌≡◌};
ghost use Rattle.mls_rows.specs.Members.{Adds, mode_member, null_member, number_member, text_member, two_members};

use json::Writer;
use mls_requests::mode_word;
use mls_tables::Mode;
use std::alloc::AllocError;

/// Writes a member that is a number.
///
/// # Errors
/// `AllocError` where an allocation failed.
pub fn write_number(writer: &mut Writer, at: &str, number: u64) -> Result<(), AllocError>
    ensures { Adds result writer.old writer.new (number_member at.now number) }
{
    writer.key(at)?;
    writer.u64(number)
}

/// Writes a member that is a string.
///
/// # Errors
/// `AllocError` where an allocation failed.
pub fn write_text(writer: &mut Writer, at: &str, word: &str) -> Result<(), AllocError>
    ensures { Adds result writer.old writer.new (text_member at.now word.now) }
{
    writer.key(at)?;
    writer.string(word)
}

/// Writes a member that is null.
///
/// # Errors
/// `AllocError` where an allocation failed.
pub fn write_null(writer: &mut Writer, at: &str) -> Result<(), AllocError>
    ensures { Adds result writer.old writer.new (null_member at.now) }
{
    writer.key(at)?;
    writer.null()
}

/// Writes a member that is a mode.
///
/// # Errors
/// `AllocError` where an allocation failed.
pub fn write_mode_at(writer: &mut Writer, at: &str, mode: Mode) -> Result<(), AllocError>
    ensures { Adds result writer.old writer.new (mode_member at.now mode) }
{
    writer.key(at)?;
    writer.string(mode_word(mode))
}

/// Writes two members that are numbers.
///
/// # Errors
/// `AllocError` where an allocation failed.
pub fn write_two(
    writer: &mut Writer,
    keys: (&str, &str),
    numbers: (u64, u64),
) -> Result<(), AllocError>
    ensures { Adds result writer.old writer.new (two_members keys.entry.0.now keys.entry.1.now numbers.0 numbers.1) }
{
    write_number(writer, keys.0, numbers.0)?;
    write_number(writer, keys.1, numbers.1)
}
