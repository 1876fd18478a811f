//! What is said of marks that were verified.
ghost use Rattle.std.specs.Prelude.{◌≡◌, ◌++◌, codes, string_bytes, IfOk, OnOk};
ghost use Rattle.mls_replay.specs.Checked.{count_line};
ghost use Rattle.mls_rows.specs.Members.{Adds, number_member, text_member};
ghost use Rattle.mls_answers.specs.Verified.{back_line, back_members, last_line, times_line, times_members};
ghost use Rattle.mls_answers.specs.Verified.{unmarked_line, unmarked_members};
ghost use Rattle.mls_answers.specs.Verified.{verified_bytes, verified_line, verified_members};

use json::Writer;
use mls_marks::{Digest, Time, Verified};
use mls_rows::{Form, Output, Plain, write_number, write_text};
use mls_wording::push_number;
use std::alloc::{AllocError, Global};
use std::str;

/// What marks say of a journal of so many entries.
#[derive(Clone, Copy)]
struct VerifiedRow {
    entries: u64,
    found: Verified,
}

/// Appends a text that is ASCII.
fn push_ascii(text: &mut String, bytes: &[u8]) -> Result<(), AllocError>
    ensures { OnOk result (string_bytes text.new ≡ string_bytes text.old ++ bytes.now) }
{
    let Ok(word) = str::from_utf8(bytes) else {
        return Err(AllocError);
    };
    text.push_str(word)
}

/// Appends a line with a word and a number.
fn push_count(text: &mut String, word: &str, count: u64) -> Result<(), AllocError>
    ensures { OnOk result (string_bytes text.new ≡ string_bytes text.old ++ count_line word.now count) }
{
    text.push_str(word)?;
    push_number(text, count)?;
    text.push_str("\n")
}

/// Appends the line of the last digest of the chain.
fn push_last(text: &mut String, digest: &Digest) -> Result<(), AllocError>
    ensures { OnOk result (string_bytes text.new ≡ string_bytes text.old ++ last_line digest.now) }
{
    text.push_str("last ")?;
    push_ascii(text, &digest.text())?;
    text.push_str("\n")
}

/// Appends a word and a time.
fn push_time(text: &mut String, word: &str, time: &Time) -> Result<(), AllocError>
    ensures { OnOk result (string_bytes text.new ≡ string_bytes text.old ++ word.now ++ time.now) }
{
    text.push_str(word)?;
    push_ascii(text, time.text())?;
    Ok(())
}

/// Appends the line of two times.
fn push_two_times(text: &mut String, first: &Time, last: &Time) -> Result<(), AllocError>
    ensures { OnOk result (string_bytes text.new ≡ string_bytes text.old
        ++ (codes "from " ++ first.now ++ codes " to " ++ last.now ++ codes "\n")) }
{
    push_time(text, "from ", first)?;
    push_time(text, " to ", last)?;
    text.push_str("\n")?;
    Ok(())
}

/// Appends the line of the times of the first mark and of the last, where there are marks.
fn push_times(
    text: &mut String,
    first: &Option<Time>,
    last: &Option<Time>,
) -> Result<(), AllocError>
    ensures { OnOk result
        (string_bytes text.new ≡ string_bytes text.old ++ times_line first.now last.now) }
{
    match (first, last) {
        (Some(first), Some(last)) => push_two_times(text, first, last),
        _ => Ok(()),
    }
}

/// Appends the line of how many marks are earlier than the one before, where there are any.
fn push_back(text: &mut String, count: u64) -> Result<(), AllocError>
    ensures { OnOk result (string_bytes text.new ≡ string_bytes text.old ++ back_line count) }
{
    if count == 0 {
        return Ok(());
    }
    push_count(text, "back ", count)
}

/// Appends the line of how many entries no mark covers, where there are any.
fn push_unmarked(text: &mut String, count: u64) -> Result<(), AllocError>
    ensures { OnOk result (string_bytes text.new ≡ string_bytes text.old ++ unmarked_line count) }
{
    if count == 0 {
        return Ok(());
    }
    push_count(text, "unmarked ", count)
}

/// Writes a member that is a text in ASCII.
fn write_ascii(writer: &mut Writer, at: &str, bytes: &[u8]) -> Result<(), AllocError>
    ensures { Adds result writer.old writer.new (text_member at.now bytes.now) }
{
    let Ok(word) = str::from_utf8(bytes) else {
        return Err(AllocError);
    };
    write_text(writer, at, word)
}

/// Writes how many entries there are.
fn write_entries(writer: &mut Writer, count: u64) -> Result<(), AllocError>
    ensures { Adds result writer.old writer.new (number_member (codes "entries") count) }
{
    write_number(writer, "entries", count)
}

/// Writes the time of the first mark.
fn write_from(writer: &mut Writer, time: &Time) -> Result<(), AllocError>
    ensures { Adds result writer.old writer.new (text_member (codes "from") time.now) }
{
    write_ascii(writer, "from", time.text())
}

/// Writes the time of the last mark.
fn write_to(writer: &mut Writer, time: &Time) -> Result<(), AllocError>
    ensures { Adds result writer.old writer.new (text_member (codes "to") time.now) }
{
    write_ascii(writer, "to", time.text())
}

/// Writes the times of two marks.
fn write_two_times(writer: &mut Writer, first: &Time, last: &Time) -> Result<(), AllocError>
    ensures { Adds result writer.old writer.new
        (text_member (codes "from") first.now ++ text_member (codes "to") last.now) }
{
    write_from(writer, first)?;
    write_to(writer, last)
}

/// Writes the times of the first mark and of the last, where there are marks.
fn write_times(
    writer: &mut Writer,
    first: &Option<Time>,
    last: &Option<Time>,
) -> Result<(), AllocError>
    ensures { Adds result writer.old writer.new (times_members first.now last.now) }
{
    match (first, last) {
        (Some(first), Some(last)) => write_two_times(writer, first, last),
        _ => Ok(()),
    }
}

/// Writes how many marks are earlier than the one before.
fn write_back_count(writer: &mut Writer, count: u64) -> Result<(), AllocError>
    ensures { Adds result writer.old writer.new (number_member (codes "back") count) }
{
    write_number(writer, "back", count)
}

/// Writes how many marks are earlier than the one before, where there are any.
fn write_back(writer: &mut Writer, count: u64) -> Result<(), AllocError>
    ensures { Adds result writer.old writer.new (back_members count) }
{
    if count == 0 {
        return Ok(());
    }
    write_back_count(writer, count)
}

/// Writes how many entries no mark covers.
fn write_count(writer: &mut Writer, count: u64) -> Result<(), AllocError>
    ensures { Adds result writer.old writer.new (number_member (codes "unmarked") count) }
{
    write_number(writer, "unmarked", count)
}

/// Writes how many entries no mark covers, where there are any.
fn write_unmarked(writer: &mut Writer, count: u64) -> Result<(), AllocError>
    ensures { Adds result writer.old writer.new (unmarked_members count) }
{
    if count == 0 {
        return Ok(());
    }
    write_count(writer, count)
}

impl Plain for VerifiedRow {
    ghost line = { λ r. verified_line r.entries r.found };

    ghost members = { λ r. verified_members r.entries r.found };

    fn push_line(&self, text: &mut String) -> Result<(), AllocError> {
        let found = &self.found;
        push_count(text, "entries ", self.entries)?;
        push_last(text, &found.chain.digest)?;
        push_times(text, &found.first, &found.last)?;
        push_back(text, found.back)?;
        push_unmarked(text, self.entries.saturating_sub(found.chain.entries))
    }

    fn write_members(&self, writer: &mut Writer) -> Result<(), AllocError> {
        let found = &self.found;
        write_entries(writer, self.entries)?;
        write_ascii(writer, "last", &found.chain.digest.text())?;
        write_times(writer, &found.first, &found.last)?;
        write_back(writer, found.back)?;
        write_unmarked(writer, self.entries.saturating_sub(found.chain.entries))
    }
}

/// What is said in a form of marks that agree with a journal of so many entries: how many entries there are, the last
/// digest of the chain, the times of the first mark and of the last, where there are marks, and how many marks are
/// earlier than the one before, and how many entries no mark covers, where there are any.
///
/// # Errors
/// `AllocError` where an allocation failed.
pub fn verification(
    alloc: Global,
    form: Form,
    entries: u64,
    found: &Verified,
) -> Result<Vec<u8>, AllocError>
    ensures { IfOk result (λ bytes. bytes.items ≡ verified_bytes form entries found.now) }
{
    let row = VerifiedRow {
        entries,
        found: *found,
    };
    let output = Output::new(alloc, form).with_plain(&row)?;
    Ok(output.into_bytes())
}
