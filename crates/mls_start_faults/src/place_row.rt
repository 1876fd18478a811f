//! Places of a start file, as rows.
ghost use Rattle.std.specs.Prelude.{◌≡◌, ◌++◌, ◌∷◌, ◌==◌, [], codes, length, map, string_bytes, IfOk, OnOk};
ghost use Rattle.std.specs.List.{flat_map};
ghost use Rattle.mls_rows.specs.Members.{Adds};
ghost use Rattle.mls_start_faults.specs.PlaceRows.{finding_member, located_line, located_members, located_row};
ghost use Rattle.mls_start_faults.specs.PlaceRows.{pointer_member};
ghost use Rattle.mls_rows.specs.Rows.{bytes_of};
ghost use Rattle.mls_start_faults.specs.Places.{located_view};

use json::Writer;
use mls_rows::{Form, Listing, Output, Plain, write_text};
use std::alloc::{AllocError, Global};

/// A place of a start file where something is wrong: a JSON pointer, and what is wrong there.
#[derive(Drop)]
pub(crate) struct PlaceRow {
    pub pointer: String,
    pub words: &'static str,
}

/// Writes the pointer to what is found.
pub(crate) fn write_pointer(writer: &mut Writer, pointer: &str) -> Result<(), AllocError>
    ensures { Adds result writer.old writer.new (pointer_member pointer.now) }
{
    write_text(writer, "pointer", pointer)
}

/// Writes what is found.
pub(crate) fn write_finding(writer: &mut Writer, words: &str) -> Result<(), AllocError>
    ensures { Adds result writer.old writer.new (finding_member words.now) }
{
    write_text(writer, "finding", words)
}

impl Plain for PlaceRow {
    ghost line = { λ row. located_line (located_view row) };

    ghost members = { λ row. located_members (located_view row) };

    fn push_line(&self, text: &mut String) -> Result<(), AllocError> {
        text.push_str(&self.pointer)?;
        text.push_str(": ")?;
        text.push_str(self.words)?;
        text.push_str("\n")
    }

    fn write_members(&self, writer: &mut Writer) -> Result<(), AllocError> {
        write_pointer(writer, &self.pointer)?;
        write_finding(writer, self.words)
    }
}

/// Adds a place by its pointer.
pub(crate) fn push_row(
    found: &mut Vec<PlaceRow>,
    pointer: String,
    words: &'static str,
) -> Result<(), AllocError>
    ensures { OnOk result (map located_view found.new.items
        ≡ map located_view found.old.items ++ (string_bytes pointer, words.now) ∷ []) }
{
    found.push(PlaceRow { pointer, words })?;
    Ok(())
}

/// The text of these bytes.
fn text_of(alloc: Global, word: &str) -> Result<String, AllocError>
    ensures { IfOk result (λ text. string_bytes text ≡ word.now) }
{
    let mut text = String::new(alloc);
    text.push_str(word)?;
    Ok(text)
}

/// Adds that something is wrong with the file as a whole.
pub(crate) fn push_whole(found: &mut Vec<PlaceRow>, words: &'static str) -> Result<(), AllocError>
    ensures { OnOk result (map located_view found.new.items
        ≡ map located_view found.old.items ++ (codes "/", words.now) ∷ []) }
{
    let pointer = text_of(*found.allocator(), "/")?;
    push_row(found, pointer, words)
}

/// The rows of places, in a form, one after the other.
fn written(alloc: Global, form: Form, found: &[PlaceRow]) -> Result<Output, AllocError>
    ensures { IfOk result
        (λ output. bytes_of output ≡ flat_map (λ row. located_row form (located_view row)) found.now) }
{
    let mut output = Output::new(alloc, form);
    for row in found {
        output = output.with_plain(row)?;
    }
    Ok(output)
}

/// Places in a form.
pub(crate) fn places_written(
    alloc: Global,
    form: Form,
    found: &[PlaceRow],
) -> Result<Vec<u8>, AllocError>
    ensures { IfOk result
        (λ bytes. bytes.items ≡ flat_map (located_row form) (map located_view found.now)) }
{
    let output = written(alloc, form, found)?;
    Ok(output.into_bytes())
}

/// Places in a form, as an answer: a positive one where there is none.
pub(crate) fn listed(alloc: Global, form: Form, found: &[PlaceRow]) -> Result<Listing, AllocError>
    ensures bytes { IfOk result
        (λ listing. listing.bytes.items ≡ flat_map (located_row form) (map located_view found.now)) }
    ensures positive { IfOk result
        (λ listing. listing.is_positive ≡ (length (map located_view found.now) == 0)) }
{
    let bytes = places_written(alloc, form, found)?;
    let is_positive = found.is_empty();
    Ok(Listing { bytes, is_positive })
}
