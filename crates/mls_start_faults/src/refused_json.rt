//! Where bytes break off as JSON.
ghost use Rattle.std.specs.Prelude.{◌≡◌, ◌++◌, ◌∷◌, [], codes, map, string_bytes, IfOk, OnOk};
ghost use Rattle.std.specs.Str.{IsUtf8};
ghost use Rattle.mls_rows.specs.Members.{Adds, two_members};
ghost use Rattle.mls_start_file.specs.Says.{RefusesStart};
ghost use Rattle.mls_start_text.specs.declared.load_fault.LoadFault.TheVariants.{Json};
ghost use Rattle.mls_start_faults.specs.JsonPlaces.{json_line, json_members, json_row, TellsPlace, TellsJson};
ghost use Rattle.mls_start_faults.specs.PlaceRows.{finding_member, located_row, pointer_member};
ghost use Rattle.mls_start_faults.specs.Places.{located_view};

use crate::place_row::{PlaceRow, places_written, push_whole, write_finding, write_pointer};
use json::Writer;
use mls_rows::{Form, Output, Plain, write_two};
use mls_wording::push_number;
use serde_json::{Category, Error, Value};
use std::alloc::{AllocError, Global};
use std::str;

/// Where JSON breaks off.
#[derive(Clone, Copy)]
struct Broken {
    line: u64,
    column: u64,
}

/// Appends the line that tells where JSON breaks off.
fn push_broken(text: &mut String, line: u64, column: u64) -> Result<(), AllocError>
    ensures { OnOk result (string_bytes text.new ≡ string_bytes text.old ++ json_line line column) }
{
    text.push_str("/: line ")?;
    push_number(text, line)?;
    text.push_str(", column ")?;
    push_number(text, column)?;
    text.push_str("\n")
}

/// Writes the pointer to the file as a whole.
fn write_whole(writer: &mut Writer) -> Result<(), AllocError>
    ensures { Adds result writer.old writer.new (pointer_member (codes "/")) }
{
    write_pointer(writer, "/")
}

/// Writes that JSON breaks off.
fn write_syntax(writer: &mut Writer) -> Result<(), AllocError>
    ensures { Adds result writer.old writer.new (finding_member (codes "syntax")) }
{
    write_finding(writer, "syntax")
}

/// Writes a line and a column.
fn write_at(writer: &mut Writer, line: u64, column: u64) -> Result<(), AllocError>
    ensures { Adds result writer.old writer.new (two_members (codes "line") (codes "column") line column) }
{
    write_two(writer, ("line", "column"), (line, column))
}

impl Plain for Broken {
    ghost line = { λ broken. json_line broken.line broken.column };

    ghost members = { λ broken. json_members broken.line broken.column };

    fn push_line(&self, text: &mut String) -> Result<(), AllocError> {
        push_broken(text, self.line, self.column)
    }

    fn write_members(&self, writer: &mut Writer) -> Result<(), AllocError> {
        write_whole(writer)?;
        write_syntax(writer)?;
        write_at(writer, self.line, self.column)
    }
}

/// The row of a place.
fn place_written(alloc: Global, form: Form, line: u64, column: u64) -> Result<Vec<u8>, AllocError>
    ensures { IfOk result (λ out. out.items ≡ json_row form line column) }
{
    let output = Output::new(alloc, form).with_plain(&Broken { line, column })?;
    Ok(output.into_bytes())
}

/// The row of the place that an error tells of. No clause says which place it is.
fn error_written(alloc: Global, form: Form, error: &Error) -> Result<Vec<u8>, AllocError>
    ensures { IfOk result (λ out. TellsPlace form out.items) }
{
    let line = error.line() as u64;
    let column = error.column() as u64;
    place_written(alloc, form, line, column)
}

/// The row of the place where bytes break off as JSON that are UTF-8.
fn broken_written(alloc: Global, form: Form, bytes: &[u8]) -> Result<Vec<u8>, AllocError>
    requires refused { RefusesStart bytes.now Json }
    ensures { IfOk result (λ out. TellsPlace form out.items) }
{
    match Value::from_slice(alloc, bytes) {
        Err(error) if error.classify() == Category::Memory => Err(AllocError),
        Err(error) => error_written(alloc, form, &error),
        Ok(_) => unreachable!(),
    }
}

/// That bytes aren't UTF-8.
fn no_text(alloc: Global) -> Result<Vec<PlaceRow>, AllocError>
    ensures { IfOk result (λ found. map located_view found.items ≡ (codes "/", codes "not UTF-8") ∷ []) }
{
    let mut found = Vec::new(alloc);
    push_whole(&mut found, "not UTF-8")?;
    Ok(found)
}

/// The row for bytes that aren't UTF-8.
fn no_text_written(alloc: Global, form: Form) -> Result<Vec<u8>, AllocError>
    ensures { IfOk result (λ out. out.items ≡ located_row form (codes "/", codes "not UTF-8")) }
{
    let found = no_text(alloc)?;
    let written = places_written(alloc, form, &found);
    drop(found);
    written
}

/// The row of the place where bytes break off as JSON, or that they aren't UTF-8. No clause says which place it is.
///
/// # Errors
/// `AllocError` where an allocation failed.
pub(crate) fn json_written(alloc: Global, form: Form, bytes: &[u8]) -> Result<Vec<u8>, AllocError>
    requires refused { RefusesStart bytes.now Json }
    ensures { IfOk result (λ out. TellsJson form bytes.now out.items) }
{
    match str::from_utf8(bytes) {
        Ok(_) => broken_written(alloc, form, bytes),
        Err(_) => no_text_written(alloc, form),
    }
}
