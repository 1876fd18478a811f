//! Rows of comparisons.
ghost use Rattle.std.specs.Prelude.{◌≡◌, ◌∷◌, ◌++◌, [], ℕ, List, string_bytes, IfOk, OnOk};
ghost use Rattle.std.specs.List.{flat_map};
ghost use Rattle.json.specs.Print.{print};
ghost use Rattle.json.specs.Token.{Token};
ghost use Rattle.mls_lines.specs.Names.{Names as TheNames};
ghost use Rattle.mls_rows.specs.Members.{Adds, line_of, object_of};
ghost use Rattle.mls_rows.specs.Rows.{bytes_of, form_of, row_bytes};

use json::Writer;
use mls_lines::Names;
use mls_rows::Output;
use std::alloc::{AllocError, Global};

/// A row of a comparison, which is told by the names of both starts, and in a line also by the words for both files.
pub trait Compared {
    ghost line: { List ℕ → List ℕ → TheNames → TheNames → Self → List ℕ };

    ghost members: { TheNames → TheNames → Self → List Token };

    /// Appends the row's line.
    ///
    /// # Errors
    /// `AllocError` where an allocation failed. The text may then have a part of it.
    fn push_line(
        &self,
        alloc: Global,
        text: &mut String,
        words: (&str, &str),
        names: (&Names, &Names),
    ) -> Result<(), AllocError>
        ensures { OnOk result (string_bytes text.new ≡ string_bytes text.old
            ++ line words.entry.0.now words.entry.1.now names.entry.0.now names.entry.1.now self.now) };

    /// Writes the members of the row's object.
    ///
    /// # Errors
    /// `AllocError` where an allocation failed. The writer may then have a part of them.
    fn write_members(
        &self,
        alloc: Global,
        writer: &mut Writer,
        names: (&Names, &Names),
    ) -> Result<(), AllocError>
        ensures { Adds result writer.old writer.new (members names.entry.0.now names.entry.1.now self.now) };
}

/// What a writer has, with a newline behind it.
fn ended(writer: Writer) -> Result<Vec<u8>, AllocError>
    ensures { IfOk result (λ out. out.items ≡ writer.before ++ print writer.tokens ++ 10 ∷ []) }
{
    let mut out = writer.into_inner();
    out.push(b'\n')?;
    Ok(out)
}

/// Writes the object of a row.
fn write_row<R: Compared>(
    alloc: Global,
    writer: &mut Writer,
    names: (&Names, &Names),
    row: &R,
) -> Result<(), AllocError>
    ensures { Adds result writer.old writer.new
        (object_of (R.members names.entry.0.now names.entry.1.now row.now)) }
{
    writer.begin_object()?;
    row.write_members(alloc, writer, names)?;
    writer.end_object()
}

/// Appends the object of a row, in a line.
fn push_object<R: Compared>(
    alloc: Global,
    out: Vec<u8>,
    names: (&Names, &Names),
    row: &R,
) -> Result<Vec<u8>, AllocError>
    ensures { IfOk result (λ new. new.items
        ≡ out.items ++ line_of (R.members names.entry.0.now names.entry.1.now row.now)) }
{
    let mut writer = Writer::new(out);
    write_row(alloc, &mut writer, names, row)?;
    ended(writer)
}

/// Adds a row.
fn with_row<R: Compared>(
    alloc: Global,
    output: Output,
    words: (&str, &str),
    names: (&Names, &Names),
    row: &R,
) -> Result<Output, AllocError>
    ensures form { IfOk result (λ new. form_of new ≡ form_of output) }
    ensures bytes { IfOk result (λ new. bytes_of new ≡ bytes_of output ++ row_bytes (form_of output)
        (R.line words.entry.0.now words.entry.1.now names.entry.0.now names.entry.1.now row.now)
        (R.members names.entry.0.now names.entry.1.now row.now)) }
{
    match output {
        Output::Text(mut text) => {
            row.push_line(alloc, &mut text, words, names)?;
            Ok(Output::Text(text))
        }
        Output::Json(out) => Ok(Output::Json(push_object(alloc, out, names, row)?)),
    }
}

/// Adds rows, one after the other.
///
/// # Errors
/// `AllocError` where an allocation failed.
pub fn with_rows<R: Compared>(
    alloc: Global,
    output: Output,
    words: (&str, &str),
    names: (&Names, &Names),
    rows: &[R],
) -> Result<Output, AllocError>
    ensures form { IfOk result (λ new. form_of new ≡ form_of output) }
    ensures bytes { IfOk result (λ new. bytes_of new ≡ bytes_of output ++ flat_map
        (λ row. row_bytes (form_of output)
        (R.line words.entry.0.now words.entry.1.now names.entry.0.now names.entry.1.now row)
        (R.members names.entry.0.now names.entry.1.now row)) rows.now) }
{
    let mut written = output;
    for row in rows {
        written = with_row(alloc, written, words, names, row)?;
    }
    Ok(written)
}
