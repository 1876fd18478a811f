//! Rows with their kinds: the first member of a row's object says of which kind it is.
ghost use Rattle.std.specs.Prelude.{◌≡◌, ◌∷◌, ◌++◌, [], codes, IfOk};
ghost use Rattle.std.specs.List.{flat_map};
ghost use Rattle.json.specs.Print.{print};
ghost use Rattle.mls_rows.specs.Members.{Adds, line_of, object_of, text_member};
ghost use Rattle.mls_rows.specs.Rows.{bytes_of, form_of};
ghost use Rattle.mls_rows.specs.Times.{rows_lent};
ghost use Rattle.mls_shared_rows.specs.Kinds.{kind_bytes, kind_members};

use json::Writer;
use mls_lines::Names;
use mls_marks::Marks;
use mls_rows::{Output, Told, write_text};
use std::alloc::AllocError;

/// What a writer has, with a newline behind it.
fn ended(writer: Writer) -> Result<Vec<u8>, AllocError>
    ensures { IfOk result (λ out. out.items ≡ writer.before ++ print writer.tokens ++ 10 ∷ []) }
{
    let mut out = writer.into_inner();
    out.push(b'\n')?;
    Ok(out)
}

/// Writes the kind of a row.
fn write_kind(writer: &mut Writer, kind: &str) -> Result<(), AllocError>
    ensures { Adds result writer.old writer.new (text_member (codes "kind") kind.now) }
{
    write_text(writer, "kind", kind)
}

/// Writes the object of a row with its kind.
fn write_row<R: Told>(
    writer: &mut Writer,
    names: &Names,
    marks: Option<&Marks>,
    kind: &str,
    row: &R,
) -> Result<(), AllocError>
    ensures { Adds result writer.old writer.new
        (object_of (kind_members kind.now (R.members names.now (rows_lent marks.entry) row.now))) }
{
    writer.begin_object()?;
    write_kind(writer, kind)?;
    row.write_members(writer, names, marks)?;
    writer.end_object()
}

/// Appends the object of a row with its kind, in a line.
fn push_object<R: Told>(
    out: Vec<u8>,
    names: &Names,
    marks: Option<&Marks>,
    kind: &str,
    row: &R,
) -> Result<Vec<u8>, AllocError>
    ensures { IfOk result (λ new. new.items
        ≡ out.items ++ line_of (kind_members kind.now (R.members names.now (rows_lent marks.entry) row.now))) }
{
    let mut writer = Writer::new(out);
    write_row(&mut writer, names, marks, kind, row)?;
    ended(writer)
}

/// Adds a row of a kind: its line, or its object, which says the kind first.
///
/// # Errors
/// `AllocError` where an allocation failed.
pub fn with_kind<R: Told>(
    output: Output,
    names: &Names,
    marks: Option<&Marks>,
    kind: &str,
    row: &R,
) -> Result<Output, AllocError>
    ensures form { IfOk result (λ new. form_of new ≡ form_of output) }
    ensures bytes { IfOk result (λ new. bytes_of new ≡ bytes_of output ++ kind_bytes (form_of output) kind.now
        (R.line names.now (rows_lent marks.entry) row.now) (R.members names.now (rows_lent marks.entry) row.now)) }
{
    match output {
        Output::Text(mut text) => {
            row.push_line(&mut text, names, marks)?;
            Ok(Output::Text(text))
        }
        Output::Json(out) => Ok(Output::Json(push_object(out, names, marks, kind, row)?)),
    }
}

/// Adds rows of a kind, one after the other.
///
/// # Errors
/// `AllocError` where an allocation failed.
pub fn with_kinds<R: Told>(
    output: Output,
    names: &Names,
    marks: Option<&Marks>,
    kind: &str,
    rows: &[R],
) -> Result<Output, AllocError>
    ensures form { IfOk result (λ new. form_of new ≡ form_of output) }
    ensures bytes { IfOk result (λ new. bytes_of new ≡ bytes_of output ++ flat_map
        (λ row. kind_bytes (form_of output) kind.now (R.line names.now (rows_lent marks.entry) row)
        (R.members names.now (rows_lent marks.entry) row)) rows.now) }
{
    let mut written = output;
    for row in rows {
        written = with_kind(written, names, marks, kind, row)?;
    }
    Ok(written)
}
