//! The bytes of an answer, row by row.
ghost use Rattle.std.specs.Prelude.{◌≡◌, ◌∷◌, ◌++◌, [], IfOk};
ghost use Rattle.json.specs.Print.{print};
ghost use Rattle.mls_rows.specs.Members.{Adds, line_of, object_of};
ghost use Rattle.mls_rows.specs.Rows.{bytes_of, form_of, row_bytes};
ghost use Rattle.mls_rows.specs.Times.{rows_lent};

use crate::form::Form;
use crate::told::Told;
use json::Writer;
use mls_lines::Names;
use mls_marks::Marks;
use std::alloc::{AllocError, Global};

/// What was written of an answer so far, in its form.
#[derive(Drop)]
pub enum Output {
    Text(String),
    Json(Vec<u8>),
}

/// What a writer has, with a newline behind it.
pub(crate) fn ended(writer: Writer) -> Result<Vec<u8>, AllocError>
    ensures { IfOk result (λ out. out.items ≡ writer.before ++ print writer.tokens ++ 10 ∷ []) }
{
    let mut out = writer.into_inner();
    out.push(b'\n')?;
    Ok(out)
}

/// Writes the object of a row.
pub(crate) fn write_row<R: Told>(
    writer: &mut Writer,
    names: &Names,
    marks: Option<&Marks>,
    row: &R,
) -> Result<(), AllocError>
    ensures { Adds result writer.old writer.new (object_of (R.members names.now (rows_lent marks.entry) row.now)) }
{
    writer.begin_object()?;
    row.write_members(writer, names, marks)?;
    writer.end_object()
}

/// Appends the object of a row, in a line.
fn push_object<R: Told>(
    out: Vec<u8>,
    names: &Names,
    marks: Option<&Marks>,
    row: &R,
) -> Result<Vec<u8>, AllocError>
    ensures { IfOk result (λ new. new.items
        ≡ out.items ++ line_of (R.members names.now (rows_lent marks.entry) row.now)) }
{
    let mut writer = Writer::new(out);
    write_row(&mut writer, names, marks, row)?;
    ended(writer)
}

impl Output {
    /// Nothing, in this form.
    pub fn new(alloc: Global, form: Form) -> Output
        ensures form { form_of result ≡ form }
        ensures bytes { bytes_of result ≡ [] }
    {
        match form {
            Form::Text => Output::Text(String::new(alloc)),
            Form::Json => Output::Json(Vec::new(alloc)),
        }
    }

    /// Adds a row.
    ///
    /// # Errors
    /// `AllocError` where an allocation failed.
    pub fn with<R: Told>(
        self,
        names: &Names,
        marks: Option<&Marks>,
        row: &R,
    ) -> Result<Output, AllocError>
        ensures form { IfOk result (λ new. form_of new ≡ form_of self) }
        ensures bytes { IfOk result (λ new. bytes_of new ≡ bytes_of self ++ row_bytes (form_of self)
            (R.line names.now (rows_lent marks.entry) row.now) (R.members names.now (rows_lent marks.entry) row.now)) }
    {
        match self {
            Output::Text(mut text) => {
                row.push_line(&mut text, names, marks)?;
                Ok(Output::Text(text))
            }
            Output::Json(out) => Ok(Output::Json(push_object(out, names, marks, row)?)),
        }
    }

    /// The bytes.
    pub fn into_bytes(self) -> Vec<u8>
        ensures { result.items ≡ bytes_of self }
    {
        match self {
            Output::Text(text) => text.into_bytes(),
            Output::Json(out) => out,
        }
    }
}
