//! Rows of answers that need no names.
ghost use Rattle.std.specs.Prelude.{◌≡◌, ◌++◌, ℕ, List, string_bytes, IfOk, OnOk};
ghost use Rattle.json.specs.Token.{Token};
ghost use Rattle.mls_rows.specs.Members.{Adds, line_of, object_of};
ghost use Rattle.mls_rows.specs.Rows.{bytes_of, form_of, row_bytes};

use crate::output::{Output, ended};
use json::Writer;
use std::alloc::AllocError;

/// A row of an answer that is told without any names.
pub trait Plain {
    ghost line: { Self → List ℕ };

    ghost members: { Self → List Token };

    /// Appends the row's line.
    ///
    /// # Errors
    /// `AllocError` where an allocation failed. The text may then have a part of it.
    fn push_line(&self, text: &mut String) -> Result<(), AllocError>
        ensures { OnOk result (string_bytes text.new ≡ string_bytes text.old ++ line self.now) };

    /// Writes the members of the row's object.
    ///
    /// # Errors
    /// `AllocError` where an allocation failed. The writer may then have a part of them.
    fn write_members(&self, writer: &mut Writer) -> Result<(), AllocError>
        ensures { Adds result writer.old writer.new (members self.now) };
}

/// Writes the object of a row.
fn write_plain<R: Plain>(writer: &mut Writer, row: &R) -> Result<(), AllocError>
    ensures { Adds result writer.old writer.new (object_of (R.members row.now)) }
{
    writer.begin_object()?;
    row.write_members(writer)?;
    writer.end_object()
}

/// Appends the object of a row, in a line.
fn push_plain<R: Plain>(out: Vec<u8>, row: &R) -> Result<Vec<u8>, AllocError>
    ensures { IfOk result (λ new. new.items ≡ out.items ++ line_of (R.members row.now)) }
{
    let mut writer = Writer::new(out);
    write_plain(&mut writer, row)?;
    ended(writer)
}

impl Output {
    /// Adds a row that needs no names.
    ///
    /// # Errors
    /// `AllocError` where an allocation failed.
    pub fn with_plain<R: Plain>(self, row: &R) -> Result<Output, AllocError>
        ensures form { IfOk result (λ new. form_of new ≡ form_of self) }
        ensures bytes { IfOk result (λ new. bytes_of new
            ≡ bytes_of self ++ row_bytes (form_of self) (R.line row.now) (R.members row.now)) }
    {
        match self {
            Output::Text(mut text) => {
                row.push_line(&mut text)?;
                Ok(Output::Text(text))
            }
            Output::Json(out) => Ok(Output::Json(push_plain(out, row)?)),
        }
    }
}
