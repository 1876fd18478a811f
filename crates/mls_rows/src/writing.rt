//! Rows, written one after the other.
ghost use Rattle.std.specs.Prelude.{◌≡◌, IfOk};
ghost use Rattle.std.specs.List.{flat_map};
ghost use Rattle.mls_rows.specs.Members.{Adds, list_member, object_of};
ghost use Rattle.mls_rows.specs.Rows.{bytes_of, form_of, row_bytes};
ghost use Rattle.mls_rows.specs.Times.{rows_lent};

use crate::form::Form;
use crate::output::{Output, write_row};
use crate::told::Told;
use json::Writer;
use mls_lines::Names;
use mls_marks::Marks;
use std::alloc::{AllocError, Global};

/// Writes the objects of rows.
fn write_rows<R: Told>(
    writer: &mut Writer,
    names: &Names,
    marks: Option<&Marks>,
    rows: &[R],
) -> Result<(), AllocError>
    ensures { Adds result writer.old writer.new
        (flat_map (λ row. object_of (R.members names.now (rows_lent marks.entry) row)) rows.now) }
{
    for row in rows {
        write_row(writer, names, marks, row)?;
    }
    Ok(())
}

/// Writes a member that is a list of the objects of rows.
///
/// # Errors
/// `AllocError` where an allocation failed.
pub fn write_list<R: Told>(
    writer: &mut Writer,
    at: &str,
    names: &Names,
    marks: Option<&Marks>,
    rows: &[R],
) -> Result<(), AllocError>
    ensures { Adds result writer.old writer.new (list_member at.now
        (flat_map (λ row. object_of (R.members names.now (rows_lent marks.entry) row)) rows.now)) }
{
    writer.key(at)?;
    writer.begin_array()?;
    write_rows(writer, names, marks, rows)?;
    writer.end_array()
}

/// Rows, in this form, each by the names of a start, with times where there are marks.
///
/// # Errors
/// `AllocError` where an allocation failed.
pub fn written<R: Told>(
    alloc: Global,
    form: Form,
    names: &Names,
    marks: Option<&Marks>,
    rows: &[R],
) -> Result<Output, AllocError>
    ensures form { IfOk result (λ new. form_of new ≡ form) }
    ensures bytes { IfOk result (λ new. bytes_of new ≡ flat_map
        (λ row. row_bytes form (R.line names.now (rows_lent marks.entry) row)
        (R.members names.now (rows_lent marks.entry) row)) rows.now) }
{
    let mut output = Output::new(alloc, form);
    for row in rows {
        output = output.with(names, marks, row)?;
    }
    Ok(output)
}
