//! Rows of answers that tell of subjects, objects and entries.
ghost use Rattle.std.specs.Prelude.{◌≡◌, ◌++◌, ℕ, List, Option, string_bytes, OnOk};
ghost use Rattle.json.specs.Token.{Token};
ghost use Rattle.mls_lines.specs.Names.{Names as TheNames};
ghost use Rattle.mls_marks.specs.declared.row.Row.{Row as Mark};
ghost use Rattle.mls_rows.specs.Members.{Adds};
ghost use Rattle.mls_rows.specs.Times.{rows_lent};

use json::Writer;
use mls_lines::Names;
use mls_marks::Marks;
use std::alloc::AllocError;

/// A row of an answer, which is told by the names of a start, and by the times of entries where there are marks.
pub trait Told {
    ghost line: { TheNames → Option (List Mark) → Self → List ℕ };

    ghost members: { TheNames → Option (List Mark) → Self → List Token };

    /// Appends the row's line.
    ///
    /// # Errors
    /// `AllocError` where an allocation failed. The text may then have a part of it.
    fn push_line(
        &self,
        text: &mut String,
        names: &Names,
        marks: Option<&Marks>,
    ) -> Result<(), AllocError>
        ensures { OnOk result (string_bytes text.new
            ≡ string_bytes text.old ++ line names.now (rows_lent marks.entry) self.now) };

    /// Writes the members of the row's object.
    ///
    /// # Errors
    /// `AllocError` where an allocation failed. The writer may then have a part of them.
    fn write_members(
        &self,
        writer: &mut Writer,
        names: &Names,
        marks: Option<&Marks>,
    ) -> Result<(), AllocError>
        ensures { Adds result writer.old writer.new (members names.now (rows_lent marks.entry) self.now) };
}
