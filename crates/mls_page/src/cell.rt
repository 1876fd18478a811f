//! The cells of a table's rows.
ghost use Rattle.std.specs.Prelude.{◌≡◌, ◌∷◌, [], OnOk};
ghost use Rattle.mls_markup.specs.Drafts.{added};
ghost use Rattle.mls_markup.specs.Trees.{all_of};
ghost use Rattle.mls_page.specs.Bars.{class_of};
ghost use Rattle.mls_page.specs.Tables.{access_cell, cell_of, name_cell, number_cell, object_cell, row, share_cell};
ghost use Rattle.mls_wording.specs.Wording.{subject_text};

use crate::bar::{Colour, add_bar};
use crate::parts::{Part, add_parts};
use crate::section::end_line;
use mls_lines::Names;
use mls_markup::{Attribute, Page, Tag};
use mls_requests::mode_word;
use mls_tables::{Mode, ObjectId, SubjectId};
use std::alloc::AllocError;

/// A cell of a row.
#[derive(Clone, Copy)]
pub(crate) enum Cell<'a> {
    /// None, where the table doesn't have its column.
    Nothing,
    /// What the row is called by: a text, a subject, or an access.
    Title(&'a str),
    Subject(&'a Names, SubjectId),
    Access(&'a Names, (SubjectId, ObjectId, Mode)),
    Text(&'a str),
    Object(&'a Names, ObjectId),
    Digest(&'a str),
    Number(u64),
    /// A number with a bar of a colour, which is as long as the number is of the greatest: this comes first.
    Share(Colour, u64, u64),
}

/// The cell of a text that a row is called by.
#[tactic(auto, unfolding(crate::specs::Tables::name_cell))]
fn title_cell(page: &mut Page, text: &str) -> Result<(), AllocError>
    ensures { OnOk result (page.new ≡ added page.old (name_cell text.now)) }
{
    let heading = Part::BeginWith(Tag::TableHeading, Attribute::Scope, "row");
    add_parts(page, &[heading, Part::Text(text), Part::End])
}

/// The cell of a subject that a row is called by.
#[tactic(auto, unfolding(crate::specs::Tables::name_cell))]
fn subject_cell(page: &mut Page, names: &Names, s: SubjectId) -> Result<(), AllocError>
    ensures { OnOk result (page.new ≡ added page.old (name_cell (subject_text names.now s))) }
{
    let heading = Part::BeginWith(Tag::TableHeading, Attribute::Scope, "row");
    add_parts(page, &[heading, Part::Subject(names, s), Part::End])
}

/// The cell of an access that a row is called by: `SUBJECT MODE OBJECT`.
#[tactic(auto, unfolding(crate::specs::Tables::access_cell))]
fn access_cell(
    page: &mut Page,
    names: &Names,
    access: (SubjectId, ObjectId, Mode),
) -> Result<(), AllocError>
    ensures { OnOk result (page.new ≡ added page.old (access_cell names.now access)) }
{
    let (s, o, x) = access;
    let parts = [
        Part::BeginWith(Tag::TableHeading, Attribute::Scope, "row"),
        Part::Subject(names, s),
        Part::Text(" "),
        Part::Text(mode_word(x)),
        Part::Text(" "),
        Part::Object(names, o),
        Part::End,
    ];
    add_parts(page, &parts)
}

/// The cell of an object.
#[tactic(auto, unfolding(crate::specs::Tables::object_cell))]
fn object_cell(page: &mut Page, names: &Names, o: ObjectId) -> Result<(), AllocError>
    ensures { OnOk result (page.new ≡ added page.old (object_cell names.now o)) }
{
    add_parts(
        page,
        &[
            Part::Begin(Tag::TableCell),
            Part::Object(names, o),
            Part::End,
        ],
    )
}

/// The cell of a number.
#[tactic(auto, unfolding(crate::specs::Tables::number_cell))]
fn number_cell(page: &mut Page, number: u64) -> Result<(), AllocError>
    ensures { OnOk result (page.new ≡ added page.old (number_cell number)) }
{
    page.open_as(Tag::TableCell, "number")?;
    page.number(number)?;
    page.close()
}

/// The cell of a number, with a bar as long as the number is of the greatest.
#[tactic(auto, unfolding(crate::specs::Tables::share_cell))]
fn share_cell(page: &mut Page, colour: Colour, greatest: u64, length: u64) -> Result<(), AllocError>
    ensures { OnOk result (page.new ≡ added page.old (share_cell (class_of colour) greatest length)) }
{
    page.open_as(Tag::TableCell, "number")?;
    page.number(length)?;
    add_bar(page, colour, greatest, length)?;
    page.close()
}

/// Appends a cell.
fn add_cell(page: &mut Page, cell: &Cell<'_>) -> Result<(), AllocError>
    ensures { OnOk result (page.new ≡ added page.old (cell_of cell.now)) }
{
    match cell {
        Cell::Nothing => Ok(()),
        Cell::Title(text) => title_cell(page, text),
        Cell::Subject(names, s) => subject_cell(page, names, *s),
        Cell::Access(names, access) => access_cell(page, names, *access),
        Cell::Text(text) => page.leaf(Tag::TableCell, text),
        Cell::Object(names, o) => object_cell(page, names, *o),
        Cell::Digest(text) => page.leaf_as(Tag::TableCell, "digest", text),
        Cell::Number(number) => number_cell(page, *number),
        Cell::Share(colour, greatest, number) => share_cell(page, *colour, *greatest, *number),
    }
}

/// Appends cells, one after the other.
///
/// # Errors
/// `AllocError` where an allocation failed.
pub(crate) fn add_cells(page: &mut Page, cells: &[Cell<'_>]) -> Result<(), AllocError>
    ensures { OnOk result (page.new ≡ added page.old (all_of cell_of cells.now)) }
{
    for cell in cells {
        add_cell(page, cell)?;
    }
    Ok(())
}

/// Appends a row of cells.
///
/// # Errors
/// `AllocError` where an allocation failed.
#[tactic(auto, unfolding(crate::specs::Tables::row))]
pub(crate) fn add_row(page: &mut Page, cells: &[Cell<'_>]) -> Result<(), AllocError>
    ensures { OnOk result (page.new ≡ added page.old (row (all_of cell_of cells.now))) }
{
    page.open(Tag::TableRow)?;
    add_cells(page, cells)?;
    end_line(page)
}
