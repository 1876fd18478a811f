//! A grid of objects and subjects, object by object.
use crate::parts::{Part, add_parts};
use crate::section::end_line;
use crate::table::{begin_body, end_table};
use mls_grid::{Cell, Grid, Prospect};
use mls_lines::Names;
use mls_markup::{Attribute, Page, Tag};
use mls_tables::{ObjectId, SubjectId};
use std::alloc::AllocError;

/// What can be scrolled, where the grid is wider than the window.
const WIDE: [(Attribute, &str); 4] = [
    (Attribute::Class, "wide grid"),
    (Attribute::TabIndex, "0"),
    (Attribute::Role, "group"),
    (Attribute::AriaLabel, "Grid of objects and subjects"),
];

/// What stands at the place of a mode that isn't held, and of one that is.
fn letters(place: usize) -> (&'static str, &'static str) {
    match place {
        0 => ("e", "E"),
        1 => ("r", "R"),
        2 => ("a", "A"),
        _ => ("w", "W"),
    }
}

/// What is to be expected of a mode, as a sign at its place.
pub(crate) fn sign_at(place: usize, prospect: Prospect) -> Part<'static> {
    let (small, great) = letters(place);
    match prospect {
        Prospect::Held => Part::LeafAs(Tag::Span, "now", great),
        Prospect::Permitted => Part::Text(small),
        Prospect::Brought => Part::LeafAs(Tag::Span, "new", "+"),
        Prospect::Never => Part::LeafAs(Tag::Span, "never", "\u{b7}"),
    }
}

/// What a cell tells of the four modes.
fn cell(page: &mut Page, cell: &Cell) -> Result<(), AllocError> {
    let parts = [
        Part::Begin(Tag::TableCell),
        sign_at(0, cell.execute),
        sign_at(1, cell.read),
        sign_at(2, cell.append),
        sign_at(3, cell.write),
        Part::End,
    ];
    add_parts(page, &parts)
}

/// The heading of a subject's column.
fn subject_heading(page: &mut Page, names: &Names, s: SubjectId) -> Result<(), AllocError> {
    let parts = [
        Part::BeginWith(Tag::TableHeading, Attribute::Scope, "col"),
        Part::Begin(Tag::Division),
        Part::Subject(names, s),
        Part::End,
        Part::End,
    ];
    add_parts(page, &parts)
}

/// The headings of all columns, and the beginning of the rows.
fn headings(page: &mut Page, names: &Names, subjects: &[SubjectId]) -> Result<(), AllocError> {
    let parts = [
        Part::Begin(Tag::TableHead),
        Part::Begin(Tag::TableRow),
        Part::BeginWith(Tag::TableHeading, Attribute::Scope, "col"),
        Part::Text("Object"),
        Part::End,
    ];
    add_parts(page, &parts)?;
    for s in subjects {
        subject_heading(page, names, *s)?;
    }
    begin_body(page)
}

/// The row of an object, which has these cells.
fn object_row(
    page: &mut Page,
    names: &Names,
    o: ObjectId,
    cells: &[Cell],
) -> Result<(), AllocError> {
    let parts = [
        Part::Begin(Tag::TableRow),
        Part::BeginWith(Tag::TableHeading, Attribute::Scope, "row"),
        Part::Object(names, o),
        Part::End,
    ];
    add_parts(page, &parts)?;
    for one in cells {
        cell(page, one)?;
    }
    end_line(page)
}

/// The cells of the object at a place.
fn cells_at(grid: &Grid, place: usize) -> &[Cell] {
    let count = grid.subjects.len();
    let begin = place.saturating_mul(count);
    grid.cells
        .get(begin..begin.saturating_add(count))
        .unwrap_or(&[])
}

/// The rows of all objects.
fn object_rows(page: &mut Page, names: &Names, grid: &Grid) -> Result<(), AllocError> {
    for (place, o) in grid.objects.iter().enumerate() {
        object_row(page, names, *o, cells_at(grid, place))?;
    }
    Ok(())
}

/// The grid.
pub(crate) fn add_grid(
    page: &mut Page,
    names: &Names,
    caption: &str,
    grid: &Grid,
) -> Result<(), AllocError> {
    page.open_all(Tag::Division, &WIDE)?;
    let parts = [
        Part::Line,
        Part::Begin(Tag::Table),
        Part::Leaf(Tag::Caption, caption),
        Part::Line,
    ];
    add_parts(page, &parts)?;
    headings(page, names, &grid.subjects)?;
    object_rows(page, names, grid)?;
    end_table(page)?;
    end_line(page)
}
