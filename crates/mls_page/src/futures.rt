//! What could come about.
ghost use Rattle.std.specs.Prelude.{codes, OnOk};
ghost use Rattle.mls_page.specs.Sections.{Shows};

use crate::grid::{add_grid, sign_at};
use crate::hands::add_hands;
use crate::parts::{Part, add_parts};
use crate::section::{FUTURES, add_shown, end_line};
use mls_grid::{Grid, Prospect};
use mls_lines::Names;
use mls_markup::{Page, Tag};
use mls_state::State;
use std::alloc::{AllocError, Global};

const COMMAND: &str = "mls who --could --journal J START OBJECT";

const ACTING: &str =
    " lists it all of an object. After the last entry: all act that are not trusted, and nobody else does. So a \
     trusted subject has letters only for what it holds, even where mls who says yes.";

const FLOWS: &str =
    "Flows by one access that is held or could be got, of the first objects and subjects of the grid: content of an \
     object on the left could come to a subject that a line leads to, and from it to an object on the right. A dashed \
     line goes down: the object's label does not dominate that of an object on the left that the subject could see. ";

const CAPTION: &str = "Objects by subjects, those with most + first";

const PLACES: &str = "The four places of a cell are for execute, read, append and write:";

/// What the signs say, each in a line.
const LEGEND: [(Prospect, &str); 4] = [
    (Prospect::Held, "held now"),
    (Prospect::Permitted, "not held; permitted, and could be got"),
    (
        Prospect::Brought,
        "not permitted now; could be got, once somebody who acts gives the permission",
    ),
    (Prospect::Never, "not held; never, whatever they do"),
];

/// What the section is about.
fn source(page: &mut Page) -> Result<(), AllocError> {
    let parts = [
        Part::BeginAs(Tag::Paragraph, "source"),
        Part::Leaf(Tag::Code, COMMAND),
        Part::Text(ACTING),
        Part::End,
        Part::Line,
    ];
    add_parts(page, &parts)
}

/// The line of a sign, which is there of each mode.
fn sign_line(page: &mut Page, prospect: Prospect, told: &str) -> Result<(), AllocError> {
    let parts = [
        Part::Begin(Tag::Item),
        Part::Begin(Tag::Code),
        sign_at(0, prospect),
        sign_at(1, prospect),
        sign_at(2, prospect),
        sign_at(3, prospect),
        Part::End,
        Part::Text(": "),
        Part::Text(told),
        Part::End,
        Part::Line,
    ];
    add_parts(page, &parts)
}

/// What the signs say.
fn legend(page: &mut Page) -> Result<(), AllocError> {
    let parts = [
        Part::Leaf(Tag::Paragraph, PLACES),
        Part::Line,
        Part::BeginAs(Tag::Items, "legend"),
        Part::Line,
    ];
    add_parts(page, &parts)?;
    for (prospect, told) in &LEGEND {
        sign_line(page, *prospect, told)?;
    }
    end_line(page)
}

/// How many objects and subjects the grid doesn't have, where there are such.
fn more(page: &mut Page, grid: &Grid) -> Result<(), AllocError> {
    if grid.more_objects == 0 && grid.more_subjects == 0 {
        return Ok(());
    }
    let parts = [
        Part::BeginAs(Tag::Paragraph, "more"),
        Part::Number(grid.more_objects),
        Part::Text(" more objects and "),
        Part::Number(grid.more_subjects),
        Part::Text(" more subjects, each with less: "),
        Part::Leaf(Tag::Code, COMMAND),
        Part::Text(" lists all subjects of an object."),
        Part::End,
        Part::Line,
    ];
    add_parts(page, &parts)
}

/// What the drawing of flows is of.
fn flows(page: &mut Page) -> Result<(), AllocError> {
    let parts = [
        Part::BeginAs(Tag::Paragraph, "source"),
        Part::Text(FLOWS),
        Part::Leaf(Tag::Code, "mls flow --journal J START OBJECT"),
        Part::Text(" tells where content of an object could flow by many."),
        Part::End,
        Part::Line,
    ];
    add_parts(page, &parts)
}

/// Appends what is under the heading.
fn add_prospects(
    page: &mut Page,
    names: &Names,
    state: &State,
    grid: &Grid,
) -> Result<(), AllocError> {
    source(page)?;
    legend(page)?;
    add_grid(page, names, CAPTION, grid)?;
    more(page, grid)?;
    flows(page)?;
    add_hands(page, names, state, grid)
}

/// A sheet with what could come about.
fn futures_sheet(
    alloc: Global,
    names: &Names,
    state: &State,
    grid: &Grid,
) -> Result<Page, AllocError> {
    let mut sheet = Page::sheet(alloc);
    add_prospects(&mut sheet, names, state, grid)?;
    Ok(sheet)
}

/// Appends what could come about: a grid of objects and subjects of a state, the heaviest first, and a drawing of flows.
///
/// # Errors
/// `AllocError` where an allocation failed.
pub(crate) fn add_futures(
    page: &mut Page,
    names: &Names,
    state: &State,
    grid: &Grid,
) -> Result<(), AllocError>
    ensures { OnOk result (Shows (codes "futures") (codes "What could come about") page.old page.new) }
{
    let sheet = futures_sheet(page.alloc(), names, state, grid)?;
    add_shown(page, &FUTURES, sheet)
}
