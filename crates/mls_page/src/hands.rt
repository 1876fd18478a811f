//! How content could flow by one access, as a drawing: from objects to the subjects that could see them, and from these
//! to the objects that they could alter.
use crate::boxes::{begin_drawing, box_line, end_drawing, shape};
use mls_grid::{Cell, Grid, Prospect};
use mls_labels::SecLabel;
use mls_lines::Names;
use mls_markup::Page;
use mls_state::State;
use mls_tables::{ObjectId, SubjectId};
use mls_wording::{push_object, push_subject};
use std::alloc::{AllocError, Global};

/// How many objects and subjects are drawn at most.
const DRAWN: usize = 12;

/// Where texts stand, the columns of objects, subjects and objects, and the ends of the lines between them.
const COLUMNS: [u64; 3] = [100, 380, 660];

const ENDS: [u64; 4] = [200, 280, 480, 560];

const WIDTH: u64 = 760;

/// The height of a row, and what is free above the first one.
const STEP: u64 = 26;

const TOP: u64 = 24;

/// What the drawing and its scrolled part are called where they aren't seen.
const CALLED: (&'static str, &'static str) = (
    "Drawing of flows",
    "Objects, the subjects that could see them, and the objects that these could alter; the grid tells the same",
);

/// Whether an access is held or could be got.
fn could(prospect: Prospect) -> bool {
    match prospect {
        Prospect::Held | Prospect::Permitted | Prospect::Brought => true,
        Prospect::Never => false,
    }
}

/// Whether content of the object of a cell could come to its subject.
fn sees(cell: &Cell) -> bool {
    could(cell.read) || could(cell.write)
}

/// Whether what the subject of a cell has could come to its object.
fn leaves(cell: &Cell) -> bool {
    could(cell.append) || could(cell.write)
}

/// The cell of an object and a subject, by their places.
fn cell_at(grid: &Grid, object: usize, subject: usize) -> Option<&Cell> {
    let begin = object.saturating_mul(grid.subjects.len());
    grid.cells.get(begin.saturating_add(subject))
}

/// Where a row's text stands.
fn height_of(row: usize) -> u64 {
    TOP.saturating_add(STEP.saturating_mul(row as u64))
}

/// A line between two rows of two columns.
fn line(
    page: &mut Page,
    class: &str,
    from: (u64, usize),
    to: (u64, usize),
) -> Result<(), AllocError> {
    let (x, u) = (from.0, to.0);
    let y = height_of(from.1).saturating_sub(4);
    let v = height_of(to.1).saturating_sub(4);
    let alloc = page.alloc();
    let drawn = format!(in alloc; "M{x} {y}L{u} {v}")?;
    shape(page, class, drawn)
}

/// The labels of the objects that are drawn.
fn labels_of(alloc: Global, state: &State, grid: &Grid) -> Result<Vec<SecLabel>, AllocError> {
    let mut labels = Vec::new(alloc);
    for o in grid.objects.iter().take(DRAWN) {
        if state.is_active(*o) {
            labels.push(state.object_label(*o))?;
        }
    }
    Ok(labels)
}

/// Whether a subject could see a drawn object whose label that of another one doesn't dominate.
fn is_down(grid: &Grid, labels: &[SecLabel], subject: usize, label: &SecLabel) -> bool {
    for (object, from) in labels.iter().enumerate() {
        if let Some(cell) = cell_at(grid, object, subject) {
            if sees(cell) && !label.dominates(from) {
                return true;
            }
        }
    }
    false
}

/// The lines of an object.
fn object_lines(
    page: &mut Page,
    grid: &Grid,
    labels: &[SecLabel],
    object: usize,
    label: &SecLabel,
) -> Result<(), AllocError> {
    for subject in 0..grid.subjects.len().min(DRAWN) {
        if let Some(cell) = cell_at(grid, object, subject) {
            if sees(cell) {
                line(page, "link", (ENDS[0], object), (ENDS[1], subject))?;
            }
            if leaves(cell) {
                let class = if is_down(grid, labels, subject, label) {
                    "link down"
                } else {
                    "link"
                };
                line(page, class, (ENDS[2], subject), (ENDS[3], object))?;
            }
        }
    }
    Ok(())
}

/// A text in a row of both columns of objects.
fn in_both(page: &mut Page, row: usize, text: &str) -> Result<(), AllocError> {
    let y = height_of(row);
    box_line(page, "from", (COLUMNS[0], y), text)?;
    box_line(page, "to", (COLUMNS[2], y), text)
}

/// The name of an object, in a row of both columns.
fn object_name(page: &mut Page, names: &Names, row: usize, o: ObjectId) -> Result<(), AllocError> {
    let mut text = String::new(page.alloc());
    push_object(&mut text, names, o)?;
    let done = in_both(page, row, &text);
    drop(text);
    done
}

/// The name of a subject, in a row.
fn subject_name(
    page: &mut Page,
    names: &Names,
    row: usize,
    s: SubjectId,
) -> Result<(), AllocError> {
    let mut text = String::new(page.alloc());
    push_subject(&mut text, names, s)?;
    let done = box_line(page, "label", (COLUMNS[1], height_of(row)), &text);
    drop(text);
    done
}

/// The names of the objects and of the subjects.
fn all_names(page: &mut Page, names: &Names, grid: &Grid) -> Result<(), AllocError> {
    for (row, o) in grid.objects.iter().take(DRAWN).enumerate() {
        object_name(page, names, row, *o)?;
    }
    for (row, s) in grid.subjects.iter().take(DRAWN).enumerate() {
        subject_name(page, names, row, *s)?;
    }
    Ok(())
}

/// The lines of objects that have these labels.
fn lines(page: &mut Page, grid: &Grid, labels: &[SecLabel]) -> Result<(), AllocError> {
    for (object, label) in labels.iter().enumerate() {
        object_lines(page, grid, labels, object, label)?;
    }
    Ok(())
}

/// All lines of a grid of a state.
fn all_lines(page: &mut Page, state: &State, grid: &Grid) -> Result<(), AllocError> {
    let labels = labels_of(page.alloc(), state, grid)?;
    let done = lines(page, grid, &labels);
    drop(labels);
    done
}

/// Appends the drawing of the first objects and subjects of a grid of a state.
///
/// # Errors
/// `AllocError` where an allocation failed.
pub(crate) fn add_hands(
    page: &mut Page,
    names: &Names,
    state: &State,
    grid: &Grid,
) -> Result<(), AllocError> {
    let rows = grid.objects.len().max(grid.subjects.len()).min(DRAWN);
    begin_drawing(page, CALLED, WIDTH, height_of(rows))?;
    all_lines(page, state, grid)?;
    all_names(page, names, grid)?;
    end_drawing(page)
}
