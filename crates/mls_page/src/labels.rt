//! The labels of a start, drawn and listed.
ghost use Rattle.std.specs.Prelude.{codes, OnOk};
ghost use Rattle.mls_page.specs.Sections.{Lists};

use crate::boxes::draw;
use crate::cell::{Cell, add_cells};
use crate::drawing::Drawing;
use crate::lattice::{Lattice, Node};
use crate::parts::{Part, add_parts};
use crate::section::{LATTICE, add_listed, add_paragraph, end_line};
use crate::shown::{begin_appendix, heaviest, lighter, rest_of};
use crate::table::{begin_table, end_table};
use crate::weight::in_order;
use mls_labels::SecLabel;
use mls_lines::Names;
use mls_markup::{Page, Tag};
use mls_review::{Holder, push_holder};
use mls_start::Start;
use mls_wording::push_security;
use std::alloc::{AllocError, Global};

/// How many labels are drawn, at most.
const DRAWN: usize = 60;

const TITLES: [&str; 3] = ["Label", "Covers", "Who and what has it"];

const CAPTION: &str = "In the state that START opens with, those that most have first";

/// The lattice of the state that a start opens with.
fn lattice_of(alloc: Global, start: &Start) -> Result<Lattice, AllocError> {
    let state = start.opening(alloc)?;
    let lattice = Lattice::of(alloc, &state);
    drop(state);
    lattice
}

/// The drawing of a lattice.
fn drawing(page: &mut Page, names: &Names, lattice: &Lattice) -> Result<(), AllocError> {
    if lattice.nodes.len() > DRAWN {
        return add_paragraph(page, "More than 60 labels are not drawn.");
    }
    let drawing = Drawing::of(page.alloc(), &lattice.nodes, &lattice.covers)?;
    let done = draw(page, names, &drawing, &lattice.nodes);
    drop(drawing);
    done
}

/// The cell of a label that a row is called by.
fn label_cell(page: &mut Page, names: &Names, label: SecLabel) -> Result<(), AllocError> {
    let mut text = String::new(page.alloc());
    push_security(&mut text, names, label)?;
    let done = add_cells(page, &[Cell::Title(&text)]);
    drop(text);
    done
}

/// The item of a label.
fn label_item(page: &mut Page, names: &Names, label: SecLabel) -> Result<(), AllocError> {
    let mut text = String::new(page.alloc());
    push_security(&mut text, names, label)?;
    let done = page.leaf(Tag::Item, &text);
    drop(text);
    done
}

/// The item of one that has a label.
fn holder_item(page: &mut Page, names: &Names, holder: &Holder) -> Result<(), AllocError> {
    let mut text = String::new(page.alloc());
    push_holder(&mut text, names, holder)?;
    let done = page.leaf(Tag::Item, &text);
    drop(text);
    done
}

/// The labels that the one at a place covers.
fn covered(
    page: &mut Page,
    names: &Names,
    lattice: &Lattice,
    place: usize,
) -> Result<(), AllocError> {
    for cover in &lattice.covers {
        if cover.upper == place {
            if let Some(lower) = lattice.nodes.get(cover.lower) {
                label_item(page, names, lower.label)?;
            }
        }
    }
    Ok(())
}

/// Who and what has a label.
fn holder_items(page: &mut Page, names: &Names, node: &Node) -> Result<(), AllocError> {
    for holder in node.named() {
        holder_item(page, names, holder)?;
    }
    let more = node.unnamed();
    if more == 0 {
        return Ok(());
    }
    let parts = [
        Part::Begin(Tag::Item),
        Part::Text("and "),
        Part::Number(more),
        Part::Text(" more"),
        Part::End,
    ];
    add_parts(page, &parts)
}

/// The row of the label at a place.
fn label_row(
    page: &mut Page,
    names: &Names,
    lattice: &Lattice,
    place: usize,
    node: &Node,
) -> Result<(), AllocError> {
    page.open(Tag::TableRow)?;
    label_cell(page, names, node.label)?;
    let begins = [
        Part::Begin(Tag::TableCell),
        Part::BeginAs(Tag::Items, "named"),
    ];
    add_parts(page, &begins)?;
    covered(page, names, lattice, place)?;
    page.close()?;
    page.close()?;
    add_parts(page, &begins)?;
    holder_items(page, names, node)?;
    add_parts(page, &[Part::End, Part::End, Part::End, Part::Line])
}

/// The table of the labels at some places.
fn label_table(
    page: &mut Page,
    names: &Names,
    lattice: &Lattice,
    places: &[usize],
) -> Result<(), AllocError> {
    begin_table(page, CAPTION, &TITLES)?;
    for place in places {
        if let Some(node) = lattice.nodes.get(*place) {
            label_row(page, names, lattice, *place, node)?;
        }
    }
    end_table(page)
}

/// The drawing of labels, and their tables.
fn label_tables(
    page: &mut Page,
    names: &Names,
    lattice: &Lattice,
    places: &[usize],
) -> Result<(), AllocError> {
    drawing(page, names, lattice)?;
    label_table(page, names, lattice, heaviest(places))?;
    let rest = rest_of(places.len());
    if rest > 0 {
        begin_appendix(page, &LATTICE, rest)?;
        label_table(page, names, lattice, lighter(places))?;
        end_line(page)?;
    }
    Ok(())
}

/// The labels of a lattice.
fn add_labels(page: &mut Page, names: &Names, lattice: &Lattice) -> Result<(), AllocError> {
    let places = in_order(page.alloc(), &lattice.nodes)?;
    let done = label_tables(page, names, lattice, &places);
    drop(places);
    done
}

/// The labels of a start's lattice.
fn add_of(page: &mut Page, names: &Names, start: &Start) -> Result<(), AllocError> {
    let lattice = lattice_of(page.alloc(), start)?;
    let done = add_labels(page, names, &lattice);
    drop(lattice);
    done
}

/// A sheet with the labels of a start.
fn lattice_sheet(alloc: Global, names: &Names, start: &Start) -> Result<Page, AllocError> {
    let mut sheet = Page::sheet(alloc);
    add_of(&mut sheet, names, start)?;
    Ok(sheet)
}

/// Appends the labels of a start.
///
/// # Errors
/// `AllocError` where an allocation failed.
pub(crate) fn add_lattice(page: &mut Page, names: &Names, start: &Start) -> Result<(), AllocError>
    ensures { OnOk result (Lists (codes "lattice") (codes "Lattice")
        (codes "mls lattice START") page.old page.new) }
{
    let sheet = lattice_sheet(page.alloc(), names, start)?;
    add_listed(page, &LATTICE, sheet)
}
