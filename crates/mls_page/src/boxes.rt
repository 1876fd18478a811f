//! The boxes and the lines of a drawing, as inline SVG.
use crate::drawing::{Drawing, LINE};
use crate::lattice::Node;
use crate::parts::{Part, add_parts};
use crate::section::end_line;
use crate::slot::{BOX, Place};
use mls_lines::Names;
use mls_markup::{Attribute, Page, Tag};
use mls_review::{Holder, push_holder};
use mls_wording::push_security;
use std::alloc::AllocError;

/// How many characters of a text fit into a box.
const FIT: usize = 28;

/// What the drawing is called where it isn't seen.
const TOLD: &str =
    "The labels by rank, with a line from each to those that it covers; the table below tells the same";

/// What its scrolled part is called.
const SCROLLED: &str = "Drawing of the labels";

/// Appends a path of a class.
pub(crate) fn shape(page: &mut Page, class: &str, drawn: String) -> Result<(), AllocError> {
    let attributes = [
        (Attribute::Class, class),
        (Attribute::Drawn, drawn.as_str()),
    ];
    let done = page.open_all(Tag::Path, &attributes);
    drop(drawn);
    done?;
    end_line(page)
}

/// A line between two points.
fn stroke(page: &mut Page, from: (u64, u64), to: (u64, u64)) -> Result<(), AllocError> {
    let (x, y) = from;
    let (u, v) = to;
    let alloc = page.alloc();
    let drawn = format!(in alloc; "M{x} {y}L{u} {v}")?;
    shape(page, "link", drawn)
}

/// The lines of a drawing.
fn strokes(page: &mut Page, drawing: &Drawing) -> Result<(), AllocError> {
    for link in &drawing.links {
        let low = drawing.at(link.low);
        let high = drawing.at(link.high);
        stroke(page, (low.x, low.top), (high.x, high.bottom))?;
    }
    for (index, slot) in drawing.slots.iter().enumerate() {
        if slot.node.is_none() {
            let pass = drawing.at(index);
            stroke(page, (pass.x, pass.bottom), (pass.x, pass.top))?;
        }
    }
    Ok(())
}

/// As much of a text as fits into a box.
fn front_of(text: &str) -> &str {
    text.get(..FIT).unwrap_or(text)
}

/// What stands in place of what doesn't fit.
fn dots_of(text: &str) -> &'static str {
    match text.get(..FIT) {
        Some(front) if front.len() < text.len() => "\u{2026}",
        _ => "",
    }
}

/// A line of text in a box, as far as it fits.
pub(crate) fn box_line(
    page: &mut Page,
    class: &str,
    at: (u64, u64),
    text: &str,
) -> Result<(), AllocError> {
    let (x, y) = at;
    let alloc = page.alloc();
    let place = format!(in alloc; "translate({x} {y})")?;
    let attributes = [
        (Attribute::Class, class),
        (Attribute::Transform, place.as_str()),
    ];
    let done = page.open_all(Tag::Text, &attributes);
    drop(place);
    done?;
    let parts = [
        Part::Text(front_of(text)),
        Part::Text(dots_of(text)),
        Part::End,
        Part::Line,
    ];
    add_parts(page, &parts)
}

/// The outline of a box.
fn outline(page: &mut Page, place: Place) -> Result<(), AllocError> {
    let left = place.x.saturating_sub(BOX / 2);
    let top = place.top;
    let height = place.bottom.saturating_sub(top);
    let alloc = page.alloc();
    let drawn = format!(in alloc; "M{left} {top}h{BOX}v{height}h-{BOX}z")?;
    shape(page, "box", drawn)
}

/// A label, at a place.
fn label_line(
    page: &mut Page,
    names: &Names,
    node: &Node,
    at: (u64, u64),
) -> Result<(), AllocError> {
    let mut text = String::new(page.alloc());
    push_security(&mut text, names, node.label)?;
    let done = box_line(page, "label", at, &text);
    drop(text);
    done
}

/// One that has a label, at a place.
fn holder_line(
    page: &mut Page,
    names: &Names,
    holder: &Holder,
    at: (u64, u64),
) -> Result<(), AllocError> {
    let mut text = String::new(page.alloc());
    push_holder(&mut text, names, holder)?;
    let done = box_line(page, "holder", at, &text);
    drop(text);
    done
}

/// How many more have a label, at a place, where there are such.
fn more_line(page: &mut Page, more: u64, at: (u64, u64)) -> Result<(), AllocError> {
    if more == 0 {
        return Ok(());
    }
    let alloc = page.alloc();
    let text = format!(in alloc; "and {more} more")?;
    let done = box_line(page, "holder", at, &text);
    drop(text);
    done
}

/// A label's box.
fn node_box(page: &mut Page, names: &Names, node: &Node, place: Place) -> Result<(), AllocError> {
    outline(page, place)?;
    let mut y = place.top.saturating_add(LINE);
    label_line(page, names, node, (place.x, y))?;
    for holder in node.named() {
        y = y.saturating_add(LINE);
        holder_line(page, names, holder, (place.x, y))?;
    }
    more_line(page, node.unnamed(), (place.x, y.saturating_add(LINE)))
}

/// The beginning of what can be scrolled, where it is wider than the window, and in it of what is as wide as a drawing.
fn sheet(page: &mut Page, scrolled: &'static str, width: u64) -> Result<(), AllocError> {
    let wide = [
        (Attribute::Class, "wide"),
        (Attribute::TabIndex, "0"),
        (Attribute::Role, "group"),
        (Attribute::AriaLabel, scrolled),
    ];
    page.open_all(Tag::Division, &wide)?;
    page.line()?;
    let alloc = page.alloc();
    let broad = format!(in alloc; "width:{width}px")?;
    let attributes = [
        (Attribute::Class, "sheet"),
        (Attribute::Style, broad.as_str()),
    ];
    let done = page.open_all(Tag::Division, &attributes);
    drop(broad);
    done?;
    page.line()
}

/// The beginning of a drawing's lines and texts.
fn extent(page: &mut Page, told: &'static str, width: u64, height: u64) -> Result<(), AllocError> {
    let alloc = page.alloc();
    let extent = format!(in alloc; "0 0 {width} {height}")?;
    let attributes = [
        (Attribute::Class, "lattice"),
        (Attribute::Role, "img"),
        (Attribute::AriaLabel, told),
        (Attribute::Extent, extent.as_str()),
    ];
    let done = page.open_all(Tag::Svg, &attributes);
    drop(extent);
    done?;
    page.line()
}

/// The beginning of a drawing of a width and a height, with what it and its scrolled part are called.
pub(crate) fn begin_drawing(
    page: &mut Page,
    called: (&'static str, &'static str),
    width: u64,
    height: u64,
) -> Result<(), AllocError> {
    let (scrolled, told) = called;
    sheet(page, scrolled, width)?;
    extent(page, told, width, height)
}

/// The end of a drawing.
pub(crate) fn end_drawing(page: &mut Page) -> Result<(), AllocError> {
    add_parts(
        page,
        &[Part::End, Part::Line, Part::End, Part::End, Part::Line],
    )
}

/// A drawing of labels.
pub(crate) fn draw(
    page: &mut Page,
    names: &Names,
    drawing: &Drawing,
    nodes: &[Node],
) -> Result<(), AllocError> {
    begin_drawing(page, (SCROLLED, TOLD), drawing.width, drawing.height)?;
    strokes(page, drawing)?;
    for (index, slot) in drawing.slots.iter().enumerate() {
        if let Some(node) = slot.node.and_then(|place| nodes.get(place)) {
            node_box(page, names, node, drawing.at(index))?;
        }
    }
    end_drawing(page)
}
