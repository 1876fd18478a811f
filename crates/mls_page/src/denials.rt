//! The entries that were denied, by subject, object and reason, and why the last of each was.
ghost use Rattle.std.specs.Prelude.{codes, OnOk};
ghost use Rattle.mls_page.specs.Sections.{Lists};

use crate::bar::Colour;
use crate::cell::{Cell, add_cells};
use crate::moment::moment_cell;
use crate::parts::{Part, add_parts};
use crate::section::{DENIALS, add_listed, add_paragraph, end_line};
use crate::shown::{begin_appendix, heaviest, lighter, rest_of};
use crate::table::{begin_table, end_table};
use crate::walked::Walked;
use mls_lines::Names;
use mls_listings::push_asked;
use mls_marks::Marks;
use mls_markup::{Attribute, Page, Tag};
use mls_overview::{Denial, object_about};
use mls_requests::{Entry, Reply};
use std::alloc::{AllocError, Global};

const TITLES: [&str; 5] = ["Subject", "Object", "Reason", "Denied", "Last entry"];

const CAPTION: &str = "By subject, object and reason, the most first; below each the last of them";

/// The word of why an entry was denied.
fn reason_of(entry: &Entry) -> &'static str {
    match entry.reply {
        Reply::No(reason) => reason.word(),
        Reply::Yes | Reply::Created(_) | Reply::Undefined => "",
    }
}

/// The cells of who was denied what, and how often; and of the last entry, where one of the entries is this.
fn denial_cells<'a>(
    page: &mut Page,
    names: &'a Names,
    marks: Option<&Marks>,
    entry: &Entry,
    count: u64,
    units: u64,
) -> Result<(), AllocError> {
    let object = match object_about(&entry.request.action) {
        Some(o) => Cell::Object(names, o),
        None => Cell::Text("-"),
    };
    let cells = [
        Cell::Subject(names, entry.request.subject),
        object,
        Cell::Text(reason_of(entry)),
        Cell::Share(Colour::Denied, units, count),
    ];
    add_cells(page, &cells)?;
    moment_cell(page, marks, entry.number)?;
    end_line(page)
}

/// What the last of some denied entries asked, and the beginning of what is folded under it.
fn begin_explanation(page: &mut Page, names: &Names, entry: &Entry) -> Result<(), AllocError> {
    let mut asked = String::new(page.alloc());
    push_asked(&mut asked, names, entry)?;
    let parts = [
        Part::BeginAs(Tag::TableRow, "why"),
        Part::BeginWith(Tag::TableCell, Attribute::ColumnSpan, "5"),
        Part::Begin(Tag::Details),
        Part::Leaf(Tag::Summary, &asked),
        Part::Line,
        Part::Begin(Tag::Preformatted),
    ];
    let done = add_parts(page, &parts);
    drop(asked);
    done
}

/// The row that tells why the last of some entries was denied: what it asked, and folded under it the reason.
fn why_row(
    page: &mut Page,
    names: &Names,
    entry: &Entry,
    walked: &Walked,
    last: usize,
) -> Result<(), AllocError> {
    let Some(reason) = walked.reason_at(last) else {
        return Ok(());
    };
    begin_explanation(page, names, entry)?;
    for line in reason.lines() {
        add_parts(page, &[Part::Text(line), Part::Line])?;
    }
    add_parts(
        page,
        &[Part::End, Part::End, Part::End, Part::End, Part::Line],
    )
}

/// The rows of some denied entries, and why the last of them was.
fn denial_rows(
    page: &mut Page,
    names: &Names,
    entries: &[Entry],
    marks: Option<&Marks>,
    walked: &Walked,
    denial: &Denial,
    units: u64,
) -> Result<(), AllocError> {
    let Some(entry) = entries.get(denial.last) else {
        return Ok(());
    };
    page.open_as(Tag::TableRow, "cause")?;
    denial_cells(page, names, marks, entry, denial.count, units)?;
    why_row(page, names, entry, walked, denial.last)
}

/// The row of some denied entries that are denied less often.
fn lesser_row(
    page: &mut Page,
    names: &Names,
    entries: &[Entry],
    marks: Option<&Marks>,
    denial: &Denial,
    units: u64,
) -> Result<(), AllocError> {
    let Some(entry) = entries.get(denial.last) else {
        return Ok(());
    };
    page.open(Tag::TableRow)?;
    denial_cells(page, names, marks, entry, denial.count, units)
}

/// The table of the heaviest groups.
fn first_table(
    page: &mut Page,
    names: &Names,
    entries: &[Entry],
    marks: Option<&Marks>,
    walked: &Walked,
    denials: &[Denial],
    places: &[usize],
) -> Result<(), AllocError> {
    let units = denials.iter().fold(0, |most, it| it.count.max(most));
    begin_table(page, CAPTION, &TITLES)?;
    for place in heaviest(places) {
        if let Some(denial) = denials.get(*place) {
            denial_rows(page, names, entries, marks, walked, denial, units)?;
        }
    }
    end_table(page)
}

/// The table of the others.
fn second_table(
    page: &mut Page,
    names: &Names,
    entries: &[Entry],
    marks: Option<&Marks>,
    denials: &[Denial],
    places: &[usize],
) -> Result<(), AllocError> {
    let units = denials.iter().fold(0, |most, it| it.count.max(most));
    begin_table(page, "Those that were denied less often", &TITLES)?;
    for place in lighter(places) {
        if let Some(denial) = denials.get(*place) {
            lesser_row(page, names, entries, marks, denial, units)?;
        }
    }
    end_table(page)
}

/// The tables of denied entries; without one, that there is none.
fn denial_tables(
    page: &mut Page,
    names: &Names,
    entries: &[Entry],
    marks: Option<&Marks>,
    walked: &Walked,
    denials: &[Denial],
    places: &[usize],
) -> Result<(), AllocError> {
    if places.is_empty() {
        return add_paragraph(page, "No entry was denied.");
    }
    first_table(page, names, entries, marks, walked, denials, places)?;
    let rest = rest_of(places.len());
    if rest > 0 {
        begin_appendix(page, &DENIALS, rest)?;
        second_table(page, names, entries, marks, denials, places)?;
        end_line(page)?;
    }
    Ok(())
}

/// A sheet with the tables of denied entries.
fn denials_sheet(
    alloc: Global,
    names: &Names,
    entries: &[Entry],
    marks: Option<&Marks>,
    walked: &Walked,
    denials: &[Denial],
    places: &[usize],
) -> Result<Page, AllocError> {
    let mut sheet = Page::sheet(alloc);
    denial_tables(&mut sheet, names, entries, marks, walked, denials, places)?;
    Ok(sheet)
}

/// Appends those of a start's entries that were denied, by subject, object and reason, in this order; where there are
/// marks, with the days of the last.
///
/// # Errors
/// `AllocError` where an allocation failed.
pub(crate) fn add_denials(
    page: &mut Page,
    names: &Names,
    entries: &[Entry],
    marks: Option<&Marks>,
    walked: &Walked,
    denials: &[Denial],
    places: &[usize],
) -> Result<(), AllocError>
    ensures { OnOk result (Lists (codes "denials") (codes "Denied entries")
        (codes "mls journal --explain --reply no START J") page.old page.new) }
{
    let alloc = page.alloc();
    let sheet = denials_sheet(alloc, names, entries, marks, walked, denials, places)?;
    add_listed(page, &DENIALS, sheet)
}
