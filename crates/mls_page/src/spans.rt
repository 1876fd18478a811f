//! Who held what, and from when to when.
ghost use Rattle.std.specs.Prelude.{◌≡◌, codes, map, IfOk, OnOk};
ghost use Rattle.mls_groups.specs.Weights.{IsByWeight};
ghost use Rattle.mls_listings.specs.Stamps.{rows_lent};
ghost use Rattle.mls_markup.specs.Drafts.{added};
ghost use Rattle.mls_markup.specs.Trees.{all_of};
ghost use Rattle.mls_page.specs.Held.{
  HasHeld,
  ShowsHeld,
  access_of,
  held,
  held_row,
  held_table,
  held_tables,
  span_row,
  states_of,
};
ghost use Rattle.mls_page.specs.Runs.{runs_by};
ghost use Rattle.mls_page.specs.Shown.{appendix, lighter, shown_at};

use crate::cell::{Cell, add_cells};
use crate::cutting::cut;
use crate::extents::{extent_cell, line_cell};
use crate::holding::{ByAccess, all_states, sorted_spans};
use crate::section::{HELD, add_paragraph, begin_listed, end_line};
use crate::shown::{begin_appendix, heaviest, lighter, rest_of};
use crate::table::{begin_table, end_table};
use mls_groups::by_weight;
use mls_lines::Names;
use mls_marks::Marks;
use mls_markup::{Page, Tag};
use mls_requests::mode_word;
use mls_spans::Span;
use std::alloc::{AllocError, Global};

const TITLES: [&str; 6] = [
    "Subject",
    "Mode",
    "Object",
    "Times",
    "From and to",
    "Time line",
];

const CAPTION: &str =
    "The longest held first. A time line goes from the state before entry 0 to the one after the last entry";

/// The row of an access that was held in these spans, of which the first and the last are these.
#[tactic(auto, unfolding(crate::specs::Held::span_row, crate::specs::Tables::row))]
fn span_row(
    page: &mut Page,
    names: &Names,
    marks: Option<&Marks>,
    entries: u64,
    spans: &[Span],
    first: &Span,
    last: &Span,
) -> Result<(), AllocError>
    ensures { OnOk result (page.new ≡ added page.old
        (span_row names.now (rows_lent marks.entry) entries spans.now first.now last.now)) }
{
    let (s, o, x) = first.access;
    let cells = [
        Cell::Subject(names, s),
        Cell::Text(mode_word(x)),
        Cell::Object(names, o),
        Cell::Number(spans.len() as u64),
    ];
    page.open(Tag::TableRow)?;
    add_cells(page, &cells)?;
    extent_cell(page, marks, first, last)?;
    line_cell(page, entries, spans)?;
    end_line(page)
}

/// The row of an access that was held in some spans.
fn held_row(
    page: &mut Page,
    names: &Names,
    marks: Option<&Marks>,
    entries: u64,
    spans: &[Span],
) -> Result<(), AllocError>
    ensures { OnOk result
        (page.new ≡ added page.old (held_row names.now (rows_lent marks.entry) entries spans.now)) }
{
    match (spans.first(), spans.last()) {
        (Some(first), Some(last)) => span_row(page, names, marks, entries, spans, first, last),
        _ => Ok(()),
    }
}

/// The row of the access at a place.
fn held_at(
    page: &mut Page,
    names: &Names,
    marks: Option<&Marks>,
    entries: u64,
    runs: &[&[Span]],
    place: usize,
) -> Result<(), AllocError>
    ensures { OnOk result (page.new ≡ added page.old
        (shown_at (held_row names.now (rows_lent marks.entry) entries) (map (λ run. run.now) runs.now) place)) }
{
    match runs.get(place) {
        Some(run) => held_row(page, names, marks, entries, run),
        None => Ok(()),
    }
}

/// The rows of the accesses at some places.
fn held_rows(
    page: &mut Page,
    names: &Names,
    marks: Option<&Marks>,
    entries: u64,
    runs: &[&[Span]],
    places: &[usize],
) -> Result<(), AllocError>
    ensures { OnOk result (page.new ≡ added page.old (all_of
        (shown_at (held_row names.now (rows_lent marks.entry) entries) (map (λ run. run.now) runs.now)) places.now)) }
{
    for place in places {
        held_at(page, names, marks, entries, runs, *place)?;
    }
    Ok(())
}

/// The table of accesses, in this order.
#[tactic(auto, unfolding(crate::specs::Held::held_table, crate::specs::Tables::table))]
fn held_table(
    page: &mut Page,
    names: &Names,
    marks: Option<&Marks>,
    entries: u64,
    runs: &[&[Span]],
    places: &[usize],
) -> Result<(), AllocError>
    ensures { OnOk result (page.new ≡ added page.old
        (held_table names.now (rows_lent marks.entry) entries (map (λ run. run.now) runs.now) places.now)) }
{
    begin_table(page, CAPTION, &TITLES)?;
    held_rows(page, names, marks, entries, runs, places)?;
    end_table(page)
}

/// The appendix of so many accesses that the first table doesn't have.
#[tactic(auto, unfolding(crate::specs::Shown::folded))]
fn held_appendix(
    page: &mut Page,
    names: &Names,
    marks: Option<&Marks>,
    entries: u64,
    runs: &[&[Span]],
    places: &[usize],
    rest: usize,
) -> Result<(), AllocError>
    ensures { OnOk result (page.new ≡ added page.old (appendix (codes "mls held START J") rest (held_table
        names.now (rows_lent marks.entry) entries (map (λ run. run.now) runs.now) (lighter places.now)))) }
{
    if rest == 0 {
        return Ok(());
    }
    begin_appendix(page, &HELD, rest)?;
    held_table(page, names, marks, entries, runs, lighter(places))?;
    end_line(page)
}

/// The tables of accesses; without one, that there is none.
fn held_tables(
    page: &mut Page,
    names: &Names,
    marks: Option<&Marks>,
    entries: u64,
    runs: &[&[Span]],
    places: &[usize],
) -> Result<(), AllocError>
    ensures { OnOk result (page.new ≡ added page.old
        (held_tables names.now (rows_lent marks.entry) entries (map (λ run. run.now) runs.now) places.now)) }
{
    if runs.is_empty() {
        return add_paragraph(page, "Nothing was held.");
    }
    held_table(page, names, marks, entries, runs, heaviest(places))?;
    let rest = rest_of(places.len());
    held_appendix(page, names, marks, entries, runs, places, rest)
}

/// The section, with accesses in this order.
fn held_section(
    page: &mut Page,
    names: &Names,
    marks: Option<&Marks>,
    entries: u64,
    runs: &[&[Span]],
    places: &[usize],
) -> Result<(), AllocError>
    ensures { OnOk result (page.new ≡ added page.old
        (held names.now (rows_lent marks.entry) entries (map (λ run. run.now) runs.now) places.now)) }
{
    begin_listed(page, &HELD)?;
    held_tables(page, names, marks, entries, runs, places)?;
    end_line(page)?;
    Ok(())
}

/// The places of accesses, the longest held first.
fn longest_first(alloc: Global, entries: u64, runs: &[&[Span]]) -> Result<Vec<usize>, AllocError>
    ensures { IfOk result (λ places.
        IsByWeight (map (states_of entries) (map (λ run. run.now) runs.now)) places.items) }
{
    let states = all_states(alloc, entries, runs)?;
    let places = by_weight(alloc, &states);
    drop(states);
    places
}

/// The section, with the spans of each access: the longest held first.
fn add_runs(
    page: &mut Page,
    names: &Names,
    marks: Option<&Marks>,
    entries: u64,
    runs: &[&[Span]],
) -> Result<(), AllocError>
    ensures { OnOk result (ShowsHeld names.now (rows_lent marks.entry) entries
        (map (λ run. run.now) runs.now) page.old page.new) }
{
    let places = longest_first(page.alloc(), entries, runs)?;
    let done = held_section(page, names, marks, entries, runs, &places);
    drop(places);
    done?;
    Ok(())
}

/// The section, with spans by their accesses.
fn add_sorted(
    page: &mut Page,
    names: &Names,
    marks: Option<&Marks>,
    entries: u64,
    sorted: &[Span],
) -> Result<(), AllocError>
    ensures { OnOk result (ShowsHeld names.now (rows_lent marks.entry) entries
        (runs_by access_of sorted.now) page.old page.new) }
{
    let runs = cut::<Span, ByAccess>(page.alloc(), sorted)?;
    let done = add_runs(page, names, marks, entries, &runs);
    drop(runs);
    done?;
    Ok(())
}

/// Appends who held what over a journal of so many entries: each access, in how many spans, and when; where there are
/// marks, with days.
///
/// # Errors
/// `AllocError` where an allocation failed.
pub(crate) fn add_spans(
    page: &mut Page,
    names: &Names,
    marks: Option<&Marks>,
    spans: &[Span],
    entries: u64,
) -> Result<(), AllocError>
    ensures { OnOk result
        (HasHeld names.now (rows_lent marks.entry) spans.now entries page.old page.new) }
{
    let sorted = sorted_spans(page.alloc(), spans)?;
    let done = add_sorted(page, names, marks, entries, &sorted);
    drop(sorted);
    done?;
    Ok(())
}
