//! A page about a part of a journal, of rows that other questions tell.
use crate::part::Part;
use crate::report_counts::trend_of;
use mls_grid::{Grid, grid_of};
use mls_listings::Summary;
use mls_marks::Marks;
use mls_overview::{Denial, Trend};
use mls_page::{ACROSS, Found, Rows, SHOWN, Short, Trusting, Walked, report_page};
use mls_review::{Asked, Change, changes};
use mls_spans::{Span, Usage};
use std::alloc::{AllocError, Global};

/// The names of a start file and of a journal, the part of it that a page is about, its marks, and what they say, where
/// they were looked at.
#[derive(Clone, Copy)]
pub(crate) struct Told<'a, 'f> {
    pub start: &'a str,
    pub journal: &'a str,
    /// Between which states the part is, where it isn't all of the journal.
    pub part: Option<(u64, u64)>,
    pub seen: &'a Part<'a>,
    pub marks: Option<&'a Marks>,
    pub found: Option<Found<'f>>,
}

/// The denials of a journal, and their places, the most first; and what was looked at in its states.
#[derive(Clone, Copy)]
pub(crate) struct Looked<'a> {
    pub denials: &'a [Denial],
    pub places: &'a [usize],
    pub walked: &'a Walked,
    pub trusting: &'a [Trusting],
}

/// What is counted of a journal.
#[derive(Clone, Copy)]
pub(crate) struct Counted<'a> {
    pub usages: &'a [Usage],
    pub summary: &'a Summary,
    pub short: Short,
}

/// What is found in the states of a journal.
#[derive(Clone, Copy)]
struct Seen<'a> {
    trend: &'a Trend,
    spans: &'a [Span],
    changes: &'a [Change],
}

/// The page of what could come about, and of all else.
fn page_with(
    alloc: Global,
    told: &Told<'_, '_>,
    looked: &Looked<'_>,
    counted: &Counted<'_>,
    found: &Seen<'_>,
    grid: &Grid,
) -> Result<Vec<u8>, AllocError> {
    let seen = told.seen;
    let rows = Rows {
        start: told.start,
        journal: told.journal,
        part: told.part,
        names: seen.names(),
        entries: seen.entries(),
        marks: told.marks,
        found: told.found,
        short: counted.short,
        trend: found.trend,
        walked: looked.walked,
        denials: looked.denials,
        places: looked.places,
        trusting: looked.trusting,
        usages: counted.usages,
        spans: found.spans,
        many: seen.many(),
        changes: found.changes,
        state: seen.state(),
        grid,
        summary: counted.summary,
        opening: seen.start(),
    };
    report_page(alloc, &rows)
}

/// The page of what was found in the states of a journal.
fn page_seen(
    alloc: Global,
    told: &Told<'_, '_>,
    looked: &Looked<'_>,
    counted: &Counted<'_>,
    found: &Seen<'_>,
) -> Result<Vec<u8>, AllocError> {
    let grid = grid_of(alloc, told.seen.state(), SHOWN, ACROSS)?;
    let page = page_with(alloc, told, looked, counted, found, &grid);
    drop(grid);
    page
}

/// The page of how denials went, and of who held what.
fn page_held(
    alloc: Global,
    told: &Told<'_, '_>,
    looked: &Looked<'_>,
    counted: &Counted<'_>,
    trend: &Trend,
    spans: &[Span],
) -> Result<Vec<u8>, AllocError> {
    let all = Asked {
        subject: None,
        downgrades: false,
    };
    let changes = changes(alloc, told.seen.state(), all)?;
    let found = Seen {
        trend,
        spans,
        changes: &changes,
    };
    let page = page_seen(alloc, told, looked, counted, &found);
    drop(changes);
    page
}

/// The page of how denials went.
fn page_trend(
    alloc: Global,
    told: &Told<'_, '_>,
    looked: &Looked<'_>,
    counted: &Counted<'_>,
    trend: &Trend,
) -> Result<Vec<u8>, AllocError> {
    let spans = told.seen.spans(alloc)?;
    let page = page_held(alloc, told, looked, counted, trend, &spans);
    drop(spans);
    page
}

/// The page of what was counted.
///
/// # Errors
/// `AllocError` where an allocation failed.
pub(crate) fn page_counted(
    alloc: Global,
    told: &Told<'_, '_>,
    looked: &Looked<'_>,
    counted: &Counted<'_>,
) -> Result<Vec<u8>, AllocError> {
    let trend = trend_of(alloc, told.seen, told.marks)?;
    let page = page_trend(alloc, told, looked, counted, &trend);
    drop(trend);
    page
}
