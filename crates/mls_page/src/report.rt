//! The page about a journal: its head, its sections in their order, and its end.
ghost use Rattle.std.specs.Prelude.{◌≡◌, IfOk, OnOk};
ghost use Rattle.mls_markup.specs.Drafts.{added};
ghost use Rattle.mls_markup.specs.Pages.{IsPage};
ghost use Rattle.mls_page.specs.Reports.{HasFirst, HasLast, HasSections, IsReport, about};

use crate::counts::add_counts;
use crate::denials::add_denials;
use crate::futures::add_futures;
use crate::head::{begin_report, end_report};
use crate::labels::add_lattice;
use crate::part::add_part;
use crate::permissions::add_usage;
use crate::powers::add_powers;
use crate::short::{Short, add_short};
use crate::spans::add_spans;
use crate::terms::add_terms;
use crate::trusted::{Trusting, add_trust};
use crate::verified::{Found, add_verified};
use crate::walked::Walked;
use mls_grid::Grid;
use mls_lines::Names;
use mls_listings::Summary;
use mls_marks::Marks;
use mls_markup::Page;
use mls_overview::{Denial, Trend};
use mls_requests::Entry;
use mls_review::Change;
use mls_spans::{Span, Usage};
use mls_start::Start;
use mls_state::State;
use std::alloc::{AllocError, Global};

/// What a page about a journal is of.
#[derive(Clone, Copy)]
pub struct Rows<'a> {
    /// The names of the start file and of the journal.
    pub start: &'a str,
    pub journal: &'a str,
    /// The first and the last state of the part of the journal that the page is about, where it isn't about all of it:
    /// a state has the number of the entry behind it.
    pub part: Option<(u64, u64)>,
    pub names: &'a Names,
    pub entries: &'a [Entry],
    /// The marks of the journal, where they were looked at, and what they say.
    pub marks: Option<&'a Marks>,
    pub found: Option<Found<'a>>,
    pub short: Short,
    pub trend: &'a Trend,
    pub walked: &'a Walked,
    /// The denials, and their places in the order in which they are shown.
    pub denials: &'a [Denial],
    pub places: &'a [usize],
    pub trusting: &'a [Trusting],
    pub usages: &'a [Usage],
    pub spans: &'a [Span],
    /// How many entries the journal has.
    pub many: u64,
    /// What subjects may change, and what could come about, in the last of the states.
    pub changes: &'a [Change],
    pub state: &'a State,
    pub grid: &'a Grid,
    pub summary: &'a Summary,
    /// The start whose labels are listed.
    pub opening: &'a Start,
}

/// Appends which part of the journal the page is about, where it isn't about all of it.
fn add_about(page: &mut Page, part: Option<(u64, u64)>) -> Result<(), AllocError>
    ensures { OnOk result (page.new ≡ added page.old (about part)) }
{
    match part {
        Some((first, last)) => add_part(page, first, last),
        None => Ok(()),
    }
}

/// Appends the sections that matter most.
fn add_first(page: &mut Page, rows: &Rows<'_>) -> Result<(), AllocError>
    ensures { OnOk result (HasFirst rows.now page.old page.new) }
{
    let names = rows.names;
    add_short(
        page,
        names,
        &rows.short,
        rows.trend,
        rows.trusting,
        rows.found,
    )?;
    add_terms(page)?;
    let (denials, places) = (rows.denials, rows.places);
    add_denials(
        page,
        names,
        rows.entries,
        rows.marks,
        rows.walked,
        denials,
        places,
    )?;
    add_trust(page, names, rows.trusting)?;
    add_usage(page, names, rows.marks, rows.usages)?;
    Ok(())
}

/// Appends the other sections.
fn add_last(page: &mut Page, rows: &Rows<'_>) -> Result<(), AllocError>
    ensures { OnOk result (HasLast rows.now page.old page.new) }
{
    let names = rows.names;
    add_spans(page, names, rows.marks, rows.spans, rows.many)?;
    add_powers(page, names, rows.changes)?;
    add_futures(page, names, rows.state, rows.grid)?;
    add_counts(page, names, rows.summary)?;
    add_lattice(page, names, rows.opening)?;
    add_verified(page, rows.many, rows.found)?;
    Ok(())
}

/// Appends which part of the journal the page is about, where it isn't about all of it, and all sections.
fn add_sections(page: &mut Page, rows: &Rows<'_>) -> Result<(), AllocError>
    ensures { OnOk result (HasSections rows.now page.old page.new) }
{
    add_about(page, rows.part)?;
    add_first(page, rows)?;
    add_last(page, rows)?;
    Ok(())
}

/// The page about a journal, as HTML.
///
/// # Errors
/// `AllocError` where an allocation failed.
pub fn report_page(alloc: Global, rows: &Rows<'_>) -> Result<Vec<u8>, AllocError>
    ensures page { IfOk result (λ html. IsPage html.items) }
    ensures report { IfOk result (λ html. IsReport rows.now html.items) }
{
    let mut page = begin_report(alloc, rows.start, rows.journal)?;
    add_sections(&mut page, rows)?;
    let html = end_report(page)?;
    Ok(html)
}
