//! What matters, in five lines.
ghost use Rattle.std.specs.Prelude.{◌≡◌, OnOk};
ghost use Rattle.mls_markup.specs.Drafts.{added};
ghost use Rattle.mls_page.specs.Short.{
  HasShort,
  begun_short,
  ended_short,
  entries_line,
  entries_word,
  mark_words,
  said_by,
  unused_line,
  verified_line,
};

use crate::parts::{Part, add_parts};
use crate::section::{SHORT, begin_section, end_line};
use crate::trend::add_trend;
use crate::trusted::Trusting;
use crate::verified::Found;
use mls_lines::Names;
use mls_markup::{Page, Tag};
use mls_overview::Trend;
use std::alloc::{AllocError, Global};

/// How many subjects are named in a line.
const NAMED: usize = 5;

/// The numbers that the first lines tell.
#[derive(Clone, Copy)]
pub struct Short {
    pub entries: u64,
    pub granted: u64,
    pub denied: u64,
    pub undefined: u64,
    pub permissions: u64,
    /// How many of them were never granted.
    pub unused: u64,
    /// How many of these `usage --tighten` leaves out of the start.
    pub removable: u64,
}

/// What so many entries are called.
fn entries_word(count: u64) -> &'static str
    ensures { result.now ≡ entries_word count }
{
    if count == 1 { " entry" } else { " entries" }
}

/// The line of how many entries there are.
#[tactic(auto, unfolding(crate::specs::Short::entries_line))]
fn entries_line(page: &mut Page, short: &Short) -> Result<(), AllocError>
    ensures { OnOk result (page.new ≡ added page.old (entries_line short.now)) }
{
    let parts = [
        Part::Begin(Tag::Item),
        Part::Begin(Tag::Bold),
        Part::Number(short.entries),
        Part::Text(entries_word(short.entries)),
        Part::End,
        Part::Text(": "),
        Part::Number(short.granted),
        Part::Text(" granted, "),
        Part::Number(short.denied),
        Part::Text(" denied, "),
        Part::Number(short.undefined),
        Part::Text(" undefined."),
        Part::End,
        Part::Line,
    ];
    add_parts(page, &parts)
}

/// How often trust was used, and by whom most.
fn trust_names(page: &mut Page, names: &Names, rows: &[Trusting]) -> Result<(), AllocError> {
    let mut before = ": ";
    for row in rows.iter().take(NAMED) {
        let parts = [
            Part::Text(before),
            Part::Subject(names, row.subject),
            Part::Text(" "),
            Part::Number(row.count),
        ];
        add_parts(page, &parts)?;
        before = ", ";
    }
    if rows.len() > NAMED {
        page.text(", and others")?;
    }
    Ok(())
}

/// The line of who used trust.
fn trust_line(page: &mut Page, names: &Names, rows: &[Trusting]) -> Result<(), AllocError> {
    let count = rows
        .iter()
        .fold(0, |sum: u64, row| sum.saturating_add(row.count));
    let parts = [
        Part::Begin(Tag::Item),
        Part::Begin(Tag::Bold),
        Part::Number(count),
        Part::Text(" granted by trust alone"),
        Part::End,
    ];
    add_parts(page, &parts)?;
    trust_names(page, names, rows)?;
    add_parts(page, &[Part::Text("."), Part::End, Part::Line])
}

/// The line of what could be removed.
#[tactic(auto, unfolding(crate::specs::Short::unused_line))]
fn unused_line(page: &mut Page, short: &Short) -> Result<(), AllocError>
    ensures { OnOk result (page.new ≡ added page.old (unused_line short.now)) }
{
    let parts = [
        Part::Begin(Tag::Item),
        Part::Begin(Tag::Bold),
        Part::Number(short.unused),
        Part::Text(" of "),
        Part::Number(short.permissions),
        Part::Text(" permissions were never granted"),
        Part::End,
        Part::Text(" ("),
        Part::Leaf(Tag::Code, "mls usage --never"),
        Part::Text("). From START, "),
        Part::Number(short.removable),
        Part::Text(" of them could be removed ("),
        Part::Leaf(Tag::Code, "mls usage --tighten"),
        Part::Text("), unless they are young."),
        Part::End,
        Part::Line,
    ];
    add_parts(page, &parts)
}

/// What marks say, behind that the journal was verified.
#[tactic(auto, unfolding(crate::specs::Short::said_by))]
fn add_said(page: &mut Page, found: &Found<'_>) -> Result<(), AllocError>
    ensures { OnOk result (page.new ≡ added page.old (said_by found.now)) }
{
    let parts = [
        Part::Text(" and its marks, up to the digest "),
        Part::LeafAs(Tag::Span, "digest", found.digest),
        Part::Text("; entries behind the last mark: "),
        Part::Number(found.behind),
        Part::Text("."),
    ];
    add_parts(page, &parts)
}

/// What marks say, in the line of what was verified, or that none were looked at.
fn mark_words(page: &mut Page, found: Option<Found<'_>>) -> Result<(), AllocError>
    ensures { OnOk result (page.new ≡ added page.old (mark_words found.entry)) }
{
    match &found {
        Some(found) => add_said(page, found),
        None => page.text(": each reply is the one that the rules give. No marks were looked at."),
    }
}

/// The line of what was verified.
#[tactic(auto, unfolding(crate::specs::Short::verified_line))]
fn verified_line(page: &mut Page, found: Option<Found<'_>>) -> Result<(), AllocError>
    ensures { OnOk result (page.new ≡ added page.old (verified_line found.entry)) }
{
    page.open(Tag::Item)?;
    page.leaf(Tag::Bold, "The journal was verified")?;
    mark_words(page, found)?;
    end_line(page)
}

/// Appends the lines of how denials went over time, and of who used trust.
fn add_told(
    page: &mut Page,
    names: &Names,
    denied: u64,
    trend: &Trend,
    rows: &[Trusting],
) -> Result<(), AllocError> {
    add_trend(page, denied, trend)?;
    trust_line(page, names, rows)
}

/// A sheet with these lines.
fn told_sheet(
    alloc: Global,
    names: &Names,
    denied: u64,
    trend: &Trend,
    rows: &[Trusting],
) -> Result<Page, AllocError> {
    let mut sheet = Page::sheet(alloc);
    add_told(&mut sheet, names, denied, trend, rows)?;
    Ok(sheet)
}

/// The beginning of the section, with the line of how many entries there are.
fn begin_short(page: &mut Page, short: &Short) -> Result<(), AllocError>
    ensures { OnOk result (page.new ≡ begun_short short.now page.old) }
{
    begin_section(page, &SHORT)?;
    add_parts(page, &[Part::BeginAs(Tag::Items, "short"), Part::Line])?;
    entries_line(page, short)
}

/// The last lines of the section, and its end.
fn end_short(page: &mut Page, short: &Short, found: Option<Found<'_>>) -> Result<(), AllocError>
    ensures { OnOk result (page.new ≡ ended_short short.now found.entry page.old) }
{
    unused_line(page, short)?;
    verified_line(page, found)?;
    add_parts(page, &[Part::End, Part::Line, Part::End, Part::Line])
}

/// Appends what matters, in five lines: how many entries there are, how denials went over time, who used trust, what
/// could be removed, and what was verified.
///
/// # Errors
/// `AllocError` where an allocation failed.
pub(crate) fn add_short(
    page: &mut Page,
    names: &Names,
    short: &Short,
    trend: &Trend,
    rows: &[Trusting],
    found: Option<Found<'_>>,
) -> Result<(), AllocError>
    ensures { OnOk result (HasShort short.now found.entry page.old page.new) }
{
    let sheet = told_sheet(page.alloc(), names, short.denied, trend, rows)?;
    begin_short(page, short)?;
    page.add_sheet(sheet)?;
    end_short(page, short, found)?;
    Ok(())
}
