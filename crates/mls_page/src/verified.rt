//! What was verified.
ghost use Rattle.std.specs.Prelude.{◌≡◌, codes, OnOk};
ghost use Rattle.mls_markup.specs.Drafts.{added};
ghost use Rattle.mls_page.specs.Verified.{
  found_rows,
  marks_text,
  number_row,
  text_row,
  times_rows,
  verdict,
  verified,
  verified_table,
  verify_command,
};

use crate::cell::{Cell, add_row};
use crate::parts::{Part, add_parts};
use crate::section::{MARKED, Section, VERIFIED, begin_listed, end_line};
use mls_markup::{Page, Tag};
use std::alloc::AllocError;

/// What the marks of a journal say, which agree with it.
#[derive(Clone, Copy)]
pub struct Found<'a> {
    /// The digest of the last mark.
    pub digest: &'a str,
    /// The times of the first mark and of the last, where there are marks.
    pub times: Option<(&'a str, &'a str)>,
    /// How many entries stand behind the last mark.
    pub behind: u64,
}

const REPLAYED: &str =
    "Each reply in the journal is the one that the rules give after the entries before it.";

const WITH_MARKS: &str = " Each mark agrees with the journal.";

const WITHOUT_MARKS: &str = " No marks were looked at.";

/// The row of a number.
#[tactic(auto, unfolding(crate::specs::Verified::number_row, crate::specs::Tables::row))]
fn number_row(page: &mut Page, title: &str, number: u64) -> Result<(), AllocError>
    ensures { OnOk result (page.new ≡ added page.old (number_row title.now number)) }
{
    add_row(page, &[Cell::Title(title), Cell::Number(number)])
}

/// The row of a text.
#[tactic(auto, unfolding(crate::specs::Verified::text_row, crate::specs::Tables::row))]
fn text_row<'a>(page: &mut Page, title: &'a str, text: &'a str) -> Result<(), AllocError>
    ensures { OnOk result (page.new ≡ added page.old (text_row title.now text.now)) }
{
    add_row(page, &[Cell::Title(title), Cell::Digest(text)])
}

/// The rows of the times of marks, where there are any.
#[tactic(auto, unfolding(crate::specs::Verified::times_rows))]
fn times_rows(page: &mut Page, times: Option<(&str, &str)>) -> Result<(), AllocError>
    ensures { OnOk result (page.new ≡ added page.old (times_rows times.entry)) }
{
    let Some((first, last)) = times else {
        return Ok(());
    };
    text_row(page, "Time of the first mark", first)?;
    text_row(page, "Time of the last mark", last)
}

/// The rows of what marks say, where they were looked at.
#[tactic(auto, unfolding(crate::specs::Verified::found_rows))]
fn found_rows(page: &mut Page, found: Option<Found<'_>>) -> Result<(), AllocError>
    ensures { OnOk result (page.new ≡ added page.old (found_rows found.entry)) }
{
    let Some(found) = found else {
        return Ok(());
    };
    text_row(page, "Digest of the last mark", found.digest)?;
    times_rows(page, found.times)?;
    number_row(page, "Entries behind the last mark", found.behind)
}

/// Whether marks were looked at.
fn marks_text(found: Option<Found<'_>>) -> &'static str
    ensures { result.now ≡ marks_text found.entry }
{
    match found {
        Some(_) => WITH_MARKS,
        None => WITHOUT_MARKS,
    }
}

/// What was looked at.
#[tactic(auto, unfolding(crate::specs::Verified::verdict))]
fn add_verdict(page: &mut Page, found: Option<Found<'_>>) -> Result<(), AllocError>
    ensures { OnOk result (page.new ≡ added page.old (verdict found.entry)) }
{
    let parts = [
        Part::Begin(Tag::Paragraph),
        Part::Text(REPLAYED),
        Part::Text(marks_text(found)),
        Part::End,
        Part::Line,
    ];
    add_parts(page, &parts)
}

/// The table of a journal of so many entries.
#[tactic(auto, unfolding(crate::specs::Verified::verified_table))]
fn add_table(page: &mut Page, entries: u64, found: Option<Found<'_>>) -> Result<(), AllocError>
    ensures { OnOk result (page.new ≡ added page.old (verified_table entries found.entry)) }
{
    let parts = [
        Part::Begin(Tag::Table),
        Part::Leaf(Tag::Caption, "When this page was written"),
        Part::Begin(Tag::TableBody),
        Part::Line,
    ];
    add_parts(page, &parts)?;
    number_row(page, "Entries that were replayed", entries)?;
    found_rows(page, found)?;
    add_parts(page, &[Part::End, Part::End, Part::Line])
}

/// The section of what was verified, without marks or with marks.
fn section_of(found: Option<Found<'_>>) -> Section
    ensures id { result.id.now ≡ codes "verified" }
    ensures title { result.title.now ≡ codes "Verified" }
    ensures command { result.command.now ≡ verify_command found.entry }
{
    match found {
        Some(_) => MARKED,
        None => VERIFIED,
    }
}

/// Appends what was verified of a journal of so many entries, and of its marks where they were looked at.
///
/// # Errors
/// `AllocError` where an allocation failed.
#[tactic(auto, unfolding(crate::specs::Verified::verified, crate::specs::Sections::listed))]
pub(crate) fn add_verified(
    page: &mut Page,
    entries: u64,
    found: Option<Found<'_>>,
) -> Result<(), AllocError>
    ensures { OnOk result (page.new ≡ added page.old (verified entries found.entry)) }
{
    let section = section_of(found);
    begin_listed(page, &section)?;
    add_verdict(page, found)?;
    add_table(page, entries, found)?;
    end_line(page)
}
