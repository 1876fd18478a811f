//! Entries by their numbers, with the days of their times.
ghost use Rattle.std.specs.Prelude.{◌≡◌, OnOk};
ghost use Rattle.mls_listings.specs.Stamps.{rows_lent};
ghost use Rattle.mls_markup.specs.Drafts.{added};
ghost use Rattle.mls_page.specs.Moments.{day_of, last_cell, moment, moment_cell};

use crate::parts::{Part, add_parts};
use mls_listings::Stamp;
use mls_marks::Marks;
use mls_markup::{Page, Tag};
use std::alloc::AllocError;
use std::str;

/// How many bytes of the text of a time are its day.
const DAY: usize = 10;

/// Appends the day of a time, where one is told. A time is of ASCII, so its day is a text.
fn add_day(page: &mut Page, stamp: &Stamp) -> Result<(), AllocError>
    ensures { OnOk result (page.new ≡ added page.old (day_of stamp.now)) }
{
    let Stamp::At(time) = stamp else {
        return Ok(());
    };
    let Ok(day) = str::from_utf8(&time.text()[..DAY]) else {
        return Err(AllocError);
    };
    add_parts(
        page,
        &[Part::Text(" "), Part::LeafAs(Tag::Span, "time", day)],
    )
}

/// Appends the number of an entry, and the day of its time where marks tell it.
pub(crate) fn add_moment(
    page: &mut Page,
    marks: Option<&Marks>,
    number: u64,
) -> Result<(), AllocError>
    ensures { OnOk result (page.new ≡ added page.old (moment (rows_lent marks.entry) number)) }
{
    page.number(number)?;
    add_day(page, &Stamp::of(marks, number))
}

/// The cell of an entry.
#[tactic(auto, unfolding(crate::specs::Moments::moment_cell))]
pub(crate) fn moment_cell(
    page: &mut Page,
    marks: Option<&Marks>,
    number: u64,
) -> Result<(), AllocError>
    ensures { OnOk result (page.new ≡ added page.old (moment_cell (rows_lent marks.entry) number)) }
{
    page.open_as(Tag::TableCell, "number")?;
    add_moment(page, marks, number)?;
    page.close()
}

/// The cell of a last entry, or what is told where there is none.
pub(crate) fn last_cell(
    page: &mut Page,
    marks: Option<&Marks>,
    last: Option<u64>,
    none: &str,
) -> Result<(), AllocError>
    ensures { OnOk result (page.new ≡ added page.old (last_cell (rows_lent marks.entry) last none.now)) }
{
    match last {
        Some(number) => moment_cell(page, marks, number),
        None => page.leaf_as(Tag::TableCell, "number", none),
    }
}
