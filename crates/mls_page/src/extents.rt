//! From when to when an access was held, as a text and as a time line.
ghost use Rattle.std.specs.Prelude.{◌≡◌, OnOk};
ghost use Rattle.mls_listings.specs.Stamps.{rows_lent};
ghost use Rattle.mls_markup.specs.Drafts.{added};
ghost use Rattle.mls_markup.specs.Trees.{all_of};
ghost use Rattle.mls_page.specs.Held.{
  begin_words,
  end_words,
  extent_cell,
  line_cell,
  span_stretch,
};

use crate::bar::{Colour, begin_bars, stretch};
use crate::holding::{first_state, length_of};
use crate::moment::add_moment;
use mls_marks::Marks;
use mls_markup::{Page, Tag};
use mls_spans::{Ending, Span};
use std::alloc::AllocError;

/// Appends the entry that made an access: `12`, `start`.
fn begin_words(page: &mut Page, marks: Option<&Marks>, made: Option<u64>) -> Result<(), AllocError>
    ensures { OnOk result (page.new ≡ added page.old (begin_words (rows_lent marks.entry) made)) }
{
    match made {
        Some(number) => add_moment(page, marks, number),
        None => page.text("start"),
    }
}

/// Appends the entry that ended it: ` to 12`, ` on`.
fn end_words(
    page: &mut Page,
    marks: Option<&Marks>,
    ended: Option<Ending>,
) -> Result<(), AllocError>
    ensures { OnOk result (page.new ≡ added page.old (end_words (rows_lent marks.entry) ended)) }
{
    match ended {
        Some(ending) => {
            page.text(" to ")?;
            add_moment(page, marks, ending.number)
        }
        None => page.text(" on"),
    }
}

/// The cell of from when to when an access was held, all in all.
#[tactic(auto, unfolding(crate::specs::Held::extent_cell))]
pub(crate) fn extent_cell(
    page: &mut Page,
    marks: Option<&Marks>,
    first: &Span,
    last: &Span,
) -> Result<(), AllocError>
    ensures { OnOk result
        (page.new ≡ added page.old (extent_cell (rows_lent marks.entry) first.now last.now)) }
{
    page.open_as(Tag::TableCell, "number")?;
    begin_words(page, marks, first.made)?;
    end_words(page, marks, last.ended)?;
    page.close()
}

/// The stretch of a span in a time line.
fn span_stretch(page: &mut Page, entries: u64, span: &Span) -> Result<(), AllocError>
    ensures { OnOk result (page.new ≡ added page.old (span_stretch entries span.now)) }
{
    stretch(page, first_state(span), length_of(entries, span))
}

/// The stretches of spans in a time line.
fn add_stretches(page: &mut Page, entries: u64, spans: &[Span]) -> Result<(), AllocError>
    ensures { OnOk result (page.new ≡ added page.old (all_of (span_stretch entries) spans.now)) }
{
    for span in spans {
        span_stretch(page, entries, span)?;
    }
    Ok(())
}

/// The cell of the time line of an access.
#[tactic(auto, unfolding(crate::specs::Held::line_cell))]
pub(crate) fn line_cell(page: &mut Page, entries: u64, spans: &[Span]) -> Result<(), AllocError>
    ensures { OnOk result (page.new ≡ added page.old (line_cell entries spans.now)) }
{
    page.open_as(Tag::TableCell, "times")?;
    begin_bars(page, Colour::Held, entries.saturating_add(1))?;
    add_stretches(page, entries, spans)?;
    page.close()?;
    page.close()
}
