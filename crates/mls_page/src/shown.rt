//! Which rows are shown: the heaviest in a table that is printed, and the next ones in an appendix.
ghost use Rattle.std.specs.Prelude.{◌≡◌, ◌-◌, ◌∷◌, [], codes, drop, min, take, OnOk};
ghost use Rattle.mls_markup.specs.Drafts.{added, opened};
ghost use Rattle.mls_markup.specs.declared.attribute.Attribute.TheVariants as attribute;
ghost use Rattle.mls_markup.specs.declared.tag.Tag.TheVariants as tag;
ghost use Rattle.mls_page.specs.Shown.{folded_head, heaviest, lighter, more};
ghost use Rattle.mls_page.specs.declared.section.TheConstants.{LISTED, SHOWN};

use crate::parts::{Part, add_parts};
use crate::section::{LISTED, SHOWN, Section};
use mls_markup::{Page, Tag};
use std::alloc::AllocError;

/// How many of so many rows the table that is printed doesn't have.
pub(crate) fn rest_of(count: usize) -> usize
    ensures { result ≡ count - SHOWN }
{
    count.saturating_sub(SHOWN)
}

/// Tells how many more rows there are than the table that is printed has, and what lists them all.
#[tactic(auto, unfolding(crate::specs::Shown::more))]
fn add_more(page: &mut Page, command: &str, rest: u64) -> Result<(), AllocError>
    ensures { OnOk result (page.new ≡ added page.old (more command.now rest)) }
{
    let parts = [
        Part::BeginAs(Tag::Paragraph, "more"),
        Part::Number(rest),
        Part::Text(" more, each with less: "),
        Part::Leaf(Tag::Code, command),
        Part::Text(" lists all."),
        Part::End,
        Part::Line,
    ];
    add_parts(page, &parts)
}

/// Begins an appendix, which is called so.
#[tactic(auto, unfolding(crate::specs::Shown::folded_head))]
pub(crate) fn begin_folded(page: &mut Page, text: &str, count: u64) -> Result<(), AllocError>
    ensures { OnOk result (page.new ≡ added
        (opened page.old tag.Details ((attribute.Class, codes "appendix") ∷ [])) (folded_head text.now count)) }
{
    let parts = [
        Part::BeginAs(Tag::Details, "appendix"),
        Part::Begin(Tag::Summary),
        Part::Text(text),
        Part::Number(count),
        Part::End,
        Part::Line,
    ];
    add_parts(page, &parts)
}

/// Begins the appendix of the rows that are more than the table has that is printed.
pub(crate) fn begin_appendix(
    page: &mut Page,
    section: &Section,
    rest: usize,
) -> Result<(), AllocError>
    ensures { OnOk result (page.new ≡ added
        (opened (added page.old (more section.now.command.now rest)) tag.Details
        ((attribute.Class, codes "appendix") ∷ []))
        (folded_head (codes "The next ") (min rest LISTED))) }
{
    add_more(page, section.command, rest as u64)?;
    begin_folded(page, "The next ", rest.min(LISTED) as u64)
}

/// The first of some rows, at most so many.
#[tactic(auto, using(crate::proofs::Listed::take_whole))]
pub(crate) fn first_of<T>(rows: &[T], count: usize) -> &[T]
    ensures { result.now ≡ take count rows.now }
{
    rows.get(..count).unwrap_or(rows)
}

/// Those behind the first so many.
#[tactic(auto, using(crate::proofs::Listed::drop_whole))]
fn behind<T>(rows: &[T], count: usize) -> &[T]
    ensures { result.now ≡ drop count rows.now }
{
    rows.get(count..).unwrap_or(&[])
}

/// The places that the table that is printed has, of those in the order of their weights.
pub(crate) fn heaviest(places: &[usize]) -> &[usize]
    ensures { result.now ≡ heaviest places.now }
{
    first_of(places, SHOWN)
}

/// Those that the appendix has.
pub(crate) fn lighter(places: &[usize]) -> &[usize]
    ensures { result.now ≡ lighter places.now }
{
    first_of(behind(places, SHOWN), LISTED)
}
