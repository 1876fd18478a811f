//! Which part of a journal the page is about.
ghost use Rattle.std.specs.Prelude.{◌≡◌, OnOk};
ghost use Rattle.mls_markup.specs.Drafts.{added};
ghost use Rattle.mls_page.specs.Terms.{part};

use crate::parts::{Part, add_parts};
use mls_markup::{Page, Tag};
use std::alloc::AllocError;

const STATES: &str =
    "Held has whole spans, and Verified is of all of J. The commands print the same with ";

/// Appends that the page is about a part of the journal alone, from one state to another: a state has the number of the
/// entry behind it.
///
/// # Errors
/// `AllocError` where an allocation failed.
#[tactic(auto, unfolding(crate::specs::Terms::part))]
pub(crate) fn add_part(page: &mut Page, first: u64, last: u64) -> Result<(), AllocError>
    ensures { OnOk result (page.new ≡ added page.old (part first last)) }
{
    let parts = [
        Part::BeginAs(Tag::Paragraph, "part"),
        Part::Text("This report is of a part of J: from the state before entry "),
        Part::Number(first),
        Part::Text(" to the one before entry "),
        Part::Number(last),
        Part::Text(". The first of these states stands for the one that START opens with, "),
        Part::Text("the last for the one after the last entry. "),
        Part::Text(STATES),
        Part::Leaf(Tag::Code, "--from"),
        Part::Text(" and "),
        Part::Leaf(Tag::Code, "--to"),
        Part::Text(", those about one state with "),
        Part::Leaf(Tag::Code, "--at"),
        Part::Text("."),
        Part::End,
        Part::Line,
    ];
    add_parts(page, &parts)
}
