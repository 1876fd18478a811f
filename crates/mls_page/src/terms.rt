//! The words of the page, each in a line.
ghost use Rattle.std.specs.Prelude.{◌≡◌, OnOk};
ghost use Rattle.mls_markup.specs.Drafts.{added};
ghost use Rattle.mls_markup.specs.Trees.{all_of};
ghost use Rattle.mls_page.specs.Terms.{term_lines, term_of, terms};

use crate::parts::{Part, add_parts};
use mls_markup::{Page, Tag};
use std::alloc::AllocError;

/// A word, and what it says.
#[derive(Clone, Copy)]
pub(crate) struct Term {
    pub word: &'static str,
    pub told: &'static str,
}

const TERMS: [Term; 16] = [
    Term {
        word: "entry",
        told: "one request in the journal, with its reply",
    },
    Term {
        word: "denied",
        told: "the first condition of the request's rule that fails is the reason",
    },
    Term {
        word: "undefined",
        told: "the request names a subject, an object or a label that does not exist",
    },
    Term {
        word: "held",
        told: "got and not yet released: the subject may use the object in this mode",
    },
    Term {
        word: "dominates",
        told: "has the same level or a higher one, and all categories of the other label",
    },
    Term {
        word: "discretionary",
        told: "the matrix of permissions does not permit the subject this mode of the object",
    },
    Term {
        word: "simple",
        told: "no reading up: the subject's maximum does not dominate the object's label",
    },
    Term {
        word: "star",
        told: "no writing down: information could flow to a label that does not dominate its own",
    },
    Term {
        word: "integrity",
        told: "data of low integrity would reach what is of higher integrity",
    },
    Term {
        word: "authority",
        told: "the subject does not write the object's parent, or is not trusted, as the rule requires",
    },
    Term {
        word: "compatibility",
        told: "an object's label would not dominate that of its parent",
    },
    Term {
        word: "ceiling",
        told: "the new level is above the subject's maximum",
    },
    Term {
        word: "root",
        told: "the root cannot be deleted",
    },
    Term {
        word: "full",
        told: "there is no number for another object",
    },
    Term {
        word: "trusted",
        told: "star does not bind the subject, and it may relabel objects and give permissions on the root",
    },
    Term {
        word: "mark",
        told: "a line with a time and a digest of the journal up to there",
    },
];

/// The line of a word.
#[tactic(auto, unfolding(crate::specs::Terms::term_line))]
fn add_term(page: &mut Page, term: &Term) -> Result<(), AllocError>
    ensures { OnOk result (page.new ≡ added page.old (term_of term.now)) }
{
    let parts = [
        Part::Begin(Tag::Item),
        Part::Leaf(Tag::Bold, term.word),
        Part::Text(": "),
        Part::Text(term.told),
        Part::End,
        Part::Line,
    ];
    add_parts(page, &parts)
}

/// The lines of words.
fn add_lines(page: &mut Page, rows: &[Term]) -> Result<(), AllocError>
    ensures { OnOk result (page.new ≡ added page.old (all_of term_of rows.now)) }
{
    for term in rows {
        add_term(page, term)?;
    }
    Ok(())
}

/// The lines of all words.
fn add_all(page: &mut Page) -> Result<(), AllocError>
    ensures { OnOk result (page.new ≡ added page.old term_lines) }
{
    add_lines(page, &TERMS)?;
    Ok(())
}

/// Appends what the words of the page say.
///
/// # Errors
/// `AllocError` where an allocation failed.
#[tactic(auto, unfolding(crate::specs::Terms::terms))]
pub(crate) fn add_terms(page: &mut Page) -> Result<(), AllocError>
    ensures { OnOk result (page.new ≡ added page.old terms) }
{
    let parts = [
        Part::BeginAs(Tag::Details, "terms"),
        Part::Leaf(Tag::Summary, "What the words mean"),
        Part::Begin(Tag::Items),
        Part::Line,
    ];
    add_parts(page, &parts)?;
    add_all(page)?;
    add_parts(page, &[Part::End, Part::End, Part::Line])
}
