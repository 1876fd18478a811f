//! What a page about a part of a journal is of, each of what another question tells.
use crate::part::Part;
use crate::report_counts::{count_removable, in_order, short_of, usages_of, walked_over};
use crate::report_rows::{Counted, Looked, Told, page_counted};
use mls_listings::{Choice, Filter, Summary, summarize};
use mls_marks::{Marks, Verified};
use mls_overview::{Denial, denials};
use mls_page::{Found, Walked, trust_counts};
use mls_spans::Usage;
use std::alloc::{AllocError, Global};
use std::str;

/// All entries.
const ALL: Choice = Filter {
    subject: None,
    by: None,
    object: None,
    session: None,
    reply: None,
    from: None,
    to: None,
};

/// A text that is ASCII.
fn ascii(bytes: &[u8]) -> &str {
    str::from_utf8(bytes).unwrap_or("")
}

/// The page about a journal whose entries are summed up so.
fn page_summed(
    alloc: Global,
    told: &Told<'_, '_>,
    looked: &Looked<'_>,
    usages: &[Usage],
    summary: &Summary,
) -> Result<Vec<u8>, AllocError> {
    let removable = count_removable(alloc, told.seen, usages)?;
    let counted = Counted {
        usages,
        summary,
        short: short_of(summary, usages, removable),
    };
    page_counted(alloc, told, looked, &counted)
}

/// The page about a journal whose permissions were used so.
fn page_used(
    alloc: Global,
    told: &Told<'_, '_>,
    looked: &Looked<'_>,
    usages: &[Usage],
) -> Result<Vec<u8>, AllocError> {
    let summary = summarize(alloc, &ALL, told.seen.entries())?;
    let page = page_summed(alloc, told, looked, usages, &summary);
    drop(summary);
    page
}

/// The page about a journal in whose states this was looked at.
fn page_looked(
    alloc: Global,
    told: &Told<'_, '_>,
    looked: &Looked<'_>,
) -> Result<Vec<u8>, AllocError> {
    let usages = usages_of(alloc, told.seen)?;
    let page = page_used(alloc, told, looked, &usages);
    drop(usages);
    page
}

/// The page about a journal with these denials, whose states were walked through.
fn page_walked(
    alloc: Global,
    told: &Told<'_, '_>,
    denials: &[Denial],
    places: &[usize],
    walked: &Walked,
) -> Result<Vec<u8>, AllocError> {
    let rows = trust_counts(alloc, &walked.trusting)?;
    let looked = Looked {
        denials,
        places,
        walked,
        trusting: &rows,
    };
    let page = page_looked(alloc, told, &looked);
    drop(rows);
    page
}

/// The page about a journal with these denials, in this order.
fn page_ordered(
    alloc: Global,
    told: &Told<'_, '_>,
    denials: &[Denial],
    places: &[usize],
) -> Result<Vec<u8>, AllocError> {
    let walked = walked_over(alloc, told.seen, denials, places)?;
    let page = page_walked(alloc, told, denials, places, &walked);
    drop(walked);
    page
}

/// The page about a journal with these denials.
fn page_denied(
    alloc: Global,
    told: &Told<'_, '_>,
    denials: &[Denial],
) -> Result<Vec<u8>, AllocError> {
    let places = in_order(alloc, denials)?;
    let page = page_ordered(alloc, told, denials, &places);
    drop(places);
    page
}

/// The page about a journal.
fn page_told(alloc: Global, told: &Told<'_, '_>) -> Result<Vec<u8>, AllocError> {
    let denials = denials(alloc, told.seen.entries())?;
    let page = page_denied(alloc, told, &denials);
    drop(denials);
    page
}

/// The page about a part of a journal, and its marks.
fn page_marked<'x>(
    alloc: Global,
    told: &Told<'x, 'x>,
    verified: &Verified,
    marks: Option<&'x Marks>,
) -> Result<Vec<u8>, AllocError> {
    let digest = verified.chain.digest.text();
    let times = match (&verified.first, &verified.last) {
        (Some(first), Some(last)) => Some((ascii(first.text()), ascii(last.text()))),
        (_, _) => None,
    };
    let found = Found {
        digest: ascii(&digest),
        times,
        behind: told.seen.many().saturating_sub(verified.chain.entries),
    };
    let told = Told {
        start: told.start,
        journal: told.journal,
        part: told.part,
        seen: told.seen,
        marks,
        found: Some(found),
    };
    page_told(alloc, &told)
}

/// The page about a part of a journal, of which the page tells between which states it is where these are given.
///
/// # Errors
/// `AllocError` where an allocation failed.
pub(crate) fn page_over<'x>(
    alloc: Global,
    files: (&'x str, &'x str),
    part: Option<(u64, u64)>,
    seen: &'x Part<'x>,
    verified: Option<&Verified>,
    marks: Option<&'x Marks>,
) -> Result<Vec<u8>, AllocError> {
    let (start, journal) = files;
    let told = Told {
        start,
        journal,
        part,
        seen,
        marks: None,
        found: None,
    };
    match verified {
        Some(verified) => page_marked(alloc, &told, verified, marks),
        None => page_told(alloc, &told),
    }
}
