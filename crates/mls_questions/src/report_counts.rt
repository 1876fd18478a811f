//! What a page about a part of a journal counts.
use crate::part::Part;
use mls_groups::by_weight;
use mls_listings::Summary;
use mls_marks::Marks;
use mls_overview::{Denial, Trend, trend_by_part, trend_by_week};
use mls_page::{SHOWN, Short, Walked, walk};
use mls_requests::ReplyWord;
use mls_rules::State;
use mls_spans::{Usage, count_unused, usages_over};
use mls_state::Table;
use std::alloc::{AllocError, Global};

/// How permissions were used, from the first of the states on; none where there is no such state.
pub(crate) fn usages_of(alloc: Global, seen: &Part<'_>) -> Result<Vec<Usage>, AllocError> {
    if !seen.has_states() {
        return Ok(Vec::new(alloc));
    }
    let opening = seen.start().opening(alloc)?;
    let usages = usages_over(alloc, &opening, seen.entries());
    drop(opening);
    usages
}

/// The places of denials, by how many entries each counts.
pub(crate) fn in_order(alloc: Global, denials: &[Denial]) -> Result<Vec<usize>, AllocError> {
    let mut weights = Vec::new(alloc);
    for denial in denials {
        weights.push(denial.count)?;
    }
    let places = by_weight(alloc, &weights);
    drop(weights);
    places
}

/// The places of the entries that are explained: the last of each of the heaviest denials.
fn wanted(alloc: Global, denials: &[Denial], places: &[usize]) -> Result<Vec<usize>, AllocError> {
    let mut found = Vec::new(alloc);
    for place in places.iter().take(SHOWN) {
        if let Some(denial) = denials.get(*place) {
            found.push(denial.last)?;
        }
    }
    Ok(found)
}

/// How denials went over time: by week where marks tell times.
pub(crate) fn trend_of(
    alloc: Global,
    seen: &Part<'_>,
    marks: Option<&Marks>,
) -> Result<Trend, AllocError> {
    if let Some(marks) = marks {
        if let Some(trend) = trend_by_week(alloc, marks, seen.entries())? {
            return Ok(trend);
        }
    }
    trend_by_part(alloc, seen.entries())
}

/// What is looked at in each state.
pub(crate) fn walked_over(
    alloc: Global,
    seen: &Part<'_>,
    denials: &[Denial],
    places: &[usize],
) -> Result<Walked, AllocError> {
    let wanted = wanted(alloc, denials, places)?;
    let walked = walk(alloc, seen.names(), seen.start(), seen.entries(), &wanted);
    drop(wanted);
    walked
}

/// Whether `usage --tighten` leaves a permission out of a start that opens with this state.
fn is_removable(opening: &State, usage: &Usage) -> bool {
    let (s, o, x) = usage.access;
    let is_cell = Table::Matrix.modes(opening, s, o).has(x);
    usage.is_unused() && is_cell && !opening.has_access(s, o, x)
}

/// How many permissions `usage --tighten` leaves out of the start of the journal.
pub(crate) fn count_removable(
    alloc: Global,
    seen: &Part<'_>,
    usages: &[Usage],
) -> Result<u64, AllocError> {
    let opening = seen.journal_start().opening(alloc)?;
    let mut count: u64 = 0;
    for usage in usages {
        if is_removable(&opening, usage) {
            count = count.saturating_add(1);
        }
    }
    drop(opening);
    Ok(count)
}

/// The numbers of the first lines.
pub(crate) fn short_of(summary: &Summary, usages: &[Usage], removable: u64) -> Short {
    let mut short = Short {
        entries: summary.entries,
        granted: 0,
        denied: 0,
        undefined: 0,
        permissions: usages.len() as u64,
        unused: count_unused(usages),
        removable,
    };
    for row in &summary.replies {
        match row.word {
            ReplyWord::Yes | ReplyWord::Created => {
                short.granted = short.granted.saturating_add(row.entries);
            }
            ReplyWord::No => short.denied = short.denied.saturating_add(row.entries),
            ReplyWord::Undefined => {
                short.undefined = short.undefined.saturating_add(row.entries);
            }
        }
    }
    short
}
