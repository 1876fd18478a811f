//! Denials over time.
use crate::column::{columns, count_in};
use crate::day::week_of;
use mls_marks::Marks;
use mls_requests::{Entry, Reply};
use std::alloc::{AllocError, Global};

/// How many columns there are at most where times are told, and how many where they aren't.
const WEEKS: u64 = 106;

const PARTS: u64 = 24;

/// How many entries were denied, column by column.
#[derive(Drop)]
pub struct Trend {
    pub columns: Vec<u64>,
    /// The week of the first column, and how many weeks a column has; none where a column is one of equal parts of the
    /// entries.
    pub weeks: Option<(u64, u64)>,
    /// How many denied entries are in no column, since no mark covers them.
    pub unmarked: u64,
}

/// Whether an entry was denied.
fn is_denied(entry: &Entry) -> bool {
    match entry.reply {
        Reply::No(_) => true,
        Reply::Yes | Reply::Created(_) | Reply::Undefined => false,
    }
}

/// The first and the last week in which some entries were made, where marks tell the time of one.
fn weeks_of(marks: &Marks, entries: &[Entry]) -> Option<(u64, u64)> {
    let mut weeks = None;
    for entry in entries {
        if let Some(time) = marks.time_of(entry.number) {
            let week = week_of(&time);
            weeks = match weeks {
                None => Some((week, week)),
                Some((first, last)) => Some((week.min(first), week.max(last))),
            };
        }
    }
    weeks
}

impl Trend {
    /// Counts a denied entry in the column of its week.
    fn count(&mut self, marks: &Marks, number: u64, first: u64, width: u64) {
        match marks.time_of(number) {
            Some(time) => {
                let week = week_of(&time).saturating_sub(first);
                count_in(&mut self.columns, week.checked_div(width).unwrap_or(0));
            }
            None => self.unmarked = self.unmarked.saturating_add(1),
        }
    }
}

/// How many entries were denied in each week from the first entry's to the last one's, or in as many weeks as there is
/// one column for; none where no mark tells the time of an entry.
///
/// # Errors
/// `AllocError` where an allocation failed.
pub fn trend_by_week(
    alloc: Global,
    marks: &Marks,
    entries: &[Entry],
) -> Result<Option<Trend>, AllocError> {
    let Some((first, last)) = weeks_of(marks, entries) else {
        return Ok(None);
    };
    let span = last.saturating_sub(first);
    let width = (span / WEEKS).saturating_add(1);
    let count = (span.checked_div(width).unwrap_or(0))
        .saturating_add(1)
        .min(WEEKS);
    let mut trend = Trend {
        columns: columns(alloc, count as usize)?,
        weeks: Some((first, width)),
        unmarked: 0,
    };
    for entry in entries {
        if is_denied(entry) {
            trend.count(marks, entry.number, first, width);
        }
    }
    Ok(Some(trend))
}

/// How many entries were denied in each of equal parts of some entries.
///
/// # Errors
/// `AllocError` where an allocation failed.
pub fn trend_by_part(alloc: Global, entries: &[Entry]) -> Result<Trend, AllocError> {
    let many = entries.len() as u64;
    let count = many.min(PARTS);
    let mut trend = Trend {
        columns: columns(alloc, count as usize)?,
        weeks: None,
        unmarked: 0,
    };
    for (place, entry) in entries.iter().enumerate() {
        if is_denied(entry) {
            let part = (place as u64).saturating_mul(count).checked_div(many);
            count_in(&mut trend.columns, part.unwrap_or(0));
        }
    }
    Ok(trend)
}
