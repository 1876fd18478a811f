//! What the words of questions about a start or a state of a journal ask for, and those of a report.
use crate::job::Job;
use crate::question::{Question, ReportWords};
use crate::question_words::{operand, range, source, times, when};
use crate::words_fault::WordsFault;
use clap::ArgMatches;
use mls_spans::States;

/// What `lint` was asked for.
///
/// # Errors
/// `Time` where a word is to be a time and is none.
pub(crate) fn lint_words<'a>(matches: &ArgMatches<'a>) -> Result<Job<'a>, WordsFault<'a>> {
    let when = when(matches)?;
    let source = source(matches, matches.get_str("journal"), when);
    Ok(Job::Question(Question::Lint { source }))
}

/// What `lattice` was asked for.
///
/// # Errors
/// `Time` where a word is to be a time and is none.
pub(crate) fn lattice_words<'a>(matches: &ArgMatches<'a>) -> Result<Job<'a>, WordsFault<'a>> {
    let when = when(matches)?;
    let source = source(matches, matches.get_str("journal"), when);
    Ok(Job::Question(Question::Lattice { source }))
}

/// What `report` was asked for.
///
/// # Errors
/// `Above` where the number of the first entry is above that of the last, else `Time` where a word is to be a time and
/// is none.
pub(crate) fn report_words<'a>(matches: &ArgMatches<'a>) -> Result<Job<'a>, WordsFault<'a>> {
    let (from, to) = range(matches)?;
    let when = when(matches)?;
    let times = times(matches, when)?;
    Ok(Job::Question(Question::Report(ReportWords {
        start: operand(matches, "START"),
        journal: operand(matches, "JOURNAL"),
        marks: matches.get_str("marks"),
        at: matches.get_one("at"),
        states: States::between(from, to),
        times,
    })))
}
