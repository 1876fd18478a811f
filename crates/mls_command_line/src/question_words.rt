//! What several questions are asked by: files, entries and times.
use crate::question::{Source, Times};
use crate::times::{is_behind, time_by, time_from, time_until, times_of_day};
use crate::words_fault::{FormedOption, WordsFault};
use clap::ArgMatches;
use mls_marks::Time;

/// The text of an operand.
pub(crate) fn operand<'a>(matches: &ArgMatches<'a>, name: &str) -> &'a str {
    matches.get_str(name).unwrap_or("")
}

/// The time of the option `--when`, where it is given.
///
/// # Errors
/// `Time` where its word is none.
pub(crate) fn when<'a>(matches: &ArgMatches<'a>) -> Result<Option<Time>, WordsFault<'a>> {
    time_by(FormedOption::When, matches.get_str("when"))
}

/// The operands that stand behind `START`, but for a journal.
const BESIDE: [&str; 5] = ["LINE", "OBJ", "SUBJ", "NAME", "FROM"];

/// The operand that stands behind `START`, where there is one that names no journal.
fn beside<'a>(matches: &ArgMatches<'a>) -> &'a str {
    for name in &BESIDE {
        if let Some(word) = matches.get_str(name) {
            return word;
        }
    }
    ""
}

/// The files of a question about the state that this journal leads to, where there is one, after the last batch by a
/// time, where that is told.
pub(crate) fn source<'a>(
    matches: &ArgMatches<'a>,
    journal: Option<&'a str>,
    when: Option<Time>,
) -> Source<'a> {
    Source {
        start: operand(matches, "START"),
        journal,
        at: matches.get_one("at"),
        marks: matches.get_str("marks"),
        when,
        beside: beside(matches),
    }
}

/// The numbers of the first entry and of the last one, where they are asked for.
///
/// # Errors
/// `Above` where the first number is above the last.
pub(crate) fn range<'a>(
    matches: &ArgMatches<'a>,
) -> Result<(Option<u64>, Option<u64>), WordsFault<'a>> {
    let from = matches.get_one::<u64>("from");
    let to = matches.get_one::<u64>("to");
    match (from, to) {
        (Some(first), Some(last)) if first > last => Err(WordsFault::Above { first, last }),
        _ => Ok((from, to)),
    }
}

/// The first and the last time of marks that are asked for: by `--since` and `--until`, or of the day of `--on`.
///
/// # Errors
/// `Day` where the word of `--on` is no date, `Time` or `Zone` where another word is no time, else `Behind` where the
/// first time is behind the last.
pub(crate) fn between_times<'a>(
    matches: &ArgMatches<'a>,
) -> Result<(Option<Time>, Option<Time>), WordsFault<'a>> {
    if let Some(day) = matches.get_str("on") {
        return times_of_day(day);
    }
    let (since, until) = (matches.get_str("since"), matches.get_str("until"));
    let first = time_from(FormedOption::Since, since)?;
    let last = time_until(FormedOption::Until, until)?;
    match (since, until) {
        (Some(since), Some(until)) if is_behind(since, until) => {
            Err(WordsFault::Behind { since, until })
        }
        _ => Ok((first, last)),
    }
}

/// The times by which states are asked about, beside that of the only one, where it is told.
///
/// # Errors
/// `Time` where a word is to be a time and is none.
pub(crate) fn times<'a>(
    matches: &ArgMatches<'a>,
    when: Option<Time>,
) -> Result<Times, WordsFault<'a>> {
    let (since, until) = between_times(matches)?;
    Ok(Times { since, until, when })
}
