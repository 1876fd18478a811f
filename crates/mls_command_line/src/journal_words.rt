//! What the words of a question about a journal ask for.
use crate::job::Job;
use crate::question::{HeldWords, JournalWords, Question, UsageWords};
use crate::question_words::{between_times, operand, range, times, when};
use crate::words_fault::WordsFault;
use clap::ArgMatches;
use mls_listings::{Filter, Form, ReplyFront, Words};
use mls_requests::read_mode;
use mls_spans::{Filter as HeldFilter, States};
use mls_tables::Mode;

/// How replies are to begin, where that is asked for.
///
/// # Errors
/// `Reply` where no reply begins so.
fn reply_front<'a>(matches: &ArgMatches<'a>) -> Result<Option<ReplyFront>, WordsFault<'a>> {
    let Some(words) = matches.get_str("reply") else {
        return Ok(None);
    };
    match ReplyFront::read(words.as_bytes()) {
        Some(front) => Ok(Some(front)),
        None => Err(WordsFault::Reply(words)),
    }
}

/// The form that the entries of a journal are asked for in.
fn form(matches: &ArgMatches<'_>) -> Form {
    match (matches.get_flag("summary"), matches.get_flag("json")) {
        (true, true) => Form::SummaryJson,
        (true, false) => Form::Summary,
        (false, true) => Form::Json,
        (false, false) => Form::Lines,
    }
}

/// Which entries of a journal are asked for, with replies that begin so and numbers between these.
fn filter<'a>(
    matches: &ArgMatches<'a>,
    reply: Option<ReplyFront>,
    from: Option<u64>,
    to: Option<u64>,
) -> Words<'a> {
    Filter {
        subject: matches.get_str("subject"),
        by: matches.get_str("by"),
        object: matches.get_str("object"),
        session: matches.get_one("session"),
        reply,
        from,
        to,
    }
}

/// What `journal` was asked for.
///
/// # Errors
/// `Reply` where no reply begins with the words, else `Above` where the first number is above the last, else that of
/// the times.
pub(crate) fn journal_words<'a>(matches: &ArgMatches<'a>) -> Result<Job<'a>, WordsFault<'a>> {
    let reply = reply_front(matches)?;
    let (from, to) = range(matches)?;
    let (since, until) = between_times(matches)?;
    Ok(Job::Question(Question::Journal(JournalWords {
        start: operand(matches, "START"),
        journal: operand(matches, "JOURNAL"),
        filter: filter(matches, reply, from, to),
        form: form(matches),
        is_trusted: matches.get_flag("used-trust"),
        is_explained: matches.get_flag("explain"),
        marks: matches.get_str("marks"),
        since,
        until,
        after: matches.get_str("after"),
    })))
}

/// The states that are asked about: the one before an entry, or those of some entries.
///
/// # Errors
/// `Above` where the number of the first entry is above that of the last.
fn states<'a>(matches: &ArgMatches<'a>) -> Result<States, WordsFault<'a>> {
    let (from, to) = range(matches)?;
    match matches.get_one::<u64>("at") {
        Some(at) => Ok(States::at(at)),
        None => Ok(States::between(from, to)),
    }
}

/// The mode that is asked for, where one is.
fn mode(matches: &ArgMatches<'_>) -> Option<Mode> {
    let word = matches.get_str("mode")?;
    read_mode(word.as_bytes())
}

/// What `held` was asked for.
///
/// # Errors
/// `Above` where the number of the first entry is above that of the last, else `Time` where a word is to be a time and
/// is none.
pub(crate) fn held_words<'a>(matches: &ArgMatches<'a>) -> Result<Job<'a>, WordsFault<'a>> {
    let states = states(matches)?;
    let when = when(matches)?;
    let times = times(matches, when)?;
    Ok(Job::Question(Question::Held(HeldWords {
        start: operand(matches, "START"),
        journal: operand(matches, "JOURNAL"),
        marks: matches.get_str("marks"),
        filter: HeldFilter {
            subject: matches.get_str("subject"),
            object: matches.get_str("object"),
            mode: mode(matches),
            states,
        },
        times,
        after: matches.get_str("after"),
    })))
}

/// What `usage` was asked for.
///
/// # Errors
/// `Above` where the number of the first entry is above that of the last, else `Time` where a word is to be a time and
/// is none.
pub(crate) fn usage_words<'a>(matches: &ArgMatches<'a>) -> Result<Job<'a>, WordsFault<'a>> {
    let (from, to) = range(matches)?;
    let times = times(matches, None)?;
    Ok(Job::Question(Question::Usage(UsageWords {
        start: operand(matches, "START"),
        journal: operand(matches, "JOURNAL"),
        marks: matches.get_str("marks"),
        states: States::between(from, to),
        times,
        after: matches.get_str("after"),
        subject: matches.get_str("subject"),
        object: matches.get_str("object"),
        never: matches.get_flag("never"),
        tighten: matches.get_flag("tighten"),
    })))
}
