//! What the words of a question about a state ask for.
use crate::job::Job;
use crate::question::{Actors, EverWords, FlowWords, Question};
use crate::question_words::{operand, range, source, times, when};
use crate::words_fault::WordsFault;
use clap::ArgMatches;
use mls_requests::read_mode;
use mls_spans::States;

/// What `ask` was asked for.
///
/// # Errors
/// `Time` where a word is to be a time and is none.
pub(crate) fn ask_words<'a>(matches: &ArgMatches<'a>) -> Result<Job<'a>, WordsFault<'a>> {
    let when = when(matches)?;
    Ok(Job::Question(Question::Ask {
        source: source(matches, matches.get_str("journal"), when),
        line: operand(matches, "LINE"),
    }))
}

/// What `explain` was asked for.
///
/// # Errors
/// `Time` where a word is to be a time and is none.
pub(crate) fn explain_words<'a>(matches: &ArgMatches<'a>) -> Result<Job<'a>, WordsFault<'a>> {
    let when = when(matches)?;
    Ok(Job::Question(Question::Explain {
        source: source(matches, matches.get_str("journal"), when),
        line: matches.get_str("LINE"),
    }))
}

/// What `who` was asked for about one state.
///
/// # Errors
/// `Time` where a word is to be a time and is none.
fn who_now<'a>(matches: &ArgMatches<'a>) -> Result<Job<'a>, WordsFault<'a>> {
    let when = when(matches)?;
    Ok(Job::Question(Question::Who {
        source: source(matches, matches.get_str("journal"), when),
        object: operand(matches, "OBJ"),
        mode: matches.get_str("MODE"),
    }))
}

/// Which subjects act.
fn actors<'a>(matches: &ArgMatches<'a>) -> Actors<'a> {
    if matches.get_flag("all") {
        return Actors::All;
    }
    match (matches.get_str("by"), matches.get_str("without")) {
        (Some(words), _) => Actors::By(words),
        (None, Some(words)) => Actors::Without(words),
        (None, None) => Actors::Untrusted,
    }
}

/// What `could` was asked for.
///
/// # Errors
/// `Time` where a word is to be a time and is none.
pub(crate) fn could_words<'a>(matches: &ArgMatches<'a>) -> Result<Job<'a>, WordsFault<'a>> {
    let when = when(matches)?;
    Ok(Job::Question(Question::Could {
        source: source(matches, matches.get_str("journal"), when),
        actors: actors(matches),
        line: operand(matches, "LINE"),
    }))
}

/// What `flow` was asked for.
///
/// # Errors
/// `Time` where a word is to be a time and is none.
pub(crate) fn flow_words<'a>(matches: &ArgMatches<'a>) -> Result<Job<'a>, WordsFault<'a>> {
    let when = when(matches)?;
    Ok(Job::Question(Question::Flow {
        source: source(matches, matches.get_str("journal"), when),
        words: FlowWords {
            actors: actors(matches),
            from: operand(matches, "FROM"),
            to: matches.get_str("TO"),
            is_object: matches.get_flag("as-object"),
        },
    }))
}

/// What `who` was asked for about all futures of one state.
///
/// # Errors
/// `Time` where a word is to be a time and is none.
fn who_could<'a>(matches: &ArgMatches<'a>) -> Result<Job<'a>, WordsFault<'a>> {
    let when = when(matches)?;
    Ok(Job::Question(Question::WhoCould {
        source: source(matches, matches.get_str("journal"), when),
        actors: actors(matches),
        object: operand(matches, "OBJ"),
        mode: matches.get_str("MODE"),
    }))
}

/// What `who` was asked for about the states of a journal.
///
/// # Errors
/// `Above` where the first number is above the last, else `Time` where a word is to be a time and is none.
fn who_ever<'a>(matches: &ArgMatches<'a>) -> Result<Job<'a>, WordsFault<'a>> {
    let (from, to) = range(matches)?;
    let times = times(matches, None)?;
    let mode = matches.get_str("MODE");
    Ok(Job::Question(Question::WhoEver(EverWords {
        start: operand(matches, "START"),
        journal: operand(matches, "journal"),
        marks: matches.get_str("marks"),
        object: operand(matches, "OBJ"),
        mode: mode.and_then(|mode| read_mode(mode.as_bytes())),
        states: States::between(from, to),
        times,
    })))
}

/// What `who` was asked for.
///
/// # Errors
/// `Above` where the first number is above the last, else `Time` where a word is to be a time and is none.
pub(crate) fn who_words<'a>(matches: &ArgMatches<'a>) -> Result<Job<'a>, WordsFault<'a>> {
    if matches.get_flag("ever") {
        return who_ever(matches);
    }
    if matches.get_flag("could") {
        return who_could(matches);
    }
    who_now(matches)
}

/// What `powers` was asked for.
///
/// # Errors
/// `Time` where a word is to be a time and is none.
pub(crate) fn powers_words<'a>(matches: &ArgMatches<'a>) -> Result<Job<'a>, WordsFault<'a>> {
    let when = when(matches)?;
    Ok(Job::Question(Question::Powers {
        source: source(matches, matches.get_str("journal"), when),
        subject: matches.get_str("SUBJ"),
        downgrades: matches.get_flag("down"),
    }))
}

/// What `about` was asked for.
///
/// # Errors
/// `Time` where a word is to be a time and is none.
pub(crate) fn about_words<'a>(matches: &ArgMatches<'a>) -> Result<Job<'a>, WordsFault<'a>> {
    let when = when(matches)?;
    Ok(Job::Question(Question::About {
        source: source(matches, matches.get_str("journal"), when),
        name: operand(matches, "NAME"),
        is_object: matches.get_flag("as-object"),
    }))
}

/// What `state` was asked for.
///
/// # Errors
/// `Time` where a word is to be a time and is none.
pub(crate) fn state_words<'a>(matches: &ArgMatches<'a>) -> Result<Job<'a>, WordsFault<'a>> {
    let when = when(matches)?;
    Ok(Job::Question(Question::State {
        source: source(matches, matches.get_str("JOURNAL"), when),
        is_start: matches.get_flag("start"),
        map: matches.get_str("map"),
    }))
}
