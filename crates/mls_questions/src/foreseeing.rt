//! How the questions end what could come about, and where content could flow.
use crate::acting::{tell_idle, unknown_word};
use crate::answering::thing_refused;
use crate::form_meant::asks_no_get;
use crate::named::Named;
use crate::row_answers::rows_ended;
use mls_command_line::FlowWords;
use mls_lines::LineFault;
use mls_replay::{QuestionFault, named_object};
use mls_rows::Listing;
use mls_seen::Seen;
use mls_terminal::Progress;
use std::process::ExitCode;

/// Ends the question what could come about: prints the answer, or tells why there is none.
pub(crate) fn ended_could(
    progress: &mut Progress<'_>,
    named: &Named<'_>,
    start: &[u8],
    line: &str,
    done: Result<Listing, QuestionFault>,
) -> ExitCode {
    let is_bad = matches!(&done, Err(QuestionFault::Line(LineFault::BadForm)));
    if is_bad && asks_no_get(line) {
        progress.end();
        drop(done);
        let _ = eprintln!(progress.rt(); "mls: line: bad form: could asks of a get");
        return ExitCode::from(1);
    }
    rows_ended(progress, named, start, done)
}

/// Whether a word names an object.
fn names_object(seen: &Seen, word: &str) -> bool {
    named_object(seen.names(), word).is_ok()
}

/// Whether there is a word for a place that names neither a subject nor an object.
fn names_nothing(seen: &Seen, to: Option<&str>) -> bool {
    match to {
        Some(word) => seen.names().subject(word).is_none() && !names_object(seen, word),
        None => false,
    }
}

/// The word that names no object, where one of the two doesn't.
fn unknown_object<'a>(seen: &Seen, words: FlowWords<'a>) -> &'a str {
    if names_object(seen, words.from) {
        words.to.unwrap_or("")
    } else {
        words.from
    }
}

/// Ends the question where content could flow: prints the answer, or tells why there is none.
pub(crate) fn ended_flow<'a>(
    progress: &mut Progress<'_>,
    named: &Named<'a>,
    seen: &Seen,
    words: FlowWords<'a>,
    done: Result<Listing, QuestionFault>,
) -> ExitCode {
    let start = seen.start_file();
    let is_subject = matches!(&done, Err(QuestionFault::Subject));
    if is_subject && names_nothing(seen, words.to) {
        progress.end();
        drop(done);
        return thing_refused(progress.rt(), start, words.to.unwrap_or(""));
    }
    let mut named = named.with_hint(named.hint);
    named.object = unknown_object(seen, words);
    named.subject = unknown_word(seen, words.actors);
    let is_never = matches!(&done, Ok(listing) if !listing.is_positive);
    let status = rows_ended(progress, &named, start, done);
    if is_never {
        tell_idle(progress.rt(), seen, words);
    }
    status
}
