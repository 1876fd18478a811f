//! The command that prints a page about a journal.
use crate::answering::question_refused;
use crate::named::Named;
use crate::part::Part;
use crate::past::{Past, past_refused, replayed};
use crate::report_parts::page_over;
use crate::sources::{Bytes, read_source};
use crate::spans::states_of;
use mls_command_line::{ReportWords, Source};
use mls_replay::QuestionFault;
use mls_spans::States;
use mls_terminal::{NO_MEMORY, Progress, refused};
use std::alloc::{AllocError, Global};
use std::process::ExitCode;

/// Whether a page is asked for about a part of the journal alone.
fn is_part(words: &ReportWords<'_>) -> bool {
    let times = &words.times;
    let is_timed = times.since.is_some() || times.until.is_some() || times.when.is_some();
    let is_numbered = words.states.first > 0 || words.states.last.is_some();
    words.at.is_some() || is_timed || is_numbered
}

/// The states that a page is about: those up to one, where the journal is to end there, or those of words.
fn states(words: &ReportWords<'_>, bytes: &Bytes) -> States {
    match bytes.at.or(words.at) {
        Some(at) => States {
            first: 0,
            last: Some(at),
        },
        None => states_of(words.states, &words.times, bytes),
    }
}

/// Between which states the part of the journal is that a page is about, where it isn't about all of it.
fn part_told(words: &ReportWords<'_>, part: &Part<'_>) -> Option<(u64, u64)> {
    if is_part(words) {
        Some((part.first(), part.last()))
    } else {
        None
    }
}

/// The page about a part of a journal.
fn page_about(
    alloc: Global,
    words: &ReportWords<'_>,
    past: &Past,
    part: &Part<'_>,
) -> Result<Vec<u8>, AllocError> {
    let files = (words.start, words.journal);
    let told = part_told(words, part);
    page_over(
        alloc,
        files,
        told,
        part,
        past.verified.as_ref(),
        past.marks.as_ref(),
    )
}

/// The page about some states of a journal that was replayed, and the entries between them.
fn page_of(
    alloc: Global,
    words: &ReportWords<'_>,
    past: &Past,
    states: States,
) -> Result<Vec<u8>, AllocError> {
    let part = Part::of(alloc, past.history.replay(), states)?;
    let page = page_about(alloc, words, past, &part);
    drop(part);
    page
}

/// Prints a page about some states of a journal that was replayed.
fn report_over(
    progress: &mut Progress<'_>,
    words: &ReportWords<'_>,
    past: &Past,
    states: States,
) -> ExitCode {
    let many = past.history.replay().entries().len() as u64;
    if words.at.unwrap_or(0) > many {
        progress.end();
        let named = Named::files(words.start, words.journal);
        let fault = QuestionFault::AtMost(many);
        return question_refused(progress.rt(), &named, b"".as_slice(), fault);
    }
    let done = page_of(progress.rt().alloc(), words, past, states);
    progress.end();
    match done {
        Ok(html) => {
            let status = progress.print(&html);
            drop(html);
            status
        }
        Err(AllocError) => refused(progress.rt(), NO_MEMORY, 1),
    }
}

/// Prints a page about a journal, over the bytes of its files.
fn report_bytes(progress: &mut Progress<'_>, words: &ReportWords<'_>, bytes: Bytes) -> ExitCode {
    let states = states(words, &bytes);
    progress.begin("reporting");
    match replayed(progress.rt().alloc(), bytes, Some(states.first)) {
        Ok(past) => {
            let status = report_over(progress, words, &past, states);
            drop(past);
            status
        }
        Err(fault) => past_refused(progress, &Named::files(words.start, words.journal), fault),
    }
}

/// Prints a page about a journal.
pub(crate) fn report(
    progress: &mut Progress<'_>,
    source: &Source<'_>,
    words: &ReportWords<'_>,
) -> ExitCode {
    match read_source(progress, source) {
        Ok(bytes) => report_bytes(progress, words, bytes),
        Err(status) => status,
    }
}
