//! The command that tells all of a subject or of an object.
use crate::answering::{name_refused, thing_refused};
use crate::named::Named;
use crate::past::{Past, past_refused, replayed};
use crate::row_answers::{form_of, rows_ended};
use crate::sources::Bytes;
use mls_answers::about as told;
use mls_command_line::Source;
use mls_explain_text::Sort;
use mls_files::Hint;
use mls_replay::QuestionFault;
use mls_rows::Listing;
use mls_terminal::Progress;
use std::process::ExitCode;

/// Ends the command over the bytes of a start file: prints the answer, or tells why there is none.
fn ended_about(
    progress: &mut Progress<'_>,
    named: &Named<'_>,
    start: &[u8],
    done: Result<Listing, QuestionFault>,
) -> ExitCode {
    let fault = match &done {
        Err(fault) => Some(*fault),
        Ok(_) => None,
    };
    let (rt, word) = (progress.rt(), named.object);
    match fault {
        Some(QuestionFault::Subject) => {
            progress.end();
            drop(done);
            thing_refused(rt, start, word)
        }
        Some(QuestionFault::Object) => {
            progress.end();
            drop(done);
            name_refused(rt, start, Sort::Object, word)
        }
        _ => rows_ended(progress, named, start, done),
    }
}

/// Prints all that there is to tell over a journal that was replayed, or over a start alone.
fn about_past(
    progress: &mut Progress<'_>,
    named: &Named<'_>,
    past: &Past,
    has_journal: bool,
    is_object: bool,
) -> ExitCode {
    let (alloc, form) = (progress.rt().alloc(), form_of(progress));
    let marks = past.marks.as_ref();
    let name = named.object;
    let done = told(
        alloc,
        form,
        &past.history,
        has_journal,
        marks,
        name,
        is_object,
    );
    ended_about(progress, named, past.history.start_file(), done)
}

/// Prints all that there is to tell of a subject or of an object.
pub(crate) fn about(
    progress: &mut Progress<'_>,
    source: &Source<'_>,
    bytes: Bytes,
    name: &str,
    is_object: bool,
) -> ExitCode {
    progress.begin("looking");
    let (has_journal, at) = (bytes.journal.is_some(), bytes.at);
    let named = Named {
        start: source.start,
        journal: source.journal.unwrap_or(""),
        subject: "",
        object: name,
        line: "",
        hint: Hint::None,
    };
    match replayed(progress.rt().alloc(), bytes, at) {
        Ok(past) => {
            let status = about_past(progress, &named, &past, has_journal, is_object);
            drop(past);
            status
        }
        Err(fault) => past_refused(progress, &named, fault),
    }
}
