//! How the command of a question ends whose answer is of rows.
use crate::answering::{question_refused, status_of};
use crate::named::Named;
use mls_replay::QuestionFault;
use mls_rows::{Form, Listing};
use mls_terminal::Progress;
use std::process::ExitCode;

/// The form in which an answer is asked for.
pub fn form_of(progress: &Progress<'_>) -> Form {
    if progress.is_json() {
        Form::Json
    } else {
        Form::Text
    }
}

/// Prints an answer.
pub(crate) fn listed(progress: &mut Progress<'_>, listing: Listing) -> ExitCode {
    let Listing { bytes, is_positive } = listing;
    let printed = progress.print(&bytes);
    drop(bytes);
    if printed == ExitCode::SUCCESS {
        status_of(is_positive)
    } else {
        printed
    }
}

/// Ends a command over the bytes of a start file: prints the answer, or tells why there is none.
pub(crate) fn rows_ended(
    progress: &mut Progress<'_>,
    named: &Named<'_>,
    start: &[u8],
    done: Result<Listing, QuestionFault>,
) -> ExitCode {
    progress.end();
    match done {
        Ok(listing) => listed(progress, listing),
        Err(fault) => question_refused(progress.rt(), named, start, fault),
    }
}
