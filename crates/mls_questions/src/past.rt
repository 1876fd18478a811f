//! A journal that was replayed for a question about all its entries.
use crate::answering::question_refused;
use crate::named::{Named, hint_of};
use crate::sources::Bytes;
use mls_files::{Hint, start_hint};
use mls_marks::{Marks, Verified};
use mls_replay::QuestionFault;
use mls_seen::{History, TextHistory, TextRefused};
use mls_terminal::Progress;
use std::alloc::Global;
use std::process::ExitCode;

/// A journal that was replayed over a start file, with its marks where these were read. The bytes of the journal aren't
/// kept.
#[derive(Drop)]
pub(crate) struct Past {
    pub history: History,
    pub marks: Option<Marks>,
    /// What the marks say.
    pub verified: Option<Verified>,
}

/// A journal that was replayed over a start file and whose entries are read as they come, with its marks where these
/// were read.
#[derive(Drop)]
pub(crate) struct TextPast {
    pub history: TextHistory,
    pub marks: Option<Marks>,
}

/// Why a journal isn't replayed, and what the file looks like that is refused.
pub(crate) struct NotReplayed {
    fault: QuestionFault,
    hint: Hint,
}

/// The journal, replayed, with the state before the entry of a number, or the one that all entries lead to.
///
/// # Errors
/// Why it isn't replayed.
pub(crate) fn replayed(alloc: Global, bytes: Bytes, at: Option<u64>) -> Result<Past, NotReplayed> {
    let Bytes {
        start,
        journal,
        marks,
        verified,
        at: _,
    } = bytes;
    let entries = journal.as_deref().unwrap_or(b"".as_slice());
    let look = start_hint(&start);
    let read = History::read(alloc, start, entries, at);
    match read {
        Ok(history) => {
            drop(journal);
            Ok(Past {
                history,
                marks,
                verified,
            })
        }
        Err(fault) => {
            drop(marks);
            drop(verified);
            let hint = hint_of(&fault, look, entries);
            drop(journal);
            Err(NotReplayed { fault, hint })
        }
    }
}

/// The journal, replayed, with its bytes, which may be none, and with the state before the entry of a number, or the
/// one that all entries lead to.
///
/// # Errors
/// Why it isn't replayed.
pub(crate) fn replayed_text(
    alloc: Global,
    bytes: Bytes,
    at: Option<u64>,
) -> Result<TextPast, NotReplayed> {
    let Bytes {
        start,
        journal,
        marks,
        verified,
        at: _,
    } = bytes;
    drop(verified);
    let journal = match journal {
        Some(journal) => journal,
        None => Vec::new(alloc),
    };
    let look = start_hint(&start);
    match TextHistory::read(alloc, start, journal, at) {
        Ok(history) => Ok(TextPast { history, marks }),
        Err(refused) => {
            drop(marks);
            let TextRefused { fault, journal } = refused;
            let hint = hint_of(&fault, look, &journal);
            drop(journal);
            Err(NotReplayed { fault, hint })
        }
    }
}

/// Tells why a journal isn't replayed.
pub(crate) fn past_refused(
    progress: &mut Progress<'_>,
    named: &Named<'_>,
    refused: NotReplayed,
) -> ExitCode {
    progress.end();
    let NotReplayed { fault, hint } = refused;
    question_refused(progress.rt(), &named.with_hint(hint), b"".as_slice(), fault)
}
