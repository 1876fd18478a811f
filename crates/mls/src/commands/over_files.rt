//! The commands over files.
use mls_answers::check as said_of;
use mls_files::{
    Goal, Hint, Wanted, fault_file, journal_hint, load_hint, open_start, read_journal,
    refused_with_place, seek, segments_of, start_file, start_hint,
};
use mls_questions::form_of;
use mls_replay::{CommandFault, ending, replay_journal};
use mls_rows::Form;
use mls_seen::Opened;
use mls_terminal::{NO_MEMORY, Progress, file_refused, print, refused};
use std::alloc::Global;
use std::process::ExitCode;

/// Ends a command: writes its output, or tells why it was refused.
fn ended(
    progress: &mut Progress<'_>,
    done: Result<Vec<u8>, CommandFault>,
    start: &str,
    journal: &str,
    hint: Hint,
) -> ExitCode {
    progress.end();
    match done {
        Ok(bytes) => {
            let status = progress.print(&bytes);
            drop(bytes);
            status
        }
        Err(fault) => {
            let file = fault_file(&fault, start, journal);
            refused_with_place(progress.rt(), file, &fault, hint)
        }
    }
}

/// What is added to the fault of a command, where something is: what a start file looks like, or a journal.
fn hint_of(
    progress: &Progress<'_>,
    done: &Result<Vec<u8>, CommandFault>,
    start: Hint,
    journal: &[u8],
) -> Hint {
    match done {
        Err(fault) if progress.is_adding() => match fault {
            CommandFault::Load(_) => load_hint(fault, start),
            fault => journal_hint(fault, journal),
        },
        _ => Hint::None,
    }
}

/// What is said of a start file that is checked.
fn checked(alloc: Global, form: Form, bytes: Vec<u8>) -> Result<Vec<u8>, CommandFault> {
    let opened = Opened::read(alloc, bytes)?;
    let said = said_of(alloc, form, &opened);
    drop(opened);
    Ok(said?)
}

/// Checks a start file.
pub fn check(progress: &mut Progress<'_>, start: &str) -> ExitCode {
    let bytes = match start_file(start).read(progress) {
        Ok(bytes) => bytes,
        Err(fault) => return file_refused(progress, start, fault),
    };
    progress.begin("checking");
    let look = start_hint(&bytes);
    let done = checked(progress.rt().alloc(), form_of(progress), bytes);
    let hint = hint_of(progress, &done, look, b"".as_slice());
    ended(progress, done, start, start, hint)
}

/// Replays the files of a journal in segments over a start file that was read, and says how the monitor then stands.
fn replay_all(progress: &mut Progress<'_>, wanted: Wanted<'_>, opened: Opened) -> ExitCode {
    let sought = match seek(progress, wanted, opened) {
        Ok(sought) => sought,
        Err(status) => return status,
    };
    let text = ending(progress.rt().alloc(), sought.seeing.monitor());
    drop(sought);
    progress.end();
    match text {
        Ok(text) => {
            let status = print(progress.rt(), text.as_bytes());
            drop(text);
            status
        }
        Err(_) => refused(progress.rt(), NO_MEMORY, 1),
    }
}

/// Replays the files of a journal in segments over the bytes of a start file, and compares each state that was kept.
fn replay_segments(
    progress: &mut Progress<'_>,
    bytes: Vec<u8>,
    start: &str,
    journal: &str,
    path: &str,
) -> ExitCode {
    let opened = match open_start(progress, start, bytes) {
        Ok(opened) => opened,
        Err(status) => return status,
    };
    let wanted = Wanted {
        name: journal,
        journal: path,
        goal: Goal::All,
    };
    replay_all(progress, wanted, opened)
}

/// What is said of a journal that is replayed.
fn replayed(alloc: Global, start: &[u8], journal: &[u8]) -> Result<Vec<u8>, CommandFault> {
    Ok(replay_journal(alloc, start, journal)?.into_bytes())
}

/// Replays a journal whose start file was read.
fn replay_over(progress: &mut Progress<'_>, bytes: &[u8], start: &str, journal: &str) -> ExitCode {
    let entries = match read_journal(progress, journal) {
        Ok(entries) => entries,
        Err(fault) => return file_refused(progress, journal, fault),
    };
    progress.begin("replaying");
    let replayed = replayed(progress.rt().alloc(), bytes, &entries);
    let hint = hint_of(progress, &replayed, start_hint(bytes), &entries);
    drop(entries);
    ended(progress, replayed, start, journal, hint)
}

/// Replays a journal over the bytes of a start file: a segment at a time, where it is in segments.
fn replay_bytes(
    progress: &mut Progress<'_>,
    bytes: Vec<u8>,
    start: &str,
    journal: &str,
) -> ExitCode {
    match segments_of(progress.rt(), journal) {
        Some(path) => {
            let status = replay_segments(progress, bytes, start, journal, &path);
            drop(path);
            status
        }
        None => {
            let status = replay_over(progress, &bytes, start, journal);
            drop(bytes);
            status
        }
    }
}

/// Replays a journal over a start file.
pub fn replay(progress: &mut Progress<'_>, start: &str, journal: &str) -> ExitCode {
    match start_file(start).read(progress) {
        Ok(bytes) => replay_bytes(progress, bytes, start, journal),
        Err(fault) => file_refused(progress, start, fault),
    }
}
