//! The lines that tell why a service ended, or what it did with a torn end, and the statuses.
use mls_command_line::ServeWords;
use mls_durable::{AttendFault, RecoverFault, ServiceFault};
use mls_files::{
    CallFault, FileCall, OpenFault, command_refused, list_beside, list_files, tell_call, tell_end,
};
use mls_replay::CommandFault;
use mls_terminal::{NO_MEMORY, NOT_WRITTEN, refused};
use std::fs;
use std::process::ExitCode;

/// Tells what is wrong with a file.
fn tell_file(rt: &HostRuntime, file: &str, what: &str) -> ExitCode {
    let _ = eprintln!(rt; "mls: {file}: {what}");
    ExitCode::from(1)
}

/// Tells why a file wasn't opened.
fn open_refused(rt: &HostRuntime, file: &str, fault: OpenFault) -> ExitCode {
    match fault {
        OpenFault::Call(fault) => {
            tell_call(rt, file, &fault);
            ExitCode::from(fault.status())
        }
        OpenFault::InUse => tell_file(rt, file, "in use"),
    }
}

/// The status where another service holds a file's lock, for a front that is to try again.
const TRY_AGAIN: u8 = 75;

/// Tells why a file of a service wasn't opened.
pub(crate) fn not_opened(
    rt: &HostRuntime,
    words: &ServeWords<'_>,
    file: &str,
    fault: OpenFault,
) -> ExitCode {
    let status = open_refused(rt, file, fault);
    match fault {
        OpenFault::InUse if words.has_names => ExitCode::from(TRY_AGAIN),
        _ => status,
    }
}

/// Refuses a journal whose file isn't there while others of its files are.
///
/// # Errors
/// The status to end with: it is told why.
pub(crate) fn refuse_missing(rt: &HostRuntime, journal: &str) -> Result<(), ExitCode> {
    if fs::symlink_metadata(rt, journal).is_ok() {
        return Ok(());
    }
    match list_beside(rt, journal) {
        Ok(listing) if listing.has_segments() => {
            let _ = tell_file(rt, journal, "missing, but its segments are there");
            Err(ExitCode::from(3))
        }
        Ok(_) | Err(_) => Ok(()),
    }
}

/// Refuses a journal in segments, unless it is served as one.
///
/// # Errors
/// The status to end with: it is told why.
pub(crate) fn refuse_segments(rt: &HostRuntime, journal: &str) -> Result<(), ExitCode> {
    match list_files(rt, journal) {
        Ok(listing) if listing.has_segments() => Err(tell_file(rt, journal, "in segments")),
        Ok(_) => Ok(()),
        Err(error) => {
            let call = FileCall::Read;
            let fault = CallFault { call, error };
            tell_call(rt, journal, &fault);
            Err(ExitCode::from(fault.status()))
        }
    }
}

/// Tells that the file of a journal is longer than its limit.
pub(crate) fn journal_too_long(rt: &HostRuntime, journal: &str) -> ExitCode {
    tell_file(rt, journal, "too long")
}

/// The status after a fault of a file: a call on it failed, and that was told; or an allocation failed before it was
/// made.
fn file_failed(rt: &HostRuntime, failure: Option<u8>) -> ExitCode {
    match failure {
        Some(status) => ExitCode::from(status),
        None => refused(rt, NO_MEMORY, 1),
    }
}

/// The status where nothing was handed out, or a front of it: a state was refused before, and that was told; or the
/// output couldn't be written.
fn not_told(rt: &HostRuntime, failure: Option<u8>) -> ExitCode {
    match failure {
        Some(status) => ExitCode::from(status),
        None => refused(rt, NOT_WRITTEN, 1),
    }
}

/// Tells why a journal isn't one to go on from.
fn recover_refused(
    rt: &HostRuntime,
    journal: &str,
    fault: RecoverFault,
    failure: Option<u8>,
) -> ExitCode {
    match fault {
        RecoverFault::Memory => refused(rt, NO_MEMORY, 1),
        RecoverFault::TooLong => tell_file(rt, journal, "too long"),
        RecoverFault::Replay(fault) => command_refused(rt, journal, &CommandFault::from(fault)),
        RecoverFault::Entry { line, fault } => {
            command_refused(rt, journal, &CommandFault::Entry { line, fault })
        }
        RecoverFault::Torn { entries } => {
            let _ = tell_end(rt, journal, "torn", entries);
            ExitCode::from(1)
        }
        RecoverFault::File | RecoverFault::Keep => file_failed(rt, failure),
    }
}

/// Tells why the input wasn't answered to its end.
fn attend_refused(
    rt: &HostRuntime,
    journal: &str,
    fault: AttendFault,
    failure: Option<u8>,
) -> ExitCode {
    match fault {
        AttendFault::Read => refused(rt, "mls: input: read", 1),
        AttendFault::Unfinished => refused(rt, "mls: input: unfinished line", 1),
        AttendFault::Write => not_told(rt, failure),
        AttendFault::Memory => refused(rt, NO_MEMORY, 1),
        AttendFault::TooLong => tell_file(rt, journal, "too long"),
        AttendFault::File => file_failed(rt, failure),
    }
}

/// Tells why a service ended before its input. `failure` is the status to end with where a call on a file has failed,
/// which was told then.
pub(crate) fn service_refused(
    rt: &HostRuntime,
    journal: &str,
    fault: ServiceFault,
    failure: Option<u8>,
) -> ExitCode {
    match fault {
        ServiceFault::Recover(fault) => recover_refused(rt, journal, fault, failure),
        ServiceFault::Attend(fault) => attend_refused(rt, journal, fault, failure),
    }
}
