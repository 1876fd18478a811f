//! The lines that tell why a command over files was refused, which call on a file has failed, and where a journal ends.
use crate::call_fault::CallFault;
use crate::hint::{Hint, load_hint};
use mls_replay::{CommandFault, status, write_fault};
use mls_terminal::{NO_MEMORY, Progress, refused};
use std::fmt::Display;
use std::io;
use std::io::IsTerminal;
use std::process::ExitCode;

/// Tells why a command over a file was refused, with this hint.
fn refused_hinting(rt: &HostRuntime, file: &str, fault: &CommandFault, hint: &Hint) -> ExitCode {
    let mut line = String::new(rt.alloc());
    let written = write_fault(rt.alloc(), *fault, file, &mut line);
    if written.is_ok() {
        let text = line.trim_end();
        let _ = eprintln!(rt; "{text}{hint}");
    }
    drop(line);
    match written {
        Ok(()) => ExitCode::from(status(*fault)),
        Err(_) => refused(rt, NO_MEMORY, 1),
    }
}

/// Tells why a command over a file was refused, and what the file looks like.
pub fn command_refused_so(
    rt: &HostRuntime,
    file: &str,
    fault: &CommandFault,
    hint: Hint,
) -> ExitCode {
    refused_hinting(rt, file, fault, &hint)
}

/// Tells why a command over a file was refused.
pub fn command_refused(rt: &HostRuntime, file: &str, fault: &CommandFault) -> ExitCode {
    command_refused_so(rt, file, fault, Hint::None)
}

/// Whether a fault is one of a start file whose places can be told: it isn't said that the file is another one.
fn has_places(fault: &CommandFault, hint: &Hint) -> bool {
    matches!(fault, CommandFault::Load(_)) && matches!(hint, Hint::None)
}

/// Says which command tells where the fault of a start file applies, where standard error is a terminal.
fn point_to_lint(rt: &HostRuntime, start: &str, fault: &CommandFault, hint: &Hint) {
    if has_places(fault, hint) && rt.stderr().is_terminal() {
        let _ = eprintln!(rt; "mls lint {start} tells where");
    }
}

/// Tells why a command over a file was refused, what the file looks like, and which command tells where the fault of a
/// start file applies.
pub fn refused_with_place(
    rt: &HostRuntime,
    file: &str,
    fault: &CommandFault,
    hint: Hint,
) -> ExitCode {
    let status = refused_hinting(rt, file, fault, &hint);
    point_to_lint(rt, file, fault, &hint);
    status
}

/// Tells why a start file of these looks was refused, and which command tells where.
pub fn start_refused(
    progress: &Progress<'_>,
    file: &str,
    fault: &CommandFault,
    look: Hint,
) -> ExitCode {
    let hint = if progress.is_adding() {
        load_hint(fault, look)
    } else {
        Hint::None
    };
    refused_with_place(progress.rt(), file, fault, hint)
}

/// The status where a file is another than the one that is due.
pub(crate) const DIFFERS: u8 = 3;

/// Tells what is wrong with a file that another doesn't agree with.
pub fn tell_differing(
    progress: &mut Progress<'_>,
    path: &str,
    what: impl Display + Drop,
) -> ExitCode {
    progress.end();
    let _ = eprintln!(progress.rt(); "mls: {path}: {what}");
    ExitCode::from(DIFFERS)
}

/// The file that a fault is about.
pub fn fault_file<'a>(fault: &CommandFault, start: &'a str, journal: &'a str) -> &'a str {
    match fault {
        CommandFault::Load(_) | CommandFault::Thread | CommandFault::Memory => start,
        CommandFault::Entry { .. } | CommandFault::Replay(_) => journal,
    }
}

/// Tells which call on a file has failed, and why.
pub fn tell_call(rt: &HostRuntime, file: &str, fault: &CallFault) {
    let _ = eprintln!(rt; "mls: {file}: {fault}");
}

/// Tells that the end of a journal is torn, or was cut off, behind so many entries.
pub fn tell_end(rt: &HostRuntime, file: &str, what: &str, entries: u64) -> io::Result<()> {
    match entries.checked_sub(1) {
        Some(last) => eprintln!(rt; "mls: {file}: {what} after entry {last}"),
        None => eprintln!(rt; "mls: {file}: {what} before entry 0"),
    }
}
