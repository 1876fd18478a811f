//! The command that makes a whole start file of a short one.
use mls_complete::{CompleteFault, complete as completed, short_places};
use mls_files::{Hint, command_refused_so, load_hint, start_file, start_hint};
use mls_replay::{CommandFault, START_LIMIT};
use mls_rows::Form;
use mls_start_file::LoadFault;
use mls_terminal::{NO_MEMORY, Progress, file_refused, refused};
use std::process::ExitCode;

/// Tells where the fault of a short start file applies, a line for each place.
fn tell_places(rt: &HostRuntime, bytes: &[u8], fault: LoadFault) {
    if let Ok(rows) = short_places(rt.alloc(), Form::Text, bytes, fault) {
        if let Ok(text) = str::from_utf8(&rows) {
            let _ = eprint!(rt; "{text}");
        }
        drop(rows);
    }
}

/// Tells which command tells where, of a fault that has no places here.
fn tell_where(rt: &HostRuntime, short: &str, fault: LoadFault) {
    if matches!(fault, LoadFault::Json | LoadFault::Members) {
        let _ = eprintln!(rt; "mls: mls lint {short} tells where");
    }
}

/// Tells why a short start file of these bytes isn't completed, and where.
fn uncompleted(
    progress: &mut Progress<'_>,
    short: &str,
    bytes: &[u8],
    fault: CompleteFault,
) -> ExitCode {
    progress.end();
    match fault {
        CompleteFault::Load(LoadFault::Memory) => refused(progress.rt(), NO_MEMORY, 1),
        CompleteFault::Load(fault) => {
            let why = CommandFault::from(fault);
            let hint = load_hint(&why, start_hint(bytes));
            let is_bare = matches!(&hint, Hint::None);
            let status = command_refused_so(progress.rt(), short, &why, hint);
            tell_places(progress.rt(), bytes, fault);
            if is_bare {
                tell_where(progress.rt(), short, fault);
            }
            status
        }
        CompleteFault::Differs => refused(progress.rt(), "mls: output: differs", 1),
    }
}

/// Prints the start file of the bytes of a short one.
fn complete_bytes(progress: &mut Progress<'_>, short: &str, bytes: &[u8]) -> ExitCode {
    match completed(progress.rt().alloc(), bytes) {
        Ok(text) => {
            let status = if text.len() > START_LIMIT {
                refused(progress.rt(), "mls: output: too long", 1)
            } else {
                progress.print(text.as_bytes())
            };
            drop(text);
            status
        }
        Err(fault) => uncompleted(progress, short, bytes, fault),
    }
}

/// Prints the whole start file of a short one.
pub fn complete(progress: &mut Progress<'_>, short: &str) -> ExitCode {
    match start_file(short).read(progress) {
        Ok(bytes) => {
            progress.begin("completing");
            let status = complete_bytes(progress, short, &bytes);
            drop(bytes);
            status
        }
        Err(fault) => file_refused(progress, short, fault),
    }
}
