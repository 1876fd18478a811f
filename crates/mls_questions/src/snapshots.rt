//! The command that prints the state that a journal leads to as a start file.
use crate::answering::question_refused;
use crate::named::Named;
use mls_answers::{SnapshotFault, start_file};
use mls_compare::map_text;
use mls_replay::{CommandFault, QuestionFault};
use mls_seen::Seen;
use mls_snapshots::StateStart;
use mls_terminal::{FileFault, Progress, file_refused, make_file, refused};
use std::alloc::{AllocError, Global};
use std::process::ExitCode;

/// A start file, and the map of its objects, where one is asked for.
#[derive(Drop)]
pub(crate) struct NewStart {
    text: String,
    map: Option<String>,
}

/// Tells why there is no start file, by the bytes of the start file that was read.
fn snapshot_refused(
    rt: &HostRuntime,
    named: &Named<'_>,
    start: &[u8],
    fault: SnapshotFault,
) -> ExitCode {
    match fault {
        SnapshotFault::Question(fault) => question_refused(rt, named, start, fault),
        SnapshotFault::TooLong => refused(rt, "mls: output: too long", 1),
        SnapshotFault::Differs => refused(rt, "mls: output: differs", 1),
    }
}

/// Makes the file of the map, where one is asked for, and prints the start file.
fn printed(progress: &mut Progress<'_>, path: Option<&str>, made: &NewStart) -> ExitCode {
    if let (Some(path), Some(map)) = (path, &made.map) {
        if let Err(error) = make_file(progress.rt(), path, map.as_str()) {
            return file_refused(progress, path, FileFault::System(error));
        }
    }
    progress.print(made.text.as_bytes())
}

/// That an allocation failed.
fn no_memory(_: AllocError) -> SnapshotFault {
    SnapshotFault::Question(QuestionFault::Files(CommandFault::Memory))
}

/// The start file that opens with the state that is seen, and the map of its objects, where that is wanted.
pub(crate) fn start_of(
    alloc: Global,
    seen: &Seen,
    is_mapped: bool,
) -> Result<NewStart, SnapshotFault> {
    let StateStart { text, order } = start_file(alloc, seen)?;
    if !is_mapped {
        drop(order);
        return Ok(NewStart { text, map: None });
    }
    match map_text(alloc, seen.names(), &order) {
        Ok(map) => Ok(NewStart {
            text,
            map: Some(map),
        }),
        Err(fault) => Err(no_memory(fault)),
    }
}

/// A start file without a map.
pub(crate) fn unmapped(done: Result<StateStart, SnapshotFault>) -> Result<NewStart, SnapshotFault> {
    let StateStart { text, order } = done?;
    drop(order);
    Ok(NewStart { text, map: None })
}

/// Ends the command: makes the file of the map, where one is asked for, and prints the
/// start file that was written; or tells why there is none.
pub(crate) fn ended_start(
    progress: &mut Progress<'_>,
    named: &Named<'_>,
    start: &[u8],
    map: Option<&str>,
    done: Result<NewStart, SnapshotFault>,
) -> ExitCode {
    progress.end();
    match done {
        Ok(made) => {
            let status = printed(progress, map, &made);
            drop(made);
            status
        }
        Err(fault) => snapshot_refused(progress.rt(), named, start, fault),
    }
}
