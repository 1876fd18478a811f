//! Start files and journals, as a command reads them.
use crate::hint::start_hint;
use crate::telling::start_refused;
use mls_replay::{CommandFault, JOURNAL_LIMIT, START_LIMIT};
use mls_seen::Opened;
use mls_start_file::{Loaded, read_start};
use mls_terminal::{Input, Progress, file_refused};
use std::process::ExitCode;

/// A start file.
pub fn start_file(path: &str) -> Input<'_> {
    Input {
        path,
        limit: START_LIMIT,
    }
}

/// A journal file.
pub fn journal_file(path: &str) -> Input<'_> {
    Input {
        path,
        limit: JOURNAL_LIMIT,
    }
}

/// Judges the bytes of a start file of this name.
///
/// # Errors
/// The status to end with: it is told why the file is refused.
pub fn judge_start(
    progress: &mut Progress<'_>,
    path: &str,
    bytes: &[u8],
) -> Result<Loaded, ExitCode> {
    progress.end();
    match read_start(progress.rt().alloc(), bytes) {
        Ok(loaded) => Ok(loaded),
        Err(fault) => {
            let look = start_hint(bytes);
            Err(start_refused(progress, path, &CommandFault::from(fault), look))
        }
    }
}

/// Opens the bytes of a start file of this name.
///
/// # Errors
/// The status to end with: it is told why the file is refused.
pub fn open_start(
    progress: &mut Progress<'_>,
    path: &str,
    bytes: Vec<u8>,
) -> Result<Opened, ExitCode> {
    progress.end();
    let look = start_hint(&bytes);
    match Opened::read(progress.rt().alloc(), bytes) {
        Ok(opened) => Ok(opened),
        Err(fault) => Err(start_refused(progress, path, &fault, look)),
    }
}

/// Reads and judges a start file.
///
/// # Errors
/// The status to end with: it is told why the file is refused.
pub fn load_start(progress: &mut Progress<'_>, path: &str) -> Result<Loaded, ExitCode> {
    let bytes = match start_file(path).read(progress) {
        Ok(bytes) => bytes,
        Err(fault) => return Err(file_refused(progress, path, fault)),
    };
    let loaded = judge_start(progress, path, &bytes);
    drop(bytes);
    loaded
}
