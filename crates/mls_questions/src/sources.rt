//! The files of a question, read.
use mls_command_line::Source;
use mls_files::{MarksInput, marks_refused, read_journal, read_marks, refuse_missing, start_file};
use mls_marks::{Digest, Marks, Verified};
use mls_terminal::{FileFault, Progress, file_refused, file_refused_so};
use std::fs;
use std::process::ExitCode;

/// The bytes of a start file, and those of a journal where there is one, with its marks where these are read.
#[derive(Drop)]
pub(crate) struct Bytes {
    pub start: Vec<u8>,
    pub journal: Option<Vec<u8>>,
    /// The marks, which agree with the journal.
    pub marks: Option<Marks>,
    /// What the marks say.
    pub verified: Option<Verified>,
    /// The number of the entry before which the state is looked at, where that is told.
    pub at: Option<u64>,
}

/// The bytes of a journal, where there is one, all of whose entries are here.
fn read_any(progress: &mut Progress<'_>, path: Option<&str>) -> Result<Option<Vec<u8>>, ExitCode> {
    let Some(path) = path else {
        return Ok(None);
    };
    refuse_missing(progress, path)?;
    match read_journal(progress, path) {
        Ok(journal) => Ok(Some(journal)),
        Err(fault) => Err(file_refused(progress, path, fault)),
    }
}

/// Opens the file of marks, where there is one.
fn open_marks(
    progress: &mut Progress<'_>,
    path: Option<&str>,
) -> Result<Option<MarksInput>, ExitCode> {
    let Some(path) = path else {
        return Ok(None);
    };
    match MarksInput::open(progress.rt(), path) {
        Ok(input) => Ok(Some(input)),
        Err(error) => Err(file_refused(progress, path, FileFault::System(error))),
    }
}

/// Reads marks over a journal of a start that was read, where there are marks.
fn marks_over(
    progress: &mut Progress<'_>,
    path: Option<&str>,
    input: &Option<MarksInput>,
    start: &[u8],
    journal: Option<&[u8]>,
) -> Result<Option<(Marks, Verified)>, ExitCode> {
    let (Some(path), Some(input), Some(journal)) = (path, input, journal) else {
        return Ok(None);
    };
    progress.begin("verifying");
    match read_marks(progress.rt().alloc(), input, journal, Digest::of(start)) {
        Ok(read) => Ok(Some(read)),
        Err(fault) => {
            progress.end();
            match fault.unread() {
                Some(error) => Err(file_refused(progress, path, FileFault::System(error))),
                None => Err(marks_refused(progress.rt(), path, fault)),
            }
        }
    }
}

/// The number of the entry before which the state is looked at: the one that is told, or the one behind the last batch
/// by a time.
fn place_of(
    progress: &mut Progress<'_>,
    source: &Source<'_>,
    marks: &Marks,
) -> Result<Option<u64>, ExitCode> {
    let Some(time) = source.when else {
        return Ok(source.at);
    };
    match marks.until(&time) {
        Some(last) => Ok(Some(last.saturating_add(1))),
        None => Err(no_mark(progress, source.marks.unwrap_or(""))),
    }
}

/// Tells that no mark has the time that is asked for or one before it.
fn no_mark(progress: &mut Progress<'_>, marks: &str) -> ExitCode {
    progress.end();
    let _ = eprintln!(progress.rt(); "mls: {marks}: no mark by then");
    ExitCode::from(1)
}

/// What is read beside a start: the rest of `Bytes`.
#[derive(Drop)]
pub(crate) struct Beside {
    pub journal: Option<Vec<u8>>,
    pub marks: Option<Marks>,
    pub verified: Option<Verified>,
    pub at: Option<u64>,
}

/// A journal that was read, with its marks, where there are such.
fn with_marks(
    progress: &mut Progress<'_>,
    source: &Source<'_>,
    input: &Option<MarksInput>,
    start: &[u8],
    journal: Option<Vec<u8>>,
) -> Result<Beside, ExitCode> {
    match marks_over(progress, source.marks, input, start, journal.as_deref())? {
        Some((marks, verified)) => {
            let at = place_of(progress, source, &marks)?;
            Ok(Beside {
                journal,
                marks: Some(marks),
                verified: Some(verified),
                at,
            })
        }
        None => Ok(Beside {
            journal,
            marks: None,
            verified: None,
            at: source.at,
        }),
    }
}

/// Reads what a question needs beside a start. The file of marks is opened before the journal is read: what a service
/// adds to both meanwhile isn't looked at.
///
/// # Errors
/// The status to end with: it is told which file couldn't be read, or why the marks are refused.
pub(crate) fn read_beside(
    progress: &mut Progress<'_>,
    source: &Source<'_>,
    start: &[u8],
) -> Result<Beside, ExitCode> {
    let input = open_marks(progress, source.marks)?;
    let read = match read_any(progress, source.journal) {
        Ok(journal) => with_marks(progress, source, &input, start, journal),
        Err(status) => Err(status),
    };
    drop(input);
    read
}

/// Whether there is a file of this name.
fn is_file(rt: &HostRuntime, path: &str) -> bool {
    match fs::metadata(rt, path) {
        Ok(found) => {
            let is_file = found.is_file();
            drop(found);
            is_file
        }
        Err(_) => false,
    }
}

/// Tells why a start file wasn't read, and what may be the matter where the operand behind it is a file.
pub(crate) fn start_unread(
    progress: &mut Progress<'_>,
    source: &Source<'_>,
    fault: FileFault,
) -> ExitCode {
    let next = if is_file(progress.rt(), source.beside) {
        ": START comes first"
    } else {
        ""
    };
    file_refused_so(progress, source.start, fault, next)
}

/// Reads the files of a question, the start's first. The marks are those of a journal over the start of these bytes, or
/// over the start that is read.
///
/// # Errors
/// The status to end with: it is told which file couldn't be read, or why the marks are refused.
pub(crate) fn read_marked(
    progress: &mut Progress<'_>,
    source: &Source<'_>,
    marked: Option<&[u8]>,
) -> Result<Bytes, ExitCode> {
    let start = match start_file(source.start).read(progress) {
        Ok(start) => start,
        Err(fault) => return Err(start_unread(progress, source, fault)),
    };
    match read_beside(progress, source, marked.unwrap_or(start.as_slice())) {
        Ok(
            Beside {
                journal,
                marks,
                verified,
                at,
            },
        ) => Ok(Bytes {
            start,
            journal,
            marks,
            verified,
            at,
        }),
        Err(status) => {
            drop(start);
            Err(status)
        }
    }
}

/// Reads the files of a question, the start's first.
///
/// # Errors
/// Those of [`read_marked`].
pub(crate) fn read_source(
    progress: &mut Progress<'_>,
    source: &Source<'_>,
) -> Result<Bytes, ExitCode> {
    read_marked(progress, source, None)
}
