//! The lines that tell why marks are refused, and the statuses.
use crate::call_fault::CallFault;
use crate::marks::file::older_path;
use crate::telling::{tell_call, tell_end};
use mls_marks::{MarkFault, RowsFault};
use mls_terminal::{NO_MEMORY, refused};
use std::alloc::AllocError;
use std::io;
use std::io::ErrorKind;
use std::process::ExitCode;

/// Which file of marks is meant.
#[derive(Clone, Copy, PartialEq, Eq)]
pub enum Part {
    /// The older one, from which the other goes on.
    Older,
    Own,
}

/// Why a file of marks is refused.
#[derive(Clone, Copy)]
pub enum MarksFault {
    /// It couldn't be read.
    Read(io::Error),
    /// Its marks aren't those of the journal; the lines before the one that decides are of so many entries.
    Mark { fault: MarkFault, entries: u64 },
    /// It is of another start.
    OtherStart,
    /// It doesn't end with the digest from which the other goes on.
    OtherEnd,
    /// The chain hasn't the digest that it must contain.
    NoDigest,
    /// It couldn't be synced.
    Call(CallFault),
    /// An allocation failed.
    Memory,
}

/// Why marks are refused, and which file of theirs.
#[derive(Clone, Copy)]
pub struct PartFault {
    pub part: Part,
    pub fault: MarksFault,
}

impl MarksFault {
    /// The fault of rows of marks, which lines of so many entries stand before.
    pub fn of_rows(fault: RowsFault, entries: u64) -> MarksFault {
        match fault {
            RowsFault::Memory => MarksFault::Memory,
            RowsFault::Mark(fault) => MarksFault::Mark { fault, entries },
        }
    }

    /// A mark that differs, of an entry before which no mark is left.
    pub fn differs(entry: u64) -> MarksFault {
        MarksFault::Mark {
            fault: MarkFault::Differs { entry },
            entries: entry,
        }
    }

    /// The fault of a file that isn't there.
    pub(crate) fn missing() -> MarksFault {
        MarksFault::Read(io::Error::from(ErrorKind::NotFound))
    }

    /// This fault, of one of the files.
    pub fn of(self, part: Part) -> PartFault {
        PartFault { part, fault: self }
    }
}

impl PartFault {
    /// Why the file itself wasn't read, where that is the fault.
    pub fn unread(&self) -> Option<io::Error> {
        match self.fault {
            MarksFault::Read(error) if self.part == Part::Own => Some(error),
            _ => None,
        }
    }
}

impl From<AllocError> for MarksFault {
    fn from(_refused: AllocError) -> MarksFault {
        MarksFault::Memory
    }
}

impl From<AllocError> for PartFault {
    fn from(_refused: AllocError) -> PartFault {
        MarksFault::Memory.of(Part::Own)
    }
}

/// The status where marks, or a journal, are others than are due.
const DIFFERS: u8 = 3;

/// Tells why marks aren't those of a journal, whose lines before are of so many entries.
pub fn tell_mark(rt: &HostRuntime, marks: &str, fault: MarkFault, entries: u64) -> ExitCode {
    let _ = match fault {
        MarkFault::Torn => tell_end(rt, marks, "torn", entries),
        MarkFault::Form { line } => eprintln!(rt; "mls: {marks}: line {line}: mark"),
        MarkFault::Differs { entry } => eprintln!(rt; "mls: {marks}: differs at entry {entry}"),
    };
    match fault {
        MarkFault::Torn | MarkFault::Form { .. } => ExitCode::from(1),
        MarkFault::Differs { .. } => ExitCode::from(DIFFERS),
    }
}

/// Tells what is wrong with a file of marks that is another than is due.
fn tell_other(rt: &HostRuntime, marks: &str, what: &str) -> ExitCode {
    let _ = eprintln!(rt; "mls: {marks}: {what}");
    ExitCode::from(DIFFERS)
}

/// Tells why a file of marks is refused.
fn tell_refused(rt: &HostRuntime, marks: &str, fault: MarksFault) -> ExitCode {
    match fault {
        MarksFault::Read(_) => {
            let _ = eprintln!(rt; "mls: {marks}: file");
            ExitCode::from(1)
        }
        MarksFault::Mark { fault, entries } => tell_mark(rt, marks, fault, entries),
        MarksFault::OtherStart => tell_other(rt, marks, "of another start"),
        MarksFault::OtherEnd => tell_other(rt, marks, "another end"),
        MarksFault::NoDigest => tell_other(rt, marks, "no such digest"),
        MarksFault::Call(fault) => {
            tell_call(rt, marks, &fault);
            ExitCode::from(fault.status())
        }
        MarksFault::Memory => refused(rt, NO_MEMORY, 1),
    }
}

/// Tells why marks are refused whose file has this name.
pub fn marks_refused(rt: &HostRuntime, marks: &str, refusal: PartFault) -> ExitCode {
    if refusal.part == Part::Own {
        return tell_refused(rt, marks, refusal.fault);
    }
    match older_path(rt, marks) {
        Ok(older) => {
            let status = tell_refused(rt, &older, refusal.fault);
            drop(older);
            status
        }
        Err(_) => tell_refused(rt, marks, refusal.fault),
    }
}
