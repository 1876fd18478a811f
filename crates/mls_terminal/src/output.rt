//! What the program writes: an output, and the line that tells of a fault.
use crate::files::FileFault;
use crate::progress::Progress;
use std::io;
use std::io::{ErrorKind, Stdout, Write};
use std::process::ExitCode;

/// Why a command's output wasn't written.
pub const NOT_WRITTEN: &str = "mls: output: write";

/// The line on standard error where an allocation failed.
pub const NO_MEMORY: &str = "mls: memory";

/// Hands bytes to a writer until all are taken. An interrupted write counts as failed.
///
/// # Errors
/// Why it didn't take them; it may have taken a front of them.
pub fn write_bytes<W: Write>(writer: &mut W, text: &[u8]) -> io::Result<()> {
    let mut rest = text;
    while !rest.is_empty() {
        match writer.write(rest) {
            Ok(0) => return Err(io::Error::from(ErrorKind::WriteZero)),
            Ok(count) => rest = &rest[count..],
            Err(error) => return Err(error),
        }
    }
    writer.flush()
}

/// Hands bytes to a writer as `write_bytes` does, and says whether it took them.
pub fn is_taken<W: Write>(writer: &mut W, text: &[u8]) -> bool {
    write_bytes(writer, text).is_ok()
}

/// Writes a line to standard error, where that can be written, and gives the status to end with.
pub fn refused(rt: &HostRuntime, line: &str, status: u8) -> ExitCode {
    let _ = eprintln!(rt; "{line}");
    ExitCode::from(status)
}

/// Tells that the system refused a file, for this reason, and what may help. A command whose lines are fixed tells
/// neither, but to a person at a terminal the reason.
fn tell_system(
    progress: &Progress<'_>,
    file: &str,
    error: io::Error,
    next: &str,
) -> io::Result<()> {
    let rt = progress.rt();
    if !progress.has_fixed_lines() {
        eprintln!(rt; "mls: {file}: {error}{next}")
    } else if progress.is_adding() {
        eprintln!(rt; "mls: {file}: file: {error}")
    } else {
        eprintln!(rt; "mls: {file}: file")
    }
}

/// Tells why a file wasn't read or written, and behind the system's reason what may help.
pub fn file_refused_so(
    progress: &mut Progress<'_>,
    file: &str,
    fault: FileFault,
    next: &str,
) -> ExitCode {
    progress.end();
    let rt = progress.rt();
    let _ = match fault {
        FileFault::File => eprintln!(rt; "mls: {file}: file"),
        FileFault::System(error) => tell_system(progress, file, error, next),
        FileFault::InUse => eprintln!(rt; "mls: {file}: in use"),
        FileFault::TooLong => eprintln!(rt; "mls: {file}: too long"),
        FileFault::Memory => eprintln!(rt; "{NO_MEMORY}"),
    };
    ExitCode::from(1)
}

/// Tells why a file wasn't read or written.
pub fn file_refused(progress: &mut Progress<'_>, file: &str, fault: FileFault) -> ExitCode {
    file_refused_so(progress, file, fault, "")
}

/// Writes the output of a command to standard output.
pub fn print(rt: &HostRuntime, output: &[u8]) -> ExitCode {
    if is_taken(&mut rt.stdout(), output) {
        ExitCode::SUCCESS
    } else {
        refused(rt, NOT_WRITTEN, 1)
    }
}

/// Standard output, to which the answer to a question is written in parts.
#[derive(Drop)]
pub struct AnswerOutput {
    output: Stdout,
    /// Whether who reads it has stopped.
    is_unread: bool,
}

impl AnswerOutput {
    /// Standard output, to which nothing is written yet.
    pub fn new(rt: &HostRuntime) -> AnswerOutput {
        AnswerOutput {
            output: rt.stdout(),
            is_unread: false,
        }
    }

    /// Tells that a part wasn't written, unless who reads it has stopped.
    pub fn refused(&self, rt: &HostRuntime) -> ExitCode {
        if self.is_unread {
            ExitCode::from(1)
        } else {
            refused(rt, NOT_WRITTEN, 1)
        }
    }
}

impl Write for AnswerOutput {
    fn write(&mut self, buf: &[u8]) -> io::Result<usize> {
        match self.output.write(buf) {
            Ok(count) => Ok(count),
            Err(error) => {
                self.is_unread = error.kind() == ErrorKind::BrokenPipe;
                Err(error)
            }
        }
    }

    fn flush(&mut self) -> io::Result<()> {
        self.output.flush()
    }
}

/// Writes the answer to a question to standard output. Who reads it may stop: then nothing is said of what is left.
pub fn print_answer(rt: &HostRuntime, answer: &[u8]) -> ExitCode {
    match write_bytes(&mut rt.stdout(), answer) {
        Ok(()) => ExitCode::SUCCESS,
        Err(error) if error.kind() == ErrorKind::BrokenPipe => ExitCode::from(1),
        Err(_) => refused(rt, NOT_WRITTEN, 1),
    }
}
