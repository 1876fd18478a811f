//! Serving the script on standard input.
use mls_files::command_refused;
use mls_lines::Names;
use mls_monitor::{Monitor, Start};
use mls_replay::CommandFault;
use mls_scripts::{ServeFault, serve};
use mls_start_file::standard_start;
use mls_terminal::{NO_MEMORY, NOT_WRITTEN, Prompt, help_text, is_typed, refused};
use std::alloc::Global;
use std::io::{BufWriter, Write};
use std::process::ExitCode;

/// The line on standard error where serving the script ended before the script did.
fn serve_line(fault: ServeFault) -> &'static str {
    match fault {
        ServeFault::Read => "mls: input: read",
        ServeFault::Write => NOT_WRITTEN,
        ServeFault::Memory => NO_MEMORY,
        ServeFault::TooLong => "mls: input: too long",
    }
}

/// Answers what a person types at a terminal, line by line.
fn serve_typed<W: Write>(
    rt: &HostRuntime,
    names: &Names<Global>,
    monitor: &mut Monitor<Global>,
    writer: &mut W,
) -> Result<u64, ServeFault> {
    let Ok(help) = help_text(rt.alloc(), names) else {
        return Err(ServeFault::Memory);
    };
    let mut prompt = Prompt::new(rt, &help);
    let served = serve(rt.alloc(), names, monitor, 0, &mut prompt, writer);
    drop(prompt);
    drop(help);
    served
}

/// Answers the script as session 0, and gives the number of entries, or the line that tells of a fault.
fn serve_input(
    rt: &HostRuntime,
    names: &Names<Global>,
    monitor: &mut Monitor<Global>,
) -> Result<u64, &'static str> {
    let Ok(mut writer) = BufWriter::new(rt.alloc(), rt.stdout()) else {
        return Err(NO_MEMORY);
    };
    let served = if is_typed(rt) {
        serve_typed(rt, names, monitor, &mut writer)
    } else {
        serve(rt.alloc(), names, monitor, 0, &mut rt.stdin(), &mut writer)
    };
    drop(writer);
    match served {
        Ok(entries) => Ok(entries),
        Err(fault) => Err(serve_line(fault)),
    }
}

/// Opens a monitor over a start; there is none where memory ran out.
fn open(rt: &HostRuntime, start: Start<Global>) -> Option<Monitor<Global>> {
    Monitor::open(rt.alloc(), start).ok()
}

/// Answers the script over a start. What is lent is dropped by a call: at the end of its scope the proof of that is
/// dear.
fn serve_start(
    rt: &HostRuntime,
    names: &Names<Global>,
    start: Start<Global>,
) -> Result<u64, &'static str> {
    let Some(mut monitor) = open(rt, start) else {
        return Err(NO_MEMORY);
    };
    let served = serve_input(rt, names, &mut monitor);
    drop(monitor);
    served
}

/// Answers the script over a start and its names.
fn serve_over(rt: &HostRuntime, names: Names<Global>, start: Start<Global>) -> ExitCode {
    let served = serve_start(rt, &names, start);
    drop(names);
    match served {
        Ok(_) => ExitCode::SUCCESS,
        Err(line) => refused(rt, line, 1),
    }
}

/// Answers the script on standard input over the standard start.
pub fn serve_standard(rt: &HostRuntime) -> ExitCode {
    match standard_start(rt.alloc()) {
        Ok(loaded) => {
            let (names, start) = loaded.into_parts();
            serve_over(rt, names, start)
        }
        Err(fault) => command_refused(rt, "standard", &CommandFault::from(fault)),
    }
}
