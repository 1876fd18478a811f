//! The calls, each of which prints what it answers, and returns whether it was out of memory.
ghost use Rattle.std.specs.Prelude.{◌≤◌, length, All};

use mls_monitor::Start;
use mls_runs::{
    CommandFault, LoadFault, Loaded, Names, RunText, SCRIPT_LIMIT, check_start, read_start,
    replay_journal, run_serial, run_threads, standard_start, status, write_fault,
};
use std::sync::Wait;
use std::thread::Threads;
use std::{io, str};

/// Prints what a start has: how many subjects, objects and cells.
fn show_start(rt: &impl Print, start: &Start) -> io::Result<()> {
    let (subjects, objects) = (start.subject_count(), start.object_count());
    let cells = start.cell_count();
    println!(rt; "{subjects} subjects, {objects} objects, {cells} cells")
}

/// Prints what some names stand for.
fn show_names(rt: &impl Print, names: &Names) -> io::Result<()> {
    let (ann, bob) = (names.subject("ann"), names.subject("bob"));
    let (plans, tool) = (names.object("plans"), names.object("tool"));
    println!(rt; "{ann:?} {bob:?} {plans:?} {tool:?}")
}

/// Prints what was loaded.
fn show(rt: &impl Print, loaded: &Loaded) -> io::Result<()> {
    show_start(rt, loaded.start())?;
    show_names(rt, loaded.names())
}

/// Reads a start file.
pub fn ask_read(rt: &HostRuntime, file: &[u8]) -> io::Result<bool> {
    match read_start(rt.alloc(), file) {
        Ok(loaded) => {
            let shown = show(rt, &loaded);
            drop(loaded);
            shown?;
            Ok(false)
        }
        Err(fault) => {
            println!(rt; "read_start: {fault}")?;
            Ok(fault == LoadFault::Memory)
        }
    }
}

/// Makes the standard start.
pub fn ask_standard(rt: &HostRuntime) -> io::Result<bool> {
    match standard_start(rt.alloc()) {
        Ok(loaded) => {
            let shown = show(rt, &loaded);
            drop(loaded);
            shown?;
            Ok(false)
        }
        Err(fault) => {
            println!(rt; "standard_start: {fault}")?;
            Ok(fault == LoadFault::Memory)
        }
    }
}

/// Checks a start file.
pub fn ask_check(rt: &HostRuntime, file: &[u8]) -> io::Result<bool> {
    match check_start(rt.alloc(), file) {
        Ok(text) => {
            let shown = print!(rt; "{text}");
            drop(text);
            shown?;
            Ok(false)
        }
        Err(fault) => {
            println!(rt; "check_start: {fault}")?;
            Ok(fault == CommandFault::Memory)
        }
    }
}

/// Writes the line of a fault after a text.
pub fn ask_line(rt: &HostRuntime, fault: &CommandFault) -> io::Result<bool> {
    let Ok(mut text) = String::from_str(rt.alloc(), "so: ") else {
        println!(rt; "a text: out of memory")?;
        return Ok(true);
    };
    let out_of_memory = write_fault(rt.alloc(), *fault, "s.json", &mut text).is_err();
    let shown = if out_of_memory {
        println!(rt; "write_fault: out of memory, the text is {text}")
    } else {
        print!(rt; "{text}")
    };
    drop(text);
    shown?;
    Ok(out_of_memory)
}

/// Prints what a run printed, and its journal.
pub fn show_run(rt: &impl Print, run: &RunText) -> io::Result<()> {
    let output = str::from_utf8(&run.output).unwrap_or("no text");
    print!(rt; "{output}")?;
    match &run.journal {
        Some(text) => print!(rt; "{text}"),
        None => println!(rt; "no journal"),
    }
}

/// Prints that a command was refused, and with which status it then ends.
fn show_refused(rt: &impl Print, call: &str, fault: &CommandFault) -> io::Result<bool> {
    let status = status(*fault);
    println!(rt; "{call}: {fault}, status {status}")?;
    Ok(*fault == CommandFault::Memory)
}

/// Runs scripts over a start file.
pub fn ask_run(rt: &HostRuntime, file: &[u8], scripts: &[&[u8]]) -> io::Result<bool>
    requires { All (λ script. length script.now ≤ SCRIPT_LIMIT) scripts.now }
{
    match run_serial(rt.alloc(), file, scripts, true) {
        Ok(run) => {
            let shown = show_run(rt, &run);
            drop(run);
            shown?;
            Ok(false)
        }
        Err(fault) => show_refused(rt, "run_serial", &fault),
    }
}

/// Runs a script over a start file, in a thread. A thread that couldn't be started counts as out of memory.
pub fn ask_threads<R: Threads + Wait + Sync>(
    threads: &R,
    rt: &HostRuntime,
    file: &[u8],
    script: &[u8],
) -> io::Result<bool>
    requires { length script.now ≤ SCRIPT_LIMIT }
{
    match run_threads(threads, rt.alloc(), file, &[script], true) {
        Ok(run) => {
            let shown = show_run(rt, &run);
            drop(run);
            shown?;
            Ok(false)
        }
        Err(fault) => Ok(show_refused(rt, "run_threads", &fault)? || fault == CommandFault::Thread),
    }
}

/// Replays a journal over a start file.
pub fn ask_replay(rt: &HostRuntime, file: &[u8], journal: &[u8]) -> io::Result<bool> {
    match replay_journal(rt.alloc(), file, journal) {
        Ok(text) => {
            let shown = print!(rt; "{text}");
            drop(text);
            shown?;
            Ok(false)
        }
        Err(fault) => show_refused(rt, "replay_journal", &fault),
    }
}
