//! The lines that tell why a command was refused.
ghost use Rattle.std.specs.Prelude.{◌≡◌, ◌++◌, OnOk, OnErr, codes, string_bytes};
ghost use Rattle.mls_monitor.specs.declared.replay_fault.ReplayFault.TheVariants as replayed;
ghost use Rattle.mls_replay.specs.FaultLines.{load_words, replay_line, fault_line};
ghost use Rattle.mls_replay.specs.declared.command.CommandFault.TheVariants as refused;

use crate::command::CommandFault;
use crate::fault_words::{entry_words, scheme_words, start_words};
use mls_journal::EntryFault;
use mls_monitor::ReplayFault;
use mls_requests::Reply;
use mls_start_file::LoadFault;
use std::alloc::{AllocError, Global};

/// Appends what a line about a file begins with.
fn push_file(line: &mut String, file: &str) -> Result<(), AllocError>
    ensures { OnOk result (string_bytes line.new ≡ string_bytes line.old ++ codes "mls: " ++ file.now) }
{
    line.push_str("mls: ")?;
    line.push_str(file)
}

/// Appends the number and the name of a start file's fault, and those of its cause where it has one.
fn push_load_words(line: &mut String, fault: LoadFault) -> Result<(), AllocError>
    ensures { OnOk result (string_bytes line.new ≡ string_bytes line.old ++ load_words fault) }
{
    match fault {
        LoadFault::Json => line.push_str("1 Json"),
        LoadFault::Members => line.push_str("2 Members"),
        LoadFault::Scheme(cause) => {
            line.push_str("3 Scheme ")?;
            line.push_str(scheme_words(cause))
        }
        LoadFault::Name => line.push_str("4 Name"),
        LoadFault::Label => line.push_str("5 Label"),
        LoadFault::Unknown => line.push_str("6 Unknown"),
        LoadFault::Start(cause) => {
            line.push_str("7 Start ")?;
            line.push_str(start_words(cause))
        }
        LoadFault::Memory => line.push_str("8 Memory"),
    }
}

/// Appends the line that tells of a start file's fault.
fn push_load(line: &mut String, file: &str, fault: LoadFault) -> Result<(), AllocError>
    ensures { OnOk result (string_bytes line.new ≡ string_bytes line.old ++ fault_line file.now (refused.Load fault)) }
{
    push_file(line, file)?;
    line.push_str(": start ")?;
    push_load_words(line, fault)?;
    line.push_str("\n")
}

/// Appends the line that tells of the first line of a journal that is no entry's.
fn push_entry(line: &mut String, file: &str, at: u64, fault: EntryFault) -> Result<(), AllocError>
    ensures { OnOk result
        (string_bytes line.new ≡ string_bytes line.old ++ fault_line file.now (refused.Entry at fault)) }
{
    let words = entry_words(fault);
    push_file(line, file)?;
    writeln!(line, ": line {at}: entry {words}")
}

/// Appends the line that tells which reply the rules give where a journal has another.
fn push_differs(line: &mut String, file: &str, at: u64, expected: Reply) -> Result<(), AllocError>
    ensures { OnOk result
        (string_bytes line.new ≡ string_bytes line.old ++ replay_line file.now (replayed.Differs at expected)) }
{
    push_file(line, file)?;
    writeln!(line, ": replay 2 Differs at {at} expected {expected}")
}

/// Appends the line that tells of the first entry of a journal that isn't as the rules have it.
fn push_replay(line: &mut String, file: &str, fault: ReplayFault) -> Result<(), AllocError>
    ensures { OnOk result (string_bytes line.new ≡ string_bytes line.old ++ replay_line file.now fault) }
{
    match fault {
        ReplayFault::Number { at } => {
            push_file(line, file)?;
            writeln!(line, ": replay 1 Number at {at}")
        }
        ReplayFault::Differs { at, expected } => push_differs(line, file, at, expected),
        ReplayFault::Memory => line.push_str("mls: memory\n"),
    }
}

/// Appends the line that tells of a fault of the file.
fn push_fault(line: &mut String, file: &str, fault: CommandFault) -> Result<(), AllocError>
    ensures { OnOk result (string_bytes line.new ≡ string_bytes line.old ++ fault_line file.now fault) }
{
    match fault {
        CommandFault::Load(fault) => push_load(line, file, fault),
        CommandFault::Entry { line: at, fault } => push_entry(line, file, at, fault),
        CommandFault::Replay(fault) => push_replay(line, file, fault),
        CommandFault::Thread => line.push_str("mls: thread\n"),
        CommandFault::Memory => line.push_str("mls: memory\n"),
    }
}

/// Appends the line, with its newline, that tells why a command over this file was refused.
///
/// # Errors
/// `AllocError` where an allocation failed; the text is then as it was.
pub fn write_fault(
    alloc: Global,
    fault: CommandFault,
    file: &str,
    text: &mut String,
) -> Result<(), AllocError>
    ensures ok { OnOk result (string_bytes text.new ≡ string_bytes text.old ++ fault_line file.now fault) }
    ensures err { OnErr result (string_bytes text.new ≡ string_bytes text.old) }
{
    let mut line = String::new(alloc);
    let pushed = push_fault(&mut line, file, fault);
    let written = match pushed {
        Ok(()) => text.push_str(&line),
        Err(error) => Err(error),
    };
    drop(line);
    written
}
