//! The scripts of a run: read, lent, and what is printed of the run.
ghost use Rattle.std.specs.Prelude.{◌≡◌, ◌≤◌, length, vec_len, All, IfOk};

use crate::commands::run_journal::RunJournal;
use crate::commands::strictness::run_status;
use mls_command_line::RunWords;
use mls_files::{start_hint, start_refused};
use mls_replay::{CommandFault, RunText};
use mls_scripts::SCRIPT_LIMIT;
use mls_terminal::{FileFault, Held, Input, Progress, file_refused, print};
use std::alloc::{AllocError, Global};
use std::process::ExitCode;

/// A script that wasn't read: its place among the scripts, and why.
struct ScriptFault {
    place: usize,
    fault: FileFault,
}

/// Reads scripts, in order.
fn read_in_order(
    progress: &mut Progress<'_>,
    held: &mut Held,
    paths: &[&str],
) -> Result<Vec<Vec<u8>>, ScriptFault>
    ensures count { IfOk result (λ texts. vec_len texts ≡ length paths.now) }
    ensures limit { IfOk result (λ texts. All (λ text. vec_len text ≤ SCRIPT_LIMIT) texts.items) }
{
    let mut texts = Vec::new(progress.rt().alloc());
    for path in paths {
        let place = texts.len();
        let script = Input {
            path,
            limit: SCRIPT_LIMIT,
        };
        let fault = match script.read_held(progress, held) {
            Ok(text) => {
                if texts.push(text).is_ok() {
                    continue;
                }
                FileFault::Memory
            }
            Err(fault) => fault,
        };
        return Err(ScriptFault { place, fault });
    }
    Ok(texts)
}

/// Whether a line of a script ends in a carriage return, which is no byte of a word.
fn has_carriage(script: &[u8]) -> bool {
    let mut is_carriage = false;
    for byte in script {
        if *byte == b'\n' && is_carriage {
            return true;
        }
        is_carriage = *byte == b'\r';
    }
    false
}

/// Tells a person at a terminal which scripts have lines that end in a carriage return.
fn tell_carriages(progress: &mut Progress<'_>, paths: &[&str], scripts: &[Vec<u8>]) {
    if !progress.is_adding() {
        return;
    }
    progress.end();
    for (place, path) in paths.iter().enumerate() {
        let is_told = match scripts.get(place) {
            Some(script) => has_carriage(script),
            None => false,
        };
        if is_told {
            let _ = eprintln!(progress.rt(); "mls: {path}: line ends in CR");
        }
    }
}

/// Reads the scripts of a run, in order, or tells why one wasn't read.
///
/// # Errors
/// The status to end with.
pub fn read_scripts(
    progress: &mut Progress<'_>,
    held: &mut Held,
    words: &RunWords<'_>,
) -> Result<Vec<Vec<u8>>, ExitCode>
    ensures count { IfOk result (λ texts. vec_len texts ≡ vec_len words.now.scripts) }
    ensures limit { IfOk result (λ texts. All (λ text. vec_len text ≤ SCRIPT_LIMIT) texts.items) }
{
    match read_in_order(progress, held, &words.scripts) {
        Ok(texts) => {
            tell_carriages(progress, &words.scripts, &texts);
            Ok(texts)
        }
        Err(ScriptFault { place, fault }) => {
            let path = words.scripts.get(place).copied().unwrap_or("");
            Err(file_refused(progress, path, fault))
        }
    }
}

/// The bytes of texts.
///
/// # Errors
/// `AllocError` where the allocation failed.
pub fn lent<'a>(alloc: Global, texts: &'a [Vec<u8>]) -> Result<Vec<&'a [u8]>, AllocError>
    requires { All (λ text. vec_len text ≤ SCRIPT_LIMIT) texts.now }
    ensures count { IfOk result (λ slices. vec_len slices ≡ length texts.now) }
    ensures limit { IfOk result (λ slices. All (λ text. length text.now ≤ SCRIPT_LIMIT) slices.items) }
{
    let mut slices = Vec::with_capacity(alloc, texts.len())?;
    for text in texts {
        slices.push(text.as_slice())?;
    }
    Ok(slices)
}

/// Writes the journal where that was asked for, and then the output.
fn write_run(
    progress: &mut Progress<'_>,
    run: &RunText,
    journal: &mut Option<RunJournal<'_>>,
) -> ExitCode {
    if let (Some(journal), Some(text)) = (journal, &run.journal) {
        progress.begin("writing the journal");
        if !journal.write(progress.rt(), text) {
            return file_refused(progress, journal.path(), FileFault::File);
        }
    }
    progress.end();
    print(progress.rt(), &run.output)
}

/// Gives up the file that the journal of a refused run was to be written to.
pub fn discard(rt: &HostRuntime, journal: &Option<RunJournal<'_>>) {
    if let Some(journal) = journal {
        journal.discard(rt);
    }
}

/// Ends a run of scripts over the bytes of a start file: prints what it came to, or tells why it was refused.
pub fn ended_run(
    progress: &mut Progress<'_>,
    done: Result<RunText, CommandFault>,
    start: &[u8],
    scripts: &[&[u8]],
    words: &RunWords<'_>,
    journal: &mut Option<RunJournal<'_>>,
) -> ExitCode {
    match done {
        Ok(run) => {
            let printed = write_run(progress, &run, journal);
            let status = run_status(progress.rt(), printed, words, scripts, &run.output);
            drop(run);
            status
        }
        Err(fault) => {
            discard(progress.rt(), journal);
            progress.end();
            start_refused(progress, words.start, &fault, start_hint(start))
        }
    }
}
