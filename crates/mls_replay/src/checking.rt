//! What `mls check` prints.
ghost use Rattle.std.specs.Prelude.{◌≡◌, ◌++◌, string_bytes, OnOk, IfOk, IfErr, IsTrue};
ghost use Rattle.mls_replay.specs.Loads.{RefusesLoad};
ghost use Rattle.mls_replay.specs.Checked.{count_line, access_line, counts_text, ChecksOver, Checks};

use crate::command::CommandFault;
use crate::endings::yes_or_no;
use crate::start_file::load;
use mls_monitor::Start;
use mls_rules::is_secure;
use std::alloc::{AllocError, Global};

/// The most bytes that a start file may have.
pub const START_LIMIT: usize = 8_388_608;

/// Whether the state that a start opens with is secure, looked at from scratch.
fn opens_secure(alloc: Global, start: &Start) -> Result<bool, AllocError>
    ensures { IfOk result (λ secure. IsTrue secure) }
{
    let state = start.opening(alloc)?;
    let secure = is_secure(&state);
    drop(state);
    Ok(secure)
}

/// Appends a line with a word and a number.
fn push_count(text: &mut String, word: &str, count: usize) -> Result<(), AllocError>
    ensures { OnOk result (string_bytes text.new ≡ string_bytes text.old ++ count_line word.now count) }
{
    writeln!(text, "{word}{count}")
}

/// Appends the line that tells how many accesses there are, where there are any.
fn push_accesses(text: &mut String, count: usize) -> Result<(), AllocError>
    ensures { OnOk result (string_bytes text.new ≡ string_bytes text.old ++ access_line count) }
{
    if count == 0 {
        return Ok(());
    }
    push_count(text, "accesses ", count)
}

/// The lines that `mls check` prints of how many subjects, objects, cells and accesses there are.
fn count_lines(
    alloc: Global,
    subjects: u16,
    objects: u16,
    cells: usize,
    accesses: usize,
) -> Result<String, AllocError>
    ensures { IfOk result (λ text. string_bytes text ≡ counts_text subjects objects cells accesses) }
{
    let mut text = String::new(alloc);
    push_count(&mut text, "subjects ", usize::from(subjects))?;
    push_count(&mut text, "objects ", usize::from(objects))?;
    push_count(&mut text, "cells ", cells)?;
    push_accesses(&mut text, accesses)?;
    Ok(text)
}

/// What `mls check` prints of a start.
fn report(alloc: Global, start: &Start) -> Result<String, AllocError>
    ensures { IfOk result (λ text. ChecksOver start.now (string_bytes text)) }
{
    let subjects = start.subject_count();
    let objects = start.object_count();
    let cells = start.cell_count();
    let accesses = start.access_count();
    let counts = count_lines(alloc, subjects, objects, cells, accesses)?;
    let secure = yes_or_no(opens_secure(alloc, start)?);
    format!(in alloc; "{counts}secure {secure}\n")
}

/// What `mls check` prints of a start file: how many subjects, objects and cells it has, how many accesses where it has
/// any, and whether it opens secure.
///
/// # Errors
/// `Load` where the file is refused, `Memory` where an allocation failed.
pub fn check_start(alloc: Global, bytes: &[u8]) -> Result<String, CommandFault>
    ensures ok { IfOk result (λ text. Checks bytes.now (string_bytes text)) }
    ensures fault { IfErr result (λ fault. RefusesLoad bytes.now fault) }
{
    let start = load(alloc, bytes)?;
    let text = report(alloc, &start);
    drop(start);
    Ok(text?)
}
