//! Entries and their lines, each written and read.
use super::rows::{accesses, changes};
use crate::seen::sees;
use mls_journal::{read_entry, write_entry};
use mls_requests::Entry;
use std::alloc::{AllocError, Global};
use std::process::Abort;
use std::test::Fail;

/// Whether a text is a line and its end.
fn is_line(text: &str, line: &str) -> bool {
    match text.strip_suffix('\n') {
        Some(found) => found == line,
        None => false,
    }
}

/// A line is what is written of its entry.
fn is_written(rt: &impl Abort, alloc: Global, line: &str, entry: &Entry) -> Result<(), AllocError> {
    let mut text = String::new(alloc);
    let written = write_entry(*entry, &mut text);
    sees(rt, is_line(&text, line), line);
    drop(text);
    written
}

/// Whether a line is read as an entry.
fn is_read(line: &str, entry: &Entry) -> bool {
    match read_entry(line) {
        Ok(found) => found == *entry,
        Err(_) => false,
    }
}

/// Lines are read as their entries, and written of them.
fn stand_for(rt: &impl Abort, alloc: Global, rows: &[(&str, Entry)]) -> Result<(), AllocError> {
    for (line, entry) in rows {
        sees(rt, is_read(line, entry), line);
        is_written(rt, alloc, line, entry)?;
    }
    Ok(())
}

#[test]
fn entries_have_their_lines(rt: HostRuntime) -> Result<(), Fail> {
    stand_for(&rt, rt.alloc(), &accesses())?;
    stand_for(&rt, rt.alloc(), &changes())?;
    Ok(())
}
