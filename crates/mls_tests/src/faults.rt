//! The lines of faults that no file has: a label of a file is within its bounds, and a cell names what is there.
use crate::seen::sees;
use mls_replay::{CommandFault, status, write_fault};
use mls_start::StartFault;
use mls_start_file::LoadFault;
use std::alloc::Global;

/// Faults of a start in the file `s.json`, and their lines.
const LINES: [(StartFault, &str); 2] = [
    (
        StartFault::BadLabel,
        "mls: s.json: start 7 Start 4 BadLabel\n",
    ),
    (
        StartFault::NoSuchCell,
        "mls: s.json: start 7 Start 9 NoSuchCell\n",
    ),
];

/// Whether a text ends with a line, after what it had.
fn is_after(text: &str, line: &str) -> bool {
    match text.strip_prefix("so:\n") {
        Some(rest) => rest == line,
        None => false,
    }
}

/// Whether a fault is told by this line, appended after what a text has.
fn is_told(alloc: Global, fault: CommandFault, line: &str) -> bool {
    let mut text = String::new(alloc);
    let is_written = text.push_str("so:\n").is_ok()
        && write_fault(alloc, fault, "s.json", &mut text).is_ok();
    let is_right = is_written && is_after(&text, line);
    drop(text);
    is_right
}

#[test]
fn faults_that_no_file_has_have_their_lines(rt: HostRuntime) {
    for (fault, line) in &LINES {
        let fault = CommandFault::Load(LoadFault::Start(*fault));
        let is_right = is_told(rt.alloc(), fault, line);
        sees(&rt, is_right && status(fault) == 1, line);
    }
}
