//! A reader that fails after each byte, a writer that does, and one that can't be flushed.
use super::lines::{SHORT, SHORT_ANSWERS, count_lines, first_lines};
use super::streams::{Limits, Pieces, Sink};
use super::{Left, Setting, WIDE, Wanted, leaves, run};
use crate::seen::sees_at;
use mls_lines::Names;
use mls_scripts::ServeFault;
use std::alloc::Global;
use std::cell::Cell;
use std::io::{BufWriter, ErrorKind};
use std::process::Abort;

/// Whether a reader that fails after so many bytes of the short script leaves the answers and the entries of the lines
/// that end within them.
fn reader_fails(alloc: Global, names: &Names<Global>, count: usize, most: usize) -> bool {
    let script = SHORT.get(..count).unwrap_or(SHORT);
    let setting = Setting {
        script,
        most,
        read_fails: true,
        limits: WIDE,
    };
    let lines = count_lines(script);
    let wanted = Wanted {
        left: Left {
            result: Err(ServeFault::Read),
            entries: lines.min(2),
        },
        written: first_lines(SHORT_ANSWERS, lines),
        flushed: None,
    };
    leaves(alloc, names, &setting, &wanted)
}

/// Asserts what is left where a reader fails, after each byte of the short script.
pub fn reader_fails_in_turn(rt: &impl Abort, alloc: Global, names: &Names<Global>) {
    for count in 0..60 {
        for most in &[1, 65_536] {
            sees_at(rt, reader_fails(alloc, names, count, *most), count);
        }
    }
}

/// What is left where the answers to the short script break off after `room` bytes: no entry after the line whose
/// answer broke off.
fn broken_off(room: usize) -> Left {
    Left {
        result: Err(ServeFault::Write),
        entries: if room < 4 { 1 } else { 2 },
    }
}

/// Whether a writer with so much room, which then fails so, takes just the answers that fit.
fn narrow_takes(
    alloc: Global,
    names: &Names<Global>,
    room: usize,
    full: Option<ErrorKind>,
) -> bool {
    let setting = Setting {
        script: SHORT,
        most: 65_536,
        read_fails: false,
        limits: Limits {
            room,
            full,
            is_stuck: false,
        },
    };
    let wanted = Wanted {
        left: broken_off(room),
        written: SHORT_ANSWERS.get(..room).unwrap_or(SHORT_ANSWERS),
        flushed: None,
    };
    leaves(alloc, names, &setting, &wanted)
}

/// Whether bytes are the first so many of the short script's answers.
fn is_front(room: usize, bytes: &[u8]) -> bool {
    match SHORT_ANSWERS.get(..room) {
        Some(front) => front == bytes,
        None => false,
    }
}

/// Whether such a writer takes just the answers that fit when it is buffered.
fn buffered_takes(alloc: Global, names: &Names<Global>, room: usize) -> bool {
    let flushed = Cell::new(0);
    let limits = Limits {
        room,
        full: Some(ErrorKind::Other),
        is_stuck: false,
    };
    let Ok(mut writer) = BufWriter::new(alloc, Sink::new(alloc, limits, &flushed)) else {
        return false;
    };
    let mut reader = Pieces {
        bytes: SHORT,
        most: 19,
        fails: false,
        calls: 0,
    };
    let left = run(alloc, names, &mut reader, &mut writer);
    let is_written = is_front(room, &writer.get_ref().taken);
    drop(writer);
    left == broken_off(room) && is_written
}

/// Asserts what is left and taken where a writer fails, after each byte of the short script's answers.
pub fn writer_fails_in_turn(rt: &impl Abort, alloc: Global, names: &Names<Global>) {
    for room in 0..13 {
        let interrupted = Some(ErrorKind::Interrupted);
        sees_at(rt, narrow_takes(alloc, names, room, None), room);
        sees_at(rt, narrow_takes(alloc, names, room, interrupted), room);
        sees_at(rt, buffered_takes(alloc, names, room), room);
    }
}

/// The answers and entries that the short script leaves in pieces of at most so many bytes, where no flush succeeds.
const STUCK: [(usize, &[u8], usize); 4] = [
    (1, b"yes\n", 1),
    (20, b"yes\n", 1),
    (45, b"yes\nyes\n", 2),
    (65_536, b"yes\nyes\nheld\n", 2),
];

/// Asserts what a flush that fails leaves: the answers to what was read.
pub fn stuck_writer_leaves_what_was_read(rt: &impl Abort, alloc: Global, names: &Names<Global>) {
    for (most, written, entries) in &STUCK {
        let setting = Setting {
            script: SHORT,
            most: *most,
            read_fails: false,
            limits: Limits {
                room: usize::MAX,
                full: None,
                is_stuck: true,
            },
        };
        let wanted = Wanted {
            left: Left {
                result: Err(ServeFault::Write),
                entries: *entries,
            },
            written,
            flushed: Some(0),
        };
        sees_at(rt, leaves(alloc, names, &setting, &wanted), *most);
    }
}
