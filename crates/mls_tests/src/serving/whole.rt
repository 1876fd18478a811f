//! Scripts that are answered whole: in pieces, by a person who waits, and at their limits.
use super::lines::{SHORT, SHORT_ANSWERS};
use super::streams::{Limits, Pieces, Sink, Waiting};
use super::{Left, Setting, WIDE, Wanted, leaves, run};
use crate::seen::{sees, sees_at};
use mls_lines::Names;
use mls_monitor::Feed;
use mls_scripts::{SCRIPT_LIMIT, ScriptFeed, ServeFault};
use std::alloc::{AllocError, Global};
use std::cell::Cell;
use std::process::Abort;

/// A script or a line, its answers, and how many entries it adds.
type Case = (&'static [u8], &'static [u8], usize);

/// Whether a script that comes in pieces of at most `most` bytes is answered so, with so many entries, and all answers
/// are flushed.
fn is_answered(
    alloc: Global,
    names: &Names<Global>,
    script: &[u8],
    most: usize,
    answers: &[u8],
    entries: usize,
) -> bool {
    let setting = Setting {
        script,
        most,
        read_fails: false,
        limits: WIDE,
    };
    let wanted = Wanted {
        left: Left {
            result: Ok(entries as u64),
            entries,
        },
        written: answers,
        flushed: Some(answers.len()),
    };
    leaves(alloc, names, &setting, &wanted)
}

const SCRIPTS: [Case; 10] = [
    (b"", b"", 0),
    (SHORT, SHORT_ANSWERS, 2),
    (
        b"bob get-append plans\nann get-read memo\nann get-append plans\nbob get-read memo\n",
        b"no integrity\nno integrity\nno discretionary\nno star\n",
        4,
    ),
    (
        b"ann get-execute tool\nbob get-execute tool\n",
        b"no integrity\nyes\n",
        2,
    ),
    (
        b"sec get-write plans\nsec get-write memo\n",
        b"yes\nno integrity\n",
        2,
    ),
    (
        b"ann release write plans\nann check write plans\n",
        b"yes\nnot held\n",
        1,
    ),
    (
        b"ann frob plans\nzoe get-read plans\nann get-read\n; note\n\n",
        b"bad form\nbad name\nbad form\n",
        0,
    ),
    (
        b"ann get-read pl\0ns\nann\tget-read plans\nann get-read plans\r\n",
        b"bad form\nbad form\nbad form\n",
        0,
    ),
    (
        b"ann get-read plans\nann get-read pla",
        b"yes\nbad name\n",
        1,
    ),
    (b"ann get-read plans\nann get-read plans", b"yes\nyes\n", 2),
];

/// Whether a feed that gave nothing yet has all of its script left.
fn is_all_left(alloc: Global, names: &Names<Global>, script: &[u8]) -> bool {
    let feed = ScriptFeed::new(alloc, names, script);
    let is_all = feed.left() == script.len() as u64;
    drop(feed);
    is_all
}

/// Asserts the answers to the scripts above, in pieces of three sizes, and how much of them a feed has left at first.
pub fn scripts_are_answered(rt: &impl Abort, alloc: Global, names: &Names<Global>) {
    for (script, answers, entries) in &SCRIPTS {
        sees_at(rt, is_all_left(alloc, names, script), script.len());
        for most in &[1, 7, 65_536] {
            let is_right = is_answered(alloc, names, script, *most, answers, *entries);
            sees_at(rt, is_right, *most);
        }
    }
}

/// A script that a person types, who waits after each of its pieces for the answers of the steps below.
const TYPED: &[u8] =
    b"ann get-read plans\n\n; note\nann check read plans\nann get-write plans\nbob get-read memo";

/// Asserts that a reader that waits for the answers to what it gave gets them.
pub fn is_answered_before_it_reads_on(rt: &impl Abort, alloc: Global, names: &Names<Global>) {
    let flushed = Cell::new(0);
    let mut reader = Waiting {
        bytes: TYPED,
        steps: &[(19, 0), (8, 4), (12, 4), (32, 4), (14, 13)],
        step: 0,
        flushed: &flushed,
    };
    let mut writer = Sink::new(alloc, WIDE, &flushed);
    let left = run(alloc, names, &mut reader, &mut writer);
    drop(writer);
    let wanted = Left {
        result: Ok(3),
        entries: 3,
    };
    sees(rt, left == wanted && flushed.get() == 21, "what is left");
}

/// A text, filled up with spaces to so many bytes, and what stands after it.
fn filled(alloc: Global, text: &[u8], count: usize, after: &[u8]) -> Result<Vec<u8>, AllocError> {
    let mut script = Vec::from_slice(alloc, text)?;
    script.resize(count, b' ')?;
    script.extend_from_slice(after)?;
    Ok(script)
}

/// Whether a text that is filled up with spaces to so many bytes, and what stands after it, is answered so.
fn is_answered_at(
    alloc: Global,
    names: &Names<Global>,
    text: &[u8],
    count: usize,
    after: Case,
) -> bool {
    let (more, answers, entries) = after;
    let Ok(script) = filled(alloc, text, count, more) else {
        return false;
    };
    let in_small = is_answered(alloc, names, &script, 6_000, answers, entries);
    let at_once = is_answered(alloc, names, &script, 65_536, answers, entries);
    drop(script);
    in_small && at_once
}

/// Texts of lines, their answers and entries.
const LINES: [Case; 3] = [
    (b"", b"", 0),
    (b";", b"", 0),
    (b"ann get-read plans", b"yes\n", 1),
];

/// Asserts the answers to lines of the most bytes and of more.
pub fn lines_are_bounded(rt: &impl Abort, alloc: Global, names: &Names<Global>) {
    let too_long: Case = (b"", b"bad form\n", 0);
    let far_too_long: Case = (b"\nann check read plans\n", b"bad form\nnot held\n", 0);
    for (text, answers, entries) in &LINES {
        let within: Case = (b"", answers, *entries);
        let is_right = is_answered_at(alloc, names, text, 20_000, within);
        sees_at(rt, is_right, 20_000);
        let is_right = is_answered_at(alloc, names, text, 20_001, too_long);
        sees_at(rt, is_right, 20_001);
        let is_right = is_answered_at(alloc, names, text, 100_000, far_too_long);
        sees_at(rt, is_right, 100_000);
    }
}

/// Serves so many newlines one by one, and tells how often the reader was called.
fn newlines(alloc: Global, names: &Names<Global>, script: &[u8]) -> (Left, usize) {
    let flushed = Cell::new(0);
    let mut reader = Pieces {
        bytes: script,
        most: 1,
        fails: false,
        calls: 0,
    };
    let none = Limits {
        room: 0,
        full: None,
        is_stuck: false,
    };
    let mut writer = Sink::new(alloc, none, &flushed);
    let left = run(alloc, names, &mut reader, &mut writer);
    drop(writer);
    (left, reader.calls)
}

/// Asserts the result of a script of so many newlines.
fn ends_so(
    rt: &impl Abort,
    alloc: Global,
    names: &Names<Global>,
    count: usize,
    ended: Result<u64, ServeFault>,
) {
    match Vec::from_elem(alloc, b'\n', count) {
        Ok(script) => {
            let (left, calls) = newlines(alloc, names, &script);
            drop(script);
            let wanted = Left {
                result: ended,
                entries: 0,
            };
            sees_at(rt, left == wanted, count);
            sees_at(rt, calls == SCRIPT_LIMIT + 1, count);
        }
        Err(_) => panic!(rt; "out of memory"),
    }
}

/// Asserts the results of scripts of the most bytes and of one more.
pub fn script_is_limited(rt: &impl Abort, alloc: Global, names: &Names<Global>) {
    ends_so(rt, alloc, names, SCRIPT_LIMIT, Ok(0));
    ends_so(rt, alloc, names, SCRIPT_LIMIT + 1, Err(ServeFault::TooLong));
}
