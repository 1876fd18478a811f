//! Scripts whose answers the format fixes, over readers, writers and allocators that fail.
mod failing;
mod lines;
mod refusals;
mod streams;
mod whole;

use crate::standard::{ample_start, standard_monitor};
use failing::{reader_fails_in_turn, stuck_writer_leaves_what_was_read, writer_fails_in_turn};
use mls_lines::Names;
use mls_monitor::Entry;
use mls_scripts::{ServeFault, serve};
use refusals::allocations_are_refused;
use std::alloc::Global;
use std::cell::Cell;
use std::io::{Read, Write};
use std::process::Abort;
use streams::{Limits, Pieces, Sink};
use whole::{
    is_answered_before_it_reads_on, lines_are_bounded, script_is_limited, scripts_are_answered,
};

/// What a test of serving asserts over the standard names.
#[derive(Clone, Copy)]
enum Test {
    AnswersScripts,
    AnswersBeforeItReadsOn,
    LinesAtTheBounds,
    AScriptAtItsLimit,
    ReaderFails,
    WriterFails,
    AFlushThatFails,
    EachAllocationRefused,
}

/// Asserts what a test does.
fn assert_over(rt: &impl Abort, alloc: Global, names: &Names<Global>, test: Test) {
    match test {
        Test::AnswersScripts => scripts_are_answered(rt, alloc, names),
        Test::AnswersBeforeItReadsOn => is_answered_before_it_reads_on(rt, alloc, names),
        Test::LinesAtTheBounds => lines_are_bounded(rt, alloc, names),
        Test::AScriptAtItsLimit => script_is_limited(rt, alloc, names),
        Test::ReaderFails => reader_fails_in_turn(rt, alloc, names),
        Test::WriterFails => writer_fails_in_turn(rt, alloc, names),
        Test::AFlushThatFails => stuck_writer_leaves_what_was_read(rt, alloc, names),
        Test::EachAllocationRefused => allocations_are_refused(rt, alloc, names),
    }
}

/// Makes the standard names, and lends them to a test.
fn over_names(rt: &impl Abort, alloc: Global, test: Test) {
    let loaded = ample_start(rt, alloc);
    assert_over(rt, alloc, loaded.names(), test);
    drop(loaded);
}

/// What serving as session 7 left: its result, and how many entries of the session.
#[derive(Clone, Copy, Debug, PartialEq, Eq)]
struct Left {
    result: Result<u64, ServeFault>,
    entries: usize,
}

fn entries_of_seven(entries: &[Entry]) -> usize {
    entries.iter().filter(|entry| entry.session == 7).count()
}

/// Serves over a standard monitor that is new.
fn run<R: Read, W: Write>(
    alloc: Global,
    names: &Names<Global>,
    reader: &mut R,
    writer: &mut W,
) -> Left {
    let Ok(mut monitor) = standard_monitor(alloc) else {
        return Left {
            result: Err(ServeFault::Memory),
            entries: 0,
        };
    };
    let result = serve(alloc, names, &mut monitor, 7, reader, writer);
    let entries = entries_of_seven(monitor.entries());
    drop(monitor);
    Left { result, entries }
}

/// A script, how it is read, and how its answers are written.
#[derive(Clone, Copy)]
struct Setting<'a> {
    script: &'a [u8],
    /// The most bytes that are read at once.
    most: usize,
    /// Whether the reader fails at the end of the script.
    read_fails: bool,
    limits: Limits,
}

/// A writer that takes and flushes all.
const WIDE: Limits = Limits {
    room: usize::MAX,
    full: None,
    is_stuck: false,
};

/// What serving leaves in a setting: its result and entries, what was written, and, where it is known, how much of that
/// was flushed.
#[derive(Clone, Copy)]
struct Wanted<'a> {
    left: Left,
    written: &'a [u8],
    flushed: Option<usize>,
}

/// Whether serving in a setting leaves that.
fn leaves(
    alloc: Global,
    names: &Names<Global>,
    setting: &Setting<'_>,
    wanted: &Wanted<'_>,
) -> bool {
    let flushed = Cell::new(0);
    let mut reader = Pieces {
        bytes: setting.script,
        most: setting.most,
        fails: setting.read_fails,
        calls: 0,
    };
    let mut writer = Sink::new(alloc, setting.limits, &flushed);
    let left = run(alloc, names, &mut reader, &mut writer);
    let is_written = writer.taken.as_slice() == wanted.written;
    drop(writer);
    let is_flushed = match wanted.flushed {
        Some(count) => flushed.get() == count,
        None => true,
    };
    left == wanted.left && is_written && is_flushed
}

#[test]
fn answers_scripts(rt: HostRuntime) {
    over_names(&rt, rt.alloc(), Test::AnswersScripts);
}

#[test]
fn answers_before_it_reads_on(rt: HostRuntime) {
    over_names(&rt, rt.alloc(), Test::AnswersBeforeItReadsOn);
}

#[test]
fn lines_at_the_bounds(rt: HostRuntime) {
    over_names(&rt, rt.alloc(), Test::LinesAtTheBounds);
}

#[test]
fn a_script_at_its_limit(rt: HostRuntime) {
    over_names(&rt, rt.alloc(), Test::AScriptAtItsLimit);
}

#[test]
fn reader_fails_after_each_byte(rt: HostRuntime) {
    over_names(&rt, rt.alloc(), Test::ReaderFails);
}

#[test]
fn writer_fails_after_each_byte(rt: HostRuntime) {
    over_names(&rt, rt.alloc(), Test::WriterFails);
}

#[test]
fn a_flush_that_fails_leaves_the_answers_to_what_was_read(rt: HostRuntime) {
    over_names(&rt, rt.alloc(), Test::AFlushThatFails);
}

#[test]
fn each_allocation_refused_in_turn(rt: HostRuntime) {
    over_names(&rt, rt.alloc(), Test::EachAllocationRefused);
}
