//! Each allocation refused in turn: the lines before are answered, and the rest of the script then as ever.
use super::lines::{after_lines, count_lines, first_lines};
use super::streams::{Pieces, Sink};
use super::{Left, WIDE, entries_of_seven};
use crate::seen::{sees, sees_at};
use crate::standard::standard_monitor;
use mls_lines::Names;
use mls_monitor::Monitor;
use mls_scripts::{ServeFault, serve};
use refusing::Refusing;
use std::alloc::Global;
use std::cell::Cell;
use std::process::Abort;

/// A script of eight lines, six of which ask for an entry, and the last binds a variable.
const EIGHT: &[u8] =
    b"ann get-read plans\nbob get-read memo\nann check read plans\nfrob\nsec get-write plans\n\
    ann release read plans\nsec get-write root\n$x = sec create root S:B hi\n";

/// Its answers.
const EIGHT_ANSWERS: &[u8] = b"yes\nno star\nheld\nbad form\nyes\nyes\nyes\ncreated 4\n";

/// How many entries stand after so many of its lines.
const EIGHT_ENTRIES: [usize; 9] = [0, 1, 2, 2, 2, 3, 4, 5, 6];

/// Serves what the writer holds no answer to yet of the script of eight lines.
fn run_rest(
    heap: &Refusing<Global>,
    names: &Names<Global>,
    monitor: &mut Monitor<&Refusing<Global>>,
    writer: &mut Sink<'_>,
) -> Left {
    let mut reader = Pieces {
        bytes: after_lines(EIGHT, count_lines(&writer.taken)),
        most: 11,
        fails: false,
        calls: 0,
    };
    let result = serve(heap, names, monitor, 7, &mut reader, writer);
    let entries = entries_of_seven(monitor.entries());
    Left { result, entries }
}

/// Where the refused allocation was asked for.
#[derive(Clone, Copy, Debug, PartialEq, Eq)]
enum Asked {
    Opening,
    Serving,
    Nowhere,
}

/// Serves the script over a monitor, whatever is refused, and then what isn't answered: says whether one of these
/// allocations was refused, and whether all is as it must be. Where none was, the script is answered whole. Else just
/// the answers of the lines before were written and flushed, the entries are just theirs, and the rest is then answered
/// as in a run that met no refusal.
fn serves(
    heap: &Refusing<Global>,
    names: &Names<Global>,
    monitor: &mut Monitor<&Refusing<Global>>,
    writer: &mut Sink<'_>,
) -> (Asked, bool) {
    let first = run_rest(heap, names, monitor, writer);
    if !heap.has_refused() {
        let is_whole = first.result == Ok(6) && first.entries == 6;
        return (
            Asked::Nowhere,
            is_whole && writer.has_flushed(EIGHT_ANSWERS),
        );
    }
    let lines = count_lines(&writer.taken);
    let answers = first_lines(EIGHT_ANSWERS, lines);
    let added = EIGHT_ENTRIES.get(lines).copied();
    let is_front = writer.has_flushed(answers) && added == Some(first.entries);
    let second = run_rest(heap, names, monitor, writer);
    let is_whole = second.result.is_ok() && second.entries == 6;
    let is_right = first.result == Err(ServeFault::Memory) && is_front && is_whole;
    (
        Asked::Serving,
        is_right && writer.has_flushed(EIGHT_ANSWERS),
    )
}

/// Serves the script over a new monitor, as above.
fn opens_and_serves(
    heap: &Refusing<Global>,
    names: &Names<Global>,
    writer: &mut Sink<'_>,
) -> (Asked, bool) {
    let Ok(mut monitor) = standard_monitor(heap) else {
        return (Asked::Opening, true);
    };
    let served = serves(heap, names, &mut monitor, writer);
    drop(monitor);
    served
}

/// Where the allocation of this number is asked for, and whether all is as it must be.
fn refuses(alloc: Global, names: &Names<Global>, number: u64) -> (Asked, bool) {
    let heap = Refusing::new(alloc, number);
    let flushed = Cell::new(0);
    let mut writer = Sink::new(alloc, WIDE, &flushed);
    let served = opens_and_serves(&heap, names, &mut writer);
    drop(writer);
    served
}

/// Refuses each allocation in turn, asserts that all is as it must be, and says how often one of serving was refused.
fn refusals_in_turn(rt: &impl Abort, alloc: Global, names: &Names<Global>) -> Option<u32> {
    let mut refusals = 0u32;
    for number in 1..1000 {
        let (asked, is_right) = refuses(alloc, names, number);
        sees_at(rt, is_right, number as usize);
        match asked {
            Asked::Opening => {}
            Asked::Serving => refusals = refusals.saturating_add(1),
            Asked::Nowhere => return Some(refusals),
        }
    }
    None
}

/// Asserts that eight allocations of serving and more were refused.
pub fn allocations_are_refused(rt: &impl Abort, alloc: Global, names: &Names<Global>) {
    let refusals = refusals_in_turn(rt, alloc, names);
    sees(rt, refusals >= Some(8), "how many refusals");
}
