//! The monitors that calls are made over: their journal has two entries of another session.

use mls_labels::{CatSet, IntLabel, Label, SecLabel};
use mls_monitor::Monitor;
use mls_requests::{Action, Request};
use mls_runs::read_start;
use mls_tables::{Mode, ObjectId, SubjectId};
use std::io;

/// The session of the entries that stand before.
pub const OTHER: u32 = 7;

/// How many entries stand before.
pub const BEFORE: usize = 2;

/// The first subject asks to write the root, or to make an object below it.
pub fn request(makes: bool) -> Request {
    let label = Label::new(0, CatSet::empty());
    let action = if makes {
        Action::Create(ObjectId(0), SecLabel::of(label), IntLabel::of(label))
    } else {
        Action::Get(Mode::Write, ObjectId(0))
    };
    Request {
        subject: SubjectId(0),
        action,
    }
}

/// Makes the two entries, and returns whether there was memory for both.
fn begins(monitor: &mut Monitor) -> bool {
    monitor.submit(OTHER, request(false)).is_ok() && monitor.submit(OTHER, request(true)).is_ok()
}

/// The monitor with the two entries; none where memory ran out.
fn begun(mut monitor: Monitor) -> Option<Monitor> {
    if begins(&mut monitor) {
        Some(monitor)
    } else {
        drop(monitor);
        None
    }
}

/// A monitor over a start file; none where memory ran out.
pub fn open_monitor(rt: &HostRuntime, file: &[u8]) -> Option<Monitor> {
    let Ok(loaded) = read_start(rt.alloc(), file) else {
        return None;
    };
    let (names, start) = loaded.into_parts();
    drop(names);
    match Monitor::open(rt.alloc(), start) {
        Ok(monitor) => begun(monitor),
        Err(_) => None,
    }
}

/// The same, again where memory ran out.
pub fn monitor_again(rt: &HostRuntime, file: &[u8]) -> io::Result<Option<Monitor>> {
    if let Some(monitor) = open_monitor(rt, file) {
        return Ok(Some(monitor));
    }
    println!(rt; "a monitor: out of memory")?;
    Ok(open_monitor(rt, file))
}

/// Prints what stands in a monitor: the length of its journal, the next object, and whether the first subject writes
/// the root.
pub fn show_monitor(rt: &impl Print, monitor: &Monitor) -> io::Result<()> {
    let (entries, next) = (monitor.entries().len(), monitor.state().next());
    let writes = monitor.check(SubjectId(0), ObjectId(0), Mode::Write);
    print!(rt; "{entries} entries, next object {next}, root written {writes}")
}
