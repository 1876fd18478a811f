//! A service whose journal is cut into files.
use super::Shelf;
use crate::seen::{sees_bytes, sees_outcome};
use crate::standard::{ample_start, resumed_monitor};
use mls_durable::{Asker, Options, Protocol, ServiceFault, TornEnd, serve_durably};
use mls_lines::Names;
use mls_monitor::Monitor;
use std::alloc::Global;
use std::process::Abort;

/// Four requests, each with an entry of 21 bytes, but for the third, of 25.
const SCRIPT: &[u8] =
    b"ann get-read plans\nann get-read plans\nann release read plans\nann get-read plans\n";

/// The lines of these entries.
const LINES: &[u8] =
    b"0 0 0 get-read 1 yes\n1 0 0 get-read 1 yes\n2 0 0 release read 1 yes\n3 0 0 get-read 1 yes\n";

/// A service over files in memory.
#[derive(Clone, Copy)]
struct Setting<'a> {
    /// How many bytes a file takes.
    segment: Option<u32>,
    /// How many entries earlier files hold.
    earlier: u64,
    found: &'a [u8],
    script: &'a [u8],
}

/// What a service leaves: the bytes of the files, where files were begun, and what was told.
#[derive(Clone, Copy)]
struct Wanted<'a> {
    bytes: &'a [u8],
    begun: &'a str,
    told: &'a [u8],
}

/// Runs a service over files in memory, by these names and over this monitor.
fn serve(
    alloc: Global,
    names: &Names,
    setting: &Setting<'_>,
    monitor: Monitor,
    shelf: &mut Shelf,
) -> Result<(), ServiceFault> {
    let mut reader = setting.script;
    let options = Options {
        protocol: Protocol {
            asker: Asker::Session(0),
            numbers: false,
            segment: setting.segment,
        },
        names: false,
        torn: TornEnd::Refuse,
    };
    serve_durably(alloc, names, options, monitor, &mut reader, shelf)
}

/// Runs a service over files in memory.
fn run(
    rt: &impl Abort,
    alloc: Global,
    setting: &Setting<'_>,
    shelf: &mut Shelf,
) -> Result<(), ServiceFault> {
    let loaded = ample_start(rt, alloc);
    let monitor = resumed_monitor(rt, alloc, setting.earlier);
    let served = serve(alloc, loaded.names(), setting, monitor, shelf);
    drop(loaded);
    served
}

/// Asserts what the files of a service hold.
fn assert_holds(rt: &impl Abort, shelf: &Shelf, wanted: &Wanted<'_>) {
    sees_bytes(rt, &shelf.bytes, wanted.bytes);
    sees_bytes(rt, shelf.begun.as_bytes(), wanted.begun.as_bytes());
    sees_bytes(rt, &shelf.told, wanted.told);
}

/// Asserts what a service leaves.
fn assert_leaves(rt: &impl Abort, alloc: Global, setting: &Setting<'_>, wanted: &Wanted<'_>) {
    match Vec::from_slice(alloc, setting.found) {
        Ok(found) => {
            let mut shelf = Shelf::new(alloc, found);
            let result = run(rt, alloc, setting, &mut shelf);
            assert_holds(rt, &shelf, wanted);
            drop(shelf);
            sees_outcome(rt, result, Ok(()));
        }
        Err(_) => panic!(rt; "out of memory"),
    }
}

#[test]
fn one_file_takes_all(rt: HostRuntime) {
    let setting = Setting {
        segment: None,
        earlier: 0,
        found: b"",
        script: SCRIPT,
    };
    let wanted = Wanted {
        bytes: LINES,
        begun: "",
        told: b"ready 0\nyes\nyes\nyes\nyes\n",
    };
    assert_leaves(&rt, rt.alloc(), &setting, &wanted);
}

#[test]
fn a_file_is_begun_before_one_is_too_long(rt: HostRuntime) {
    // the longest line fits behind 21 bytes, and not behind 42
    let setting = Setting {
        segment: Some(2300),
        earlier: 0,
        found: b"",
        script: SCRIPT,
    };
    let wanted = Wanted {
        bytes: LINES,
        begun: "2:42 ",
        told: b"ready 0\nyes\nyes\nyes\nyes\n",
    };
    assert_leaves(&rt, rt.alloc(), &setting, &wanted);
}

#[test]
fn a_line_fits_into_each_file(rt: HostRuntime) {
    let setting = Setting {
        segment: Some(1),
        earlier: 0,
        found: b"",
        script: SCRIPT,
    };
    let wanted = Wanted {
        bytes: LINES,
        begun: "1:21 2:42 3:67 ",
        told: b"ready 0\nyes\nyes\nyes\nyes\n",
    };
    assert_leaves(&rt, rt.alloc(), &setting, &wanted);
}

#[test]
fn a_start_goes_on_behind_earlier_files(rt: HostRuntime) {
    let setting = Setting {
        segment: Some(2300),
        earlier: 7,
        found: b"7 0 0 get-read 1 yes\n",
        script: b"ann check read plans\nann get-read plans\n",
    };
    let wanted = Wanted {
        bytes: b"7 0 0 get-read 1 yes\n8 0 0 get-read 1 yes\n",
        begun: "",
        told: b"ready 8\nheld\nyes\n",
    };
    assert_leaves(&rt, rt.alloc(), &setting, &wanted);
}

#[test]
fn a_live_file_that_is_longer_is_closed_at_once(rt: HostRuntime) {
    let setting = Setting {
        segment: Some(1),
        earlier: 0,
        found: b"0 0 0 get-read 1 yes\n1 0 0 get-read 1 yes\n",
        script: b"ann release read plans\n",
    };
    let wanted = Wanted {
        bytes: b"0 0 0 get-read 1 yes\n1 0 0 get-read 1 yes\n2 0 0 release read 1 yes\n",
        begun: "2:42 ",
        told: b"ready 2\nyes\n",
    };
    assert_leaves(&rt, rt.alloc(), &setting, &wanted);
}
