//! A service over an outside in memory whose journal has marks.
ghost use Rattle.std.specs.Prelude.{◌≡◌, ◌∷◌, [], ℕ, List, Some};
ghost use Rattle.mls_durable.specs.History.{Found};
ghost use Rattle.mls_tests.specs.Calls.{memory_history};

use super::calls::sees_calls;
use super::marked::keeper;
use super::{Memory, MemoryMarks};
use crate::seen::{sees_bytes, sees_outcome};
use crate::standard::{ample_monitor, ample_start};
use mls_durable::{Asker, AttendFault, Options, Protocol, RecoverFault, ServiceFault, TornEnd};
use mls_lines::Names;
use mls_marked::{Served, serve_marked};
use mls_marks::{Chain, Digest, MarkFault};
use mls_monitor::Monitor;
use std::alloc::Global;
use std::process::Abort;

/// A request and a check.
const SCRIPT: &[u8] = b"ann get-read plans\nann check read plans\n";

/// The line of the request's entry.
const LINE: &[u8] = b"0 0 0 get-read 1 yes\n";

/// The line of its mark. The digest is that of Python's hashlib.
const MARK: &[u8] =
    b"0 2026-11-27T11:12:26.736512Z 4ae17cf15e6b41c1f205141e0e4a18b48262628e34fdfb8e6c9bed5987a8e27c\n";

/// A service over a file in memory, with the marks that are there.
#[derive(Clone, Copy)]
struct Setting<'a> {
    found: &'a [u8],
    chain: Chain,
    script: &'a [u8],
    /// How many marks are added before each fails.
    good: usize,
}

/// What a service leaves: its result, why a call was refused, a letter for each call, and the marks.
#[derive(Clone, Copy)]
struct Wanted<'a> {
    outcome: Result<(), ServiceFault>,
    fault: Option<MarkFault>,
    calls: &'a [u8],
    marks: &'a [u8],
}

/// Runs a service over an outside whose file was just opened, by these names and over this monitor, which is new.
fn serve(
    alloc: Global,
    names: &Names,
    setting: &Setting<'_>,
    monitor: Monitor,
    outside: Memory,
    keeper: MemoryMarks,
) -> Served<Memory, MemoryMarks>
    requires file { (bytes : List ℕ) × (memory_history outside ≡ Some (Found bytes ∷ [])) }
    requires empty { monitor.entries ≡ [] }
{
    let mut reader = setting.script;
    let options = Options {
        protocol: Protocol {
            asker: Asker::Session(0),
            numbers: false,
            segment: None,
        },
        names: false,
        torn: TornEnd::Refuse,
    };
    serve_marked(
        alloc,
        names,
        options,
        monitor,
        &mut reader,
        outside,
        keeper,
        setting.chain,
    )
}

/// Runs a service over an outside whose file was just opened.
fn run(
    rt: &impl Abort,
    alloc: Global,
    setting: &Setting<'_>,
    outside: Memory,
) -> Served<Memory, MemoryMarks>
    requires { (bytes : List ℕ) × (memory_history outside ≡ Some (Found bytes ∷ [])) }
{
    let loaded = ample_start(rt, alloc);
    let monitor = ample_monitor(rt, alloc);
    let keeper = keeper(rt, alloc, setting.good);
    let served = serve(alloc, loaded.names(), setting, monitor, outside, keeper);
    drop(loaded);
    served
}

/// Asserts what a service leaves.
fn assert_served(
    rt: &impl Abort,
    alloc: Global,
    served: &Served<Memory, MemoryMarks>,
    wanted: &Wanted<'_>,
) {
    sees_outcome(rt, served.outcome, wanted.outcome);
    assert_eq!(rt; served.fault, wanted.fault);
    sees_bytes(rt, &served.keeper.lines, wanted.marks);
    sees_calls(rt, alloc, served.outside.calls(), wanted.calls);
}

/// Asserts what a service leaves over a setting.
fn assert_leaves(rt: &impl Abort, alloc: Global, setting: &Setting<'_>, wanted: &Wanted<'_>) {
    match Vec::from_slice(alloc, setting.found) {
        Ok(found) => {
            let served = run(rt, alloc, setting, Memory::new(alloc, found, 100));
            assert_served(rt, alloc, &served, wanted);
            drop(served);
        }
        Err(_) => panic!(rt; "out of memory"),
    }
}

#[test]
fn a_batch_has_its_mark(rt: HostRuntime) {
    let setting = Setting {
        found: b"",
        chain: Chain::begin(Digest::zeros()),
        script: SCRIPT,
        good: 100,
    };
    let wanted = Wanted {
        outcome: Ok(()),
        fault: None,
        calls: b"TAST",
        marks: MARK,
    };
    assert_leaves(&rt, rt.alloc(), &setting, &wanted);
}

#[test]
fn what_was_found_without_a_mark_gets_one(rt: HostRuntime) {
    let setting = Setting {
        found: LINE,
        chain: Chain::begin(Digest::zeros()),
        script: b"ann check read plans\n",
        good: 100,
    };
    let wanted = Wanted {
        outcome: Ok(()),
        fault: None,
        calls: b"TT",
        marks: MARK,
    };
    assert_leaves(&rt, rt.alloc(), &setting, &wanted);
}

#[test]
fn without_its_mark_no_entry_is_answered(rt: HostRuntime) {
    let setting = Setting {
        found: b"",
        chain: Chain::begin(Digest::zeros()),
        script: SCRIPT,
        good: 0,
    };
    let wanted = Wanted {
        outcome: Err(ServiceFault::Attend(AttendFault::Write)),
        fault: None,
        calls: b"TAS",
        marks: b"",
    };
    assert_leaves(&rt, rt.alloc(), &setting, &wanted);
}

#[test]
fn a_journal_that_lacks_marked_entries_is_refused(rt: HostRuntime) {
    let setting = Setting {
        found: LINE,
        chain: Chain {
            digest: Digest::zeros(),
            entries: 2,
            len: 42,
        },
        script: SCRIPT,
        good: 100,
    };
    let wanted = Wanted {
        outcome: Err(ServiceFault::Recover(RecoverFault::Memory)),
        fault: Some(MarkFault::Differs { entry: 1 }),
        calls: b"",
        marks: b"",
    };
    assert_leaves(&rt, rt.alloc(), &setting, &wanted);
}
