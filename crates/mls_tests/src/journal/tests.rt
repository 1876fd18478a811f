//! What is asked of the outside, what is told, and what a call that fails leaves.
ghost use Rattle.std.specs.Prelude.{◌≡◌, ◌∷◌, [], ℕ, List, Some};
ghost use Rattle.mls_durable.specs.History.{Found};
ghost use Rattle.mls_tests.specs.Calls.{memory_history};

use super::calls::{sees_calls, sees_told};
use super::{Call, Memory};
use crate::seen::sees_outcome;
use crate::standard::{ample_monitor, ample_start};
use mls_durable::{
    Asker, AttendFault, Options, Protocol, RecoverFault, ServiceFault, TornEnd, serve_durably,
};
use mls_lines::Names;
use mls_monitor::{Monitor, ReplayFault};
use std::alloc::Global;
use std::process::Abort;

/// A request and a check.
const SCRIPT: &[u8] = b"ann get-read plans\nann check read plans\n";

/// The line of the request's entry.
const LINE: &[u8] = b"0 0 0 get-read 1 yes\n";

/// One session, and no numbers.
const ONE_SESSION: Protocol = Protocol {
    asker: Asker::Session(0),
    numbers: false,
    segment: None,
};

/// A session a line, and numbers.
const SESSIONS: Protocol = Protocol {
    asker: Asker::EachLine,
    numbers: true,
    segment: None,
};

/// A service over a file in memory.
#[derive(Clone, Copy)]
struct Setting<'a> {
    found: &'a [u8],
    torn: TornEnd,
    protocol: Protocol,
    script: &'a [u8],
    /// How many calls go well before each fails.
    good: usize,
}

/// What a service leaves: its result, a letter for each call, and the bytes that were told.
#[derive(Clone, Copy)]
struct Wanted<'a> {
    result: Result<(), ServiceFault>,
    calls: &'a [u8],
    told: &'a [u8],
}

/// Runs a service over an outside whose file was just opened, by these names and over this monitor, which is new.
fn serve(
    alloc: Global,
    names: &Names,
    setting: &Setting<'_>,
    monitor: Monitor,
    outside: &mut Memory,
) -> Result<(), ServiceFault>
    requires file { (bytes : List ℕ) × (memory_history outside.old ≡ Some (Found bytes ∷ [])) }
    requires empty { monitor.entries ≡ [] }
{
    let mut reader = setting.script;
    let options = Options {
        protocol: setting.protocol,
        names: false,
        torn: setting.torn,
    };
    serve_durably(alloc, names, options, monitor, &mut reader, outside)
}

/// Runs a service over an outside whose file was just opened.
fn run(
    rt: &impl Abort,
    alloc: Global,
    setting: &Setting<'_>,
    outside: &mut Memory,
) -> Result<(), ServiceFault>
    requires { (bytes : List ℕ) × (memory_history outside.old ≡ Some (Found bytes ∷ [])) }
{
    let loaded = ample_start(rt, alloc);
    let monitor = ample_monitor(rt, alloc);
    let served = serve(alloc, loaded.names(), setting, monitor, outside);
    drop(loaded);
    served
}

/// Asserts what the calls of an outside were.
fn assert_calls(rt: &impl Abort, alloc: Global, calls: &[Call], wanted: &Wanted<'_>) {
    sees_calls(rt, alloc, calls, wanted.calls);
    sees_told(rt, alloc, calls, wanted.told);
}

/// Asserts what a service leaves.
fn assert_leaves(rt: &impl Abort, alloc: Global, setting: &Setting<'_>, wanted: &Wanted<'_>) {
    match Vec::from_slice(alloc, setting.found) {
        Ok(found) => {
            let mut outside = Memory::new(alloc, found, setting.good);
            let result = run(rt, alloc, setting, &mut outside);
            assert_calls(rt, alloc, outside.calls(), wanted);
            drop(outside);
            sees_outcome(rt, result, wanted.result);
        }
        Err(_) => panic!(rt; "out of memory"),
    }
}

#[test]
fn an_empty_file_is_gone_on_with(rt: HostRuntime) {
    let setting = Setting {
        found: b"",
        torn: TornEnd::Refuse,
        protocol: ONE_SESSION,
        script: SCRIPT,
        good: 100,
    };
    let wanted = Wanted {
        result: Ok(()),
        calls: b"TAST",
        told: b"ready 0\nyes\nheld\n",
    };
    assert_leaves(&rt, rt.alloc(), &setting, &wanted);
}

#[test]
fn a_journal_is_gone_on_with(rt: HostRuntime) {
    let setting = Setting {
        found: LINE,
        torn: TornEnd::Refuse,
        protocol: ONE_SESSION,
        script: b"ann check read plans\n",
        good: 100,
    };
    let wanted = Wanted {
        result: Ok(()),
        calls: b"TT",
        told: b"ready 1\nheld\n",
    };
    assert_leaves(&rt, rt.alloc(), &setting, &wanted);
}

/// Asserts what a service over an empty file leaves of which so many calls go well.
fn assert_after(rt: &impl Abort, alloc: Global, good: usize, wanted: &Wanted<'_>) {
    let setting = Setting {
        found: b"",
        torn: TornEnd::Refuse,
        protocol: ONE_SESSION,
        script: SCRIPT,
        good,
    };
    assert_leaves(rt, alloc, &setting, wanted);
}

#[test]
fn each_call_fails_in_turn(rt: HostRuntime) {
    let not_told = Wanted {
        result: Err(ServiceFault::Attend(AttendFault::Write)),
        calls: b"t",
        told: b"",
    };
    assert_after(&rt, rt.alloc(), 0, &not_told);
    let not_appended = Wanted {
        result: Err(ServiceFault::Attend(AttendFault::File)),
        calls: b"Ta",
        told: b"ready 0\n",
    };
    assert_after(&rt, rt.alloc(), 1, &not_appended);
    let not_synced = Wanted {
        result: Err(ServiceFault::Attend(AttendFault::File)),
        calls: b"TAs",
        told: b"ready 0\n",
    };
    assert_after(&rt, rt.alloc(), 2, &not_synced);
    let not_answered = Wanted {
        result: Err(ServiceFault::Attend(AttendFault::Write)),
        calls: b"TASt",
        told: b"ready 0\n",
    };
    assert_after(&rt, rt.alloc(), 3, &not_answered);
}

#[test]
fn a_torn_end_is_kept_and_cut_off(rt: HostRuntime) {
    let setting = Setting {
        found: b"0 0 0 get-read 1 yes\n1 0 0 rel",
        torn: TornEnd::Cut,
        protocol: ONE_SESSION,
        script: b"",
        good: 100,
    };
    let wanted = Wanted {
        result: Ok(()),
        calls: b"KCSRT",
        told: b"ready 1\n",
    };
    assert_leaves(&rt, rt.alloc(), &setting, &wanted);
}

/// A journal of one entry with a torn end.
const TORN: &[u8] = b"0 0 0 get-read 1 yes\n1 0 0 rel";

/// Asserts how the recovery of a file fails of which so many calls go well.
fn assert_refused(
    rt: &impl Abort,
    alloc: Global,
    setting: &Setting<'_>,
    fault: RecoverFault,
    calls: &[u8],
) {
    let wanted = Wanted {
        result: Err(ServiceFault::Recover(fault)),
        calls,
        told: b"",
    };
    assert_leaves(rt, alloc, setting, &wanted);
}

/// A file with a torn end that is to be cut, of which so many calls go well.
fn torn(good: usize) -> Setting<'static> {
    Setting {
        found: TORN,
        torn: TornEnd::Cut,
        protocol: ONE_SESSION,
        script: SCRIPT,
        good,
    }
}

#[test]
fn each_call_of_a_repair_fails_in_turn(rt: HostRuntime) {
    assert_refused(&rt, rt.alloc(), &torn(0), RecoverFault::Keep, b"k");
    assert_refused(&rt, rt.alloc(), &torn(1), RecoverFault::File, b"Kc");
    assert_refused(&rt, rt.alloc(), &torn(2), RecoverFault::File, b"KCs");
}

#[test]
fn a_torn_end_is_refused_unchanged(rt: HostRuntime) {
    let setting = Setting {
        found: TORN,
        torn: TornEnd::Refuse,
        protocol: ONE_SESSION,
        script: SCRIPT,
        good: 100,
    };
    let fault = RecoverFault::Torn { entries: 1 };
    assert_refused(&rt, rt.alloc(), &setting, fault, b"");
}

#[test]
fn another_journal_is_refused_unchanged(rt: HostRuntime) {
    let setting = Setting {
        found: b"1 0 0 get-read 1 yes\n",
        torn: TornEnd::Cut,
        protocol: ONE_SESSION,
        script: SCRIPT,
        good: 100,
    };
    let fault = RecoverFault::Replay(ReplayFault::Number { at: 0 });
    assert_refused(&rt, rt.alloc(), &setting, fault, b"");
}

#[test]
fn half_a_line_is_not_asked(rt: HostRuntime) {
    let setting = Setting {
        found: b"",
        torn: TornEnd::Refuse,
        protocol: ONE_SESSION,
        script: b"ann get-read plans\nann release read plans",
        good: 100,
    };
    let wanted = Wanted {
        result: Err(ServiceFault::Attend(AttendFault::Unfinished)),
        calls: b"TAST",
        told: b"ready 0\nyes\n",
    };
    assert_leaves(&rt, rt.alloc(), &setting, &wanted);
}

#[test]
fn each_line_has_its_session(rt: HostRuntime) {
    let setting = Setting {
        found: LINE,
        torn: TornEnd::Refuse,
        protocol: SESSIONS,
        script: b"7 ann get-read plans\n8 ? bob get-read memo\n8 ann get-read $x\n; a note\n9 ; a note\n",
        good: 100,
    };
    let wanted = Wanted {
        result: Ok(()),
        calls: b"TAST",
        told: b"ready 1\n7 yes 1\n8 ? no star\n8 bad form\n- bad form\n",
    };
    assert_leaves(&rt, rt.alloc(), &setting, &wanted);
}

#[test]
fn a_trial_syncs_nothing(rt: HostRuntime) {
    let setting = Setting {
        found: b"",
        torn: TornEnd::Refuse,
        protocol: SESSIONS,
        script: b"7 ? ann get-read plans\n",
        good: 100,
    };
    let wanted = Wanted {
        result: Ok(()),
        calls: b"TT",
        told: b"ready 0\n7 ? yes\n",
    };
    assert_leaves(&rt, rt.alloc(), &setting, &wanted);
}
