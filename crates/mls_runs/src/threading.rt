//! Scripts that are run over a start file, each in a thread of its own.
ghost use Rattle.std.specs.Prelude.{◌≡◌, ◌<◌, ◌≤◌, ◌++◌, [], length, map, vec_len, string_bytes, option_map, is_some};
ghost use Rattle.std.specs.Prelude.{All, IfOk, IfErr, IfSome, OnOk};
ghost use Rattle.mls_monitor.specs.declared.feed.Stage.TheVariants as stage;
ghost use Rattle.mls_monitor.specs.Journal.{IsLegal};
ghost use Rattle.mls_monitor.specs.Feeds.{AllAt};
ghost use Rattle.mls_replay.specs.Loads.{IsRunFault, RefusesRun};
ghost use Rattle.mls_runs.specs.RunFaults.{run_fault};
ghost use Rattle.mls_journal.specs.EntryText.{journal_text};
ghost use Rattle.mls_runs.specs.Threads.{LeavesInThreads, RunsInThreads};
ghost use Rattle.mls_replay.specs.RunTexts.{ending};
ghost use Rattle.mls_runs.specs.RunFeeds.{NoneFailed, LeavesFeeds, fed_texts};

use crate::fed::{done_text, make_feeds};
use mls_lines::Names;
use mls_monitor::{Monitor, Start};
use mls_replay::{CommandFault, MAX_SCRIPTS, RunText};
use mls_scripts::{SCRIPT_LIMIT, ScriptFeed};
use mls_sessions::{Backoff, RunDone, RunFaultKind, run_sessions};
use mls_start_file::read_start;
use std::alloc::Global;
use std::sync::Wait;
use std::thread::Threads;

/// What a run came to whose scripts were all asked to their end. The run is dropped.
fn finish(
    alloc: Global,
    left: RunDone<ScriptFeed<'_>>,
    journal: bool,
) -> Result<RunText, CommandFault>
    requires count { vec_len left.feeds ≤ MAX_SCRIPTS }
    requires whole { left.monitor.forgotten ≡ 0 }
    ensures output { IfOk result
        (λ run. run.output.items ≡ fed_texts 0 left.entry.feeds.items
        ++ ending (length left.entry.monitor.entries)) }
    ensures journal { IfOk result
        (λ run. IfSome run.journal (λ text. string_bytes text ≡ journal_text left.entry.monitor.entries)) }
    ensures asked { IfOk result (λ run. is_some run.journal ≡ journal) }
    ensures whole { OnOk result (NoneFailed left.entry.feeds.items) }
    ensures legal { IsLegal left.entry.monitor.start left.entry.monitor.entries }
    ensures fault { IfErr result IsRunFault }
    ensures memory { IfErr result (λ fault. fault ≡ CommandFault.Memory) }
{
    let text = done_text(alloc, &left.monitor, &left.feeds, journal);
    drop(left);
    match text {
        Ok(text) => Ok(text),
        Err(_) => Err(CommandFault::Memory),
    }
}

/// Why a command is refused whose run in threads is.
fn fault_of(kind: RunFaultKind) -> CommandFault
    ensures { result ≡ run_fault kind }
{
    match kind {
        RunFaultKind::BadCount | RunFaultKind::Memory => CommandFault::Memory,
        RunFaultKind::Thread => CommandFault::Thread,
    }
}

/// Runs feeds over a monitor, each in a thread of its own.
#[tactic(auto, using(crate::proofs::Threads::run_stops))]
fn run_feeds<R: Threads + Wait + Sync>(
    rt: &R,
    alloc: Global,
    monitor: Monitor,
    feeds: Vec<ScriptFeed<'_>>,
    journal: bool,
) -> Result<RunText, CommandFault>
    requires ready { AllAt (λ f. f.stage) stage.Ready feeds.items }
    requires count { vec_len feeds ≤ MAX_SCRIPTS }
    requires fresh { monitor.entries ≡ [] }
    requires whole { monitor.forgotten ≡ 0 }
    ensures ok { IfOk result
        (λ run. LeavesFeeds monitor.start feeds.entry.items journal run.output.items
        (option_map (λ text. string_bytes text) run.journal)) }
    ensures fault { IfErr result IsRunFault }
{
    match run_sessions(rt, alloc, monitor, feeds, Backoff::standard()) {
        Ok(run) => finish(alloc, run, journal),
        Err(fault) => {
            let kind = fault.kind;
            drop(fault);
            Err(fault_of(kind))
        }
    }
}

/// Runs scripts over a monitor, each in a thread of its own.
fn run_over<R: Threads + Wait + Sync>(
    rt: &R,
    alloc: Global,
    names: &Names,
    monitor: Monitor,
    scripts: &[&[u8]],
    journal: bool,
) -> Result<RunText, CommandFault>
    requires count { (0 < length scripts.now) × (length scripts.now ≤ MAX_SCRIPTS) }
    requires fresh { monitor.entries ≡ [] }
    requires whole { monitor.forgotten ≡ 0 }
    ensures ok { IfOk result
        (λ run. LeavesInThreads names.now monitor.start (map (λ script. script.now) scripts.now) journal
        run.output.items (option_map (λ text. string_bytes text) run.journal)) }
    ensures fault { IfErr result IsRunFault }
{
    let Ok(feeds) = make_feeds(alloc, names, scripts) else {
        drop(monitor);
        return Err(CommandFault::Memory);
    };
    run_feeds(rt, alloc, monitor, feeds, journal)
}

/// Runs scripts over a start, each in a thread of its own.
fn run_start<R: Threads + Wait + Sync>(
    rt: &R,
    alloc: Global,
    names: &Names,
    start: Start,
    scripts: &[&[u8]],
    journal: bool,
) -> Result<RunText, CommandFault>
    requires { (0 < length scripts.now) × (length scripts.now ≤ MAX_SCRIPTS) }
    ensures ok { IfOk result
        (λ run. LeavesInThreads names.now start (map (λ script. script.now) scripts.now) journal
        run.output.items (option_map (λ text. string_bytes text) run.journal)) }
    ensures fault { IfErr result IsRunFault }
{
    let Ok(monitor) = Monitor::open(alloc, start) else {
        return Err(CommandFault::Memory);
    };
    run_over(rt, alloc, names, monitor, scripts, journal)
}

/// Runs scripts over a start file, each in a thread of its own, the first as session 0. Each begins with no variable
/// bound, and all share one monitor. What is printed is in the order of the scripts, whichever thread comes first. The
/// journal's text is made where it is asked for. It waits for the threads.
///
/// # Errors
/// `Load` where the start is refused. `Memory` where an allocation failed for the start, the office or a request, or,
/// where all threads were started, for what is printed. `Thread` where a thread couldn't be started, and no request was
/// refused memory.
pub fn run_threads<R: Threads + Wait + Sync>(
    rt: &R,
    alloc: Global,
    start: &[u8],
    scripts: &[&[u8]],
    journal: bool,
) -> Result<RunText, CommandFault>
    requires count { (0 < length scripts.now) × (length scripts.now ≤ MAX_SCRIPTS) }
    requires limit { All (λ script. length script.now ≤ SCRIPT_LIMIT) scripts.now }
    ensures ok { IfOk result
        (λ run. RunsInThreads start.now (map (λ script. script.now) scripts.now) journal run.output.items
        (option_map (λ text. string_bytes text) run.journal)) }
    ensures fault { IfErr result (λ fault. RefusesRun start.now fault) }
{
    let (names, start) = read_start(alloc, start)?.into_parts();
    let run = run_start(rt, alloc, &names, start, scripts, journal);
    drop(names);
    run
}
