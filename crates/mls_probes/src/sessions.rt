//! A run of feeds, each in a thread of its own.
ghost use Rattle.std.specs.Prelude.{IfOk};
ghost use Rattle.mls_monitor.specs.Feeds.{AllAt};

use crate::keeper::{FEEDS, Keeper};
use crate::monitors::open_monitor;
use crate::verdict::show_run;
use mls_monitor::Monitor;
use mls_sessions::{Backoff, RunDone, RunFault, Stage, run_sessions};
use std::alloc::{AllocError, Global};
use std::io;
use std::sync::Wait;
use std::sync::atomic::AtomicU64;
use std::thread::Threads;

/// The feeds of a run, which have asked nothing.
#[tactic(auto, using(crate::proofs::Lists::at_snoc))]
fn make_feeds<'a>(alloc: Global, asked: &'a AtomicU64) -> Result<Vec<Keeper<'a>>, AllocError>
    ensures { IfOk result (λ v. AllAt (λ f. f.stage) Stage.Ready v.items) }
{
    let mut feeds = Vec::new(alloc);
    for number in 0..FEEDS as u32 {
        let feed = Keeper::new(alloc, number, asked)?;
        feeds.push(feed)?;
    }
    Ok(feeds)
}

/// Prints what a whole run left.
fn show_done(rt: &impl Print, run: &RunDone<Keeper<'_>>) -> io::Result<()> {
    print!(rt; "run_sessions: done, ")?;
    show_run(rt, &run.monitor, &run.feeds)
}

/// Prints why a run was refused, and what it left.
fn show_fault(rt: &impl Print, fault: &RunFault<Keeper<'_>>) -> io::Result<()> {
    print!(rt; "run_sessions: {}, ", fault.kind)?;
    show_run(rt, &fault.monitor, &fault.feeds)
}

/// Runs feeds over a monitor, and returns whether the run was refused.
fn run_over<R: Threads + Wait + Sync>(
    threads: &R,
    rt: &HostRuntime,
    monitor: Monitor,
    feeds: Vec<Keeper<'_>>,
) -> io::Result<bool>
    requires { AllAt (λ f. f.stage) Stage.Ready feeds.items }
{
    match run_sessions(threads, rt.alloc(), monitor, feeds, Backoff::standard()) {
        Ok(run) => {
            let shown = show_done(rt, &run);
            drop(run);
            shown?;
            Ok(false)
        }
        Err(fault) => {
            let shown = show_fault(rt, &fault);
            drop(fault);
            shown?;
            Ok(true)
        }
    }
}

/// Runs new feeds over a new monitor, and returns whether memory ran out.
fn run_anew<R: Threads + Wait + Sync>(
    threads: &R,
    rt: &HostRuntime,
    file: &[u8],
) -> io::Result<bool> {
    let asked = AtomicU64::new(0);
    let Ok(feeds) = make_feeds(rt.alloc(), &asked) else {
        println!(rt; "the feeds: out of memory")?;
        return Ok(true);
    };
    let Some(monitor) = open_monitor(rt, file) else {
        drop(feeds);
        println!(rt; "a monitor: out of memory")?;
        return Ok(true);
    };
    run_over(threads, rt, monitor, feeds)
}

/// Runs feeds over a monitor, and new ones over a new one where memory ran out.
pub fn ask_sessions<R: Threads + Wait + Sync>(
    threads: &R,
    rt: &HostRuntime,
    file: &[u8],
) -> io::Result<()> {
    if run_anew(threads, rt, file)? {
        run_anew(threads, rt, file)?;
    }
    Ok(())
}
