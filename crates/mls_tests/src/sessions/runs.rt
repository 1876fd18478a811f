//! Runs of feeds, in threads, and what they leave.
ghost use Rattle.std.specs.Prelude.{◌≡◌, IfOk};
ghost use Rattle.mls_monitor.specs.Feeds.{AllAt};

use super::asker::{Asker, Manner, asked};
use crate::standard::standard_monitor;
use mls_monitor::Monitor;
use mls_requests::Entry;
use mls_sessions::{Backoff, RunFaultKind, Stage, run_sessions};
use std::alloc::{AllocError, Global};
use std::sync::Wait;
use std::sync::atomic::AtomicBool;
use std::thread::Threads;

/// How many feeds run, how often each asks, how often the last does, and how: where they wait, the first waits for
/// another's answer.
#[derive(Clone, Copy)]
pub struct Plan {
    pub feeds: usize,
    pub each: u64,
    pub last: u64,
    pub manner: Manner,
}

impl Plan {
    /// How often feed k asks.
    fn asks(&self, k: usize) -> u64 {
        if k.saturating_add(1) == self.feeds {
            self.last
        } else {
            self.each
        }
    }

    /// How feed k asks.
    fn manner_of(&self, k: usize) -> Manner {
        if k > 0 && matches!(self.manner, Manner::Waits) {
            Manner::Tells
        } else {
            self.manner
        }
    }
}

/// What a run left.
#[derive(Clone, Copy, Debug, PartialEq, Eq)]
pub struct Left {
    pub fault: Option<RunFaultKind>,
    pub feeds: usize,
    pub entries: usize,
    /// How many feeds, from the first on, kept just the entries of their sessions, as they had asked for them.
    pub faithful: usize,
    /// The fewest asks that a feed had waiting at once, where it had most.
    pub ahead: u16,
    /// How many stretches of the journal are of one session each.
    pub stretches: usize,
}

/// The feeds of a plan, which have asked nothing.
#[tactic(auto, using(crate::proofs::Lists::at_snoc))]
fn make_feeds<'a>(
    alloc: Global,
    plan: &Plan,
    flag: &'a AtomicBool,
) -> Result<Vec<Asker<'a>>, AllocError>
    ensures { IfOk result (λ v. AllAt (λ f. f.stage) Stage.Ready v.items) }
{
    let mut all = Vec::new(alloc);
    for k in 0..plan.feeds {
        all.push(Asker::new(alloc, plan.manner_of(k), flag, plan.asks(k)))?;
    }
    Ok(all)
}

/// Whether these are the numbers of a session's entries in a journal, each once and in their order, and the entries
/// those of so many requests, all of them in theirs.
fn are_of_session(kept: &[u64], session: usize, journal: &[Entry], asks: u64) -> bool {
    let mut own = 0usize;
    let mut left = asks;
    for entry in journal {
        if entry.session as usize == session {
            left = left.wrapping_sub(1);
            if kept.get(own) != Some(&entry.number) || entry.request != asked(left) {
                return false;
            }
            own = own.wrapping_add(1);
        }
    }
    own == kept.len() && left == 0
}

/// How many feeds, from the first on, kept just the entries of their sessions.
fn count_faithful(feeds: &[Asker<'_>], journal: &[Entry], plan: &Plan) -> usize {
    let mut count = 0usize;
    for feed in feeds {
        if !are_of_session(&feed.kept, count, journal, plan.asks(count)) {
            return count;
        }
        count = count.wrapping_add(1);
    }
    count
}

/// The fewest asks that a feed had waiting at once, where it had most.
fn least_ahead(feeds: &[Asker<'_>]) -> u16 {
    let mut least = u16::MAX;
    for feed in feeds {
        least = least.min(feed.most);
    }
    least
}

/// How many stretches of a journal are of one session each.
fn count_stretches(journal: &[Entry]) -> usize {
    let mut count = 0usize;
    let mut last = None;
    for entry in journal {
        if last != Some(entry.session) {
            count = count.wrapping_add(1);
        }
        last = Some(entry.session);
    }
    count
}

/// What a run left.
fn left_by(
    fault: Option<RunFaultKind>,
    journal: &[Entry],
    feeds: &[Asker<'_>],
    plan: &Plan,
) -> Left {
    Left {
        fault,
        feeds: feeds.len(),
        entries: journal.len(),
        faithful: count_faithful(feeds, journal, plan),
        ahead: least_ahead(feeds),
        stretches: count_stretches(journal),
    }
}

/// Runs feeds over a monitor, in sessions that back off so.
fn run_over<R: Threads + Wait + Sync>(
    rt: &R,
    alloc: Global,
    monitor: Monitor,
    feeds: Vec<Asker<'_>>,
    plan: &Plan,
    backoff: Backoff,
) -> Left
    requires { AllAt (λ f. f.stage) Stage.Ready feeds.items }
{
    match run_sessions(rt, alloc, monitor, feeds, backoff) {
        Ok(run) => {
            let left = left_by(None, run.monitor.entries(), &run.feeds, plan);
            drop(run);
            left
        }
        Err(fault) => {
            let left = left_by(
                Some(fault.kind),
                fault.monitor.entries(),
                &fault.feeds,
                plan,
            );
            drop(fault);
            left
        }
    }
}

/// Runs the feeds of a plan over a standard monitor, in sessions that back off so.
pub fn run<R: Threads + Wait + Sync>(
    rt: &R,
    alloc: Global,
    plan: &Plan,
    backoff: Backoff,
    flag: &AtomicBool,
) -> Result<Left, AllocError> {
    let feeds = make_feeds(alloc, plan, flag)?;
    match standard_monitor(alloc) {
        Ok(monitor) => Ok(run_over(rt, alloc, monitor, feeds, plan, backoff)),
        Err(error) => {
            drop(feeds);
            Err(error)
        }
    }
}
