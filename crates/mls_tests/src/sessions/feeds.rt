//! Runs of feeds, in threads.
use super::asker::Manner;
use super::runs::{Left, Plan, run};
use mls_sessions::{Backoff, MAX_SESSIONS, RunFaultKind};
use std::alloc::{AllocError, Global};
use std::process::Abort;
use std::sync::Wait;
use std::sync::atomic::AtomicBool;
use std::test::Fail;
use std::thread::Threads;

/// How many asks a session takes to the gate at most.
const AHEAD: usize = 64;

/// What is run, and how many entries that makes. Each feed is told the entries of its asks, in their order, and keeps
/// them.
const PLANS: [(Plan, usize); 6] = [
    // feeds that ask much
    (
        Plan {
            feeds: 4,
            each: 1000,
            last: 1000,
            manner: Manner::Single,
        },
        4000,
    ),
    // as many feeds as there can be
    (
        Plan {
            feeds: 64,
            each: 50,
            last: 50,
            manner: Manner::Single,
        },
        3200,
    ),
    // one that asks much beside feeds that ask nothing
    (
        Plan {
            feeds: 64,
            each: 0,
            last: 100_000,
            manner: Manner::Single,
        },
        100_000,
    ),
    // one that holds its ask back until the other was told its answer: their threads run side by side
    (
        Plan {
            feeds: 2,
            each: 1,
            last: 1,
            manner: Manner::Waits,
        },
        2,
    ),
    // a feed alone
    (
        Plan {
            feeds: 1,
            each: 0,
            last: 10,
            manner: Manner::Ahead,
        },
        10,
    ),
    // asks ahead, which fill no whole turn
    (
        Plan {
            feeds: 3,
            each: 100,
            last: 1,
            manner: Manner::Ahead,
        },
        201,
    ),
];

/// Asserts what a test sees of what a run left.
fn sees_left(rt: &impl Abort, seen: bool, left: &Left) {
    assert!(rt; seen, "{left:?}");
}

/// Whether a run had no fault, each of its feeds was told its own, and so many entries were made.
fn is_done(left: &Left, plan: &Plan, entries: usize) -> bool {
    left.fault.is_none()
        && left.feeds == plan.feeds
        && left.faithful == plan.feeds
        && left.entries == entries
}

#[test]
fn each_feed_is_told_its_own_entries_in_their_order(rt: HostRuntime) -> Result<(), Fail> {
    for (plan, entries) in &PLANS {
        let flag = AtomicBool::new(false);
        let left = run(&rt, rt.alloc(), plan, Backoff::standard(), &flag)?;
        sees_left(&rt, is_done(&left, plan, *entries), &left);
    }
    Ok(())
}

/// Four sessions and 64 that back off so come to their end: the first two plans.
fn all_end<R: Threads + Wait + Sync + Abort>(
    rt: &R,
    alloc: Global,
    backoff: Backoff,
) -> Result<(), AllocError> {
    for (plan, entries) in &PLANS[..2] {
        let flag = AtomicBool::new(false);
        let left = run(rt, alloc, plan, backoff, &flag)?;
        sees_left(rt, is_done(&left, plan, *entries), &left);
    }
    Ok(())
}

/// Sessions that look at a held gate never, once or often before they nap or sleep.
#[test]
fn waits_end_however_often_they_look(rt: HostRuntime) -> Result<(), Fail> {
    for looks in [0, 1, 10_000] {
        for naps in [0, 1] {
            let backoff = Backoff {
                looks,
                races: 0,
                naps,
            };
            all_end(&rt, rt.alloc(), backoff)?;
        }
    }
    all_end(&rt, rt.alloc(), Backoff::standard())?;
    Ok(())
}

#[test]
fn asks_ahead_are_answered_in_their_order_and_stand_together(rt: HostRuntime) -> Result<(), Fail> {
    let plan = Plan {
        feeds: 4,
        each: 1024,
        last: 1024,
        manner: Manner::Ahead,
    };
    let flag = AtomicBool::new(false);
    let left = run(&rt, rt.alloc(), &plan, Backoff::standard(), &flag)?;
    sees_left(&rt, is_done(&left, &plan, 4096), &left);
    // each asked as far ahead as it may, and what was asked in one turn stands together
    sees_left(&rt, left.ahead as usize == AHEAD, &left);
    sees_left(&rt, left.stretches <= 4096 / AHEAD, &left);
    Ok(())
}

#[test]
fn a_run_has_one_to_sixty_four_feeds(rt: HostRuntime) -> Result<(), Fail> {
    for feeds in &[0, MAX_SESSIONS as usize + 1] {
        let plan = Plan {
            feeds: *feeds,
            each: 1,
            last: 1,
            manner: Manner::Single,
        };
        let flag = AtomicBool::new(false);
        let left = run(&rt, rt.alloc(), &plan, Backoff::standard(), &flag)?;
        sees_left(&rt, left.fault == Some(RunFaultKind::BadCount), &left);
        sees_left(&rt, left.feeds == *feeds && left.entries == 0, &left);
    }
    Ok(())
}
