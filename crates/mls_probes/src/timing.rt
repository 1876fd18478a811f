//! Threads that take turns at one monitor, through the gate or under a mutex, to be timed.
use crate::alone::by_calls;
use crate::turns::{Job, make_feeds, take_turns};
use mls_monitor::{Monitor, Start};
use mls_runs::standard_start;
use mls_sessions::{Backoff, run_sessions};
use std::alloc::{AllocError, Global};
use std::sync::{Mutex, Wait};
use std::thread::Threads;
use std::{env, io, thread};

/// A monitor over the standard start.
fn open(alloc: Global) -> Result<Monitor, AllocError> {
    let Ok(loaded) = standard_start(alloc) else {
        return Err(AllocError);
    };
    let (names, start) = loaded.into_parts();
    drop(names);
    let start: Start = start;
    Monitor::open(alloc, start).map_err(|_| AllocError)
}

/// Has so many threads do a job through the gate, and says how many entries that left.
fn by_gate<R: Threads + Wait + Sync>(
    rt: &R,
    alloc: Global,
    threads: u64,
    job: Job,
) -> Result<usize, AllocError> {
    let monitor = open(alloc)?;
    let feeds = make_feeds(alloc, threads, job)?;
    match run_sessions(rt, alloc, monitor, feeds, Backoff::standard()) {
        Ok(run) => {
            let count = run.monitor.entries().len();
            drop(run);
            Ok(count)
        }
        Err(fault) => {
            drop(fault);
            Err(AllocError)
        }
    }
}

/// Has so many threads do a job under a mutex.
fn share<R: Threads + Wait + Sync>(rt: &R, monitor: &Mutex<Monitor>, threads: u64, job: Job) {
    thread::scope(thread::scope_env(), rt, |scope| {
        for _ in 0..threads {
            if scope.spawn(move || take_turns(rt, monitor, job)).is_err() {
                take_turns(rt, monitor, job);
            }
        }
    });
}

/// Has so many threads do a job under a mutex, and says how many entries that left.
fn by_mutex<R: Threads + Wait + Sync>(
    rt: &R,
    alloc: Global,
    threads: u64,
    job: Job,
) -> Result<usize, AllocError> {
    let shared = Mutex::new(open(alloc)?);
    share(rt, &shared, threads, job);
    let monitor = shared.into_inner();
    let count = monitor.entries().len();
    drop(monitor);
    Ok(count)
}

/// The number that a word is, 0 where it is none.
fn number(words: &[String], place: usize) -> u64 {
    match words.get(place) {
        Some(word) => word.parse().unwrap_or(0),
        None => 0,
    }
}

/// Does the job that the words name: gate, mutex or alone, then how many threads, turns each, and rounds of work
/// between two turns; for the gate also how many threads look beside them, and how often each. Prints how many entries
/// that left.
pub fn time_turns<R: Threads + Wait + Sync>(threads: &R, rt: &HostRuntime) -> io::Result<()> {
    let words = env::args(rt)?.collect::<Vec<String>>(rt.alloc())?;
    let job = Job {
        turns: number(&words, 3),
        rounds: number(&words, 4),
        lookers: number(&words, 5),
        looks: number(&words, 6),
    };
    let count = number(&words, 2);
    let is_gate = words.get(1).is_some_and(|word| word.as_str() == "gate");
    let is_alone = words.get(1).is_some_and(|word| word.as_str() == "alone");
    drop(words);
    let entries = if is_alone {
        by_calls(threads, rt.alloc(), open(rt.alloc())?, job)?
    } else if is_gate {
        by_gate(threads, rt.alloc(), count, job)?
    } else {
        by_mutex(threads, rt.alloc(), count, job)?
    };
    println!(rt; "{entries} entries")
}
