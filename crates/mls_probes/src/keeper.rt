//! A feed that makes objects, and keeps the entries that it is told.
ghost use Rattle.std.specs.Prelude.{◌≡◌, ◌<◌, ◌+◌, IfOk};

use crate::monitors::request;
use mls_requests::{Ask, Entry, Reply};
use mls_sessions::{Answer, Feed, Stage};
use std::alloc::{AllocError, Global};
use std::sync::atomic::{AtomicU64, Ordering};

/// How many feeds a run has.
pub const FEEDS: u64 = 2;

/// How often each asks.
const ASKS: u64 = 3;

/// How often a feed looks at most whether all are asked.
const LOOKS: u32 = 10_000_000;

/// Counts one more feed that is asked, and looks until all are, or for long: where a thread can't be started one never
/// is.
fn wait_for_all(asked: &AtomicU64) {
    asked.fetch_add(1, Ordering::SeqCst);
    for _ in 0..LOOKS {
        if asked.load(Ordering::SeqCst) >= FEEDS {
            return;
        }
    }
}

/// Asks for one object after the other, one feed of two ahead. It holds its first ask back until all feeds of the run
/// are asked.
#[derive(Drop)]
pub struct Keeper<'a> {
    /// Its place in the run.
    pub number: u32,
    asked: &'a AtomicU64,
    left: u64,
    waiting: u16,
    pub stage: Stage,
    /// How often it was told that it is stopped.
    pub stops: u32,
    /// The numbers and replies of the entries of its asks.
    pub kept: Vec<(u64, Reply)>,
}

impl<'a> Keeper<'a> {
    /// A feed with the room for what it is told.
    ///
    /// # Errors
    /// `AllocError` where the allocation of that failed.
    pub fn new(alloc: Global, number: u32, asked: &'a AtomicU64) -> Result<Keeper<'a>, AllocError>
        ensures { IfOk result (λ f. f.stage ≡ Stage.Ready) }
    {
        let kept = Vec::with_capacity(alloc, ASKS as usize)?;
        Ok(Keeper {
            number,
            asked,
            left: ASKS,
            waiting: 0,
            stage: Stage::Ready,
            stops: 0,
            kept,
        })
    }

    /// What it asks next.
    fn give(&mut self) -> Ask
        requires { 0 < self.old.left }
        ensures left { self.new.left + 1 ≡ self.old.left }
        ensures same { (self.new.waiting ≡ self.old.waiting) × (self.new.stage ≡ self.old.stage) }
    {
        self.left -= 1;
        Ask::Submit(request(true))
    }

    /// Keeps what an entry says, where it is of its session and of what it asked.
    fn keep(&mut self, entry: &Entry)
        ensures left { self.new.left ≡ self.old.left }
        ensures same { (self.new.waiting ≡ self.old.waiting) × (self.new.stage ≡ self.old.stage) }
    {
        if entry.session == self.number && entry.request == request(true) {
            // (there is room, and what isn't kept is missed by whoever compares)
            let _ = self.kept.push((entry.number, entry.reply));
        }
    }
}

impl<'a> Feed for Keeper<'a> {
    ghost asks_left = { λ f. f.left };

    ghost stands_at = { λ f. f.stage };

    ghost waits_for = { λ f. f.waiting };

    fn left(&self) -> u64 {
        self.left
    }

    fn stage(&self) -> Stage {
        self.stage
    }

    fn next(&mut self) -> Option<Ask> {
        if self.left == ASKS {
            wait_for_all(self.asked);
        }
        if self.left == 0 {
            self.stage = Stage::Done;
            return None;
        }
        self.stage = Stage::Waiting;
        self.waiting = 1;
        Some(self.give())
    }

    fn ahead(&mut self) -> Option<Ask> {
        if self.number == 0 || self.left == 0 || self.waiting == u16::MAX {
            return None;
        }
        self.waiting += 1;
        Some(self.give())
    }

    fn told(&mut self, answer: &Answer) {
        if let Answer::Entry(entry) = answer {
            self.keep(entry);
        }
        if self.waiting > 1 {
            self.waiting -= 1;
        } else {
            self.stage = Stage::Ready;
        }
    }

    fn stopped(&mut self) {
        self.stops = self.stops.saturating_add(1);
    }
}
