//! A feed that asks so often, and keeps which entries it is told.
ghost use Rattle.std.specs.Prelude.{◌≡◌, ◌<◌, ◌+◌};

use super::standard::{ANN, release};
use mls_requests::{Ask, Reply, Request};
use mls_sessions::{Answer, Feed, Stage};
use mls_tables::{Mode, ObjectId};
use std::alloc::Global;
use std::sync::atomic::{AtomicBool, Ordering};

/// How a feed asks.
#[derive(Clone, Copy, Debug, PartialEq, Eq)]
pub enum Manner {
    /// One ask after the other.
    Single,
    /// As far ahead as it may.
    Ahead,
    /// One after the other; it sets a flag once it was told an answer.
    Tells,
    /// One after the other, and nothing before the flag is set.
    Waits,
}

/// How often a feed looks whether the flag is set.
const LOOKS: u64 = 1_000_000_000;

/// Whether the flag is set, looked at again and again.
fn comes(flag: &AtomicBool) -> bool {
    for _ in 0..LOOKS {
        if flag.load(Ordering::SeqCst) {
            return true;
        }
    }
    false
}

/// What a feed asks while so many asks are left: no two of 65,536 in a row are the same.
pub fn asked(left: u64) -> Request {
    release(ANN, Mode::Read, ObjectId((left % 65_536) as u16))
}

/// The number of the entry that is told, where it is that of what was asked while so many asks were left: there are
/// four objects.
fn number_told(answer: &Answer, left: u64) -> Option<u64> {
    let Answer::Entry(entry) = answer else {
        return None;
    };
    let is_there = left % 65_536 < 4;
    let is_right = if is_there {
        entry.reply == Reply::Yes
    } else {
        entry.reply == Reply::Undefined
    };
    if is_right && entry.request == asked(left) {
        Some(entry.number)
    } else {
        None
    }
}

/// Asks about one object after the other, the highest first.
#[derive(Drop)]
pub struct Asker<'a> {
    manner: Manner,
    flag: &'a AtomicBool,
    left: u64,
    waiting: u16,
    pub stage: Stage,
    /// The most asks that waited for their answers.
    pub most: u16,
    /// The numbers of the entries of its asks.
    pub kept: Vec<u64>,
}

impl<'a> Asker<'a> {
    pub fn new(alloc: Global, manner: Manner, flag: &'a AtomicBool, asks: u64) -> Asker<'a>
        ensures { result.stage ≡ Stage.Ready }
    {
        Asker {
            manner,
            flag,
            left: asks,
            waiting: 0,
            stage: Stage::Ready,
            most: 0,
            kept: Vec::new(alloc),
        }
    }

    /// What it asks next.
    fn give(&mut self) -> Ask
        requires { 0 < self.old.left }
        ensures left { self.new.left + 1 ≡ self.old.left }
        ensures same { (self.new.waiting ≡ self.old.waiting) × (self.new.stage ≡ self.old.stage) }
    {
        self.left -= 1;
        self.most = self.most.max(self.waiting);
        Ask::Submit(asked(self.left))
    }
}

impl<'a> Feed for Asker<'a> {
    ghost asks_left = { λ f. f.left };

    ghost stands_at = { λ f. f.stage };

    ghost waits_for = { λ f. f.waiting };

    fn left(&self) -> u64 {
        self.left
    }

    fn stage(&self) -> Stage {
        self.stage
    }

    fn next(&mut self) -> Option<Ask> {
        if self.left == 0 || (matches!(self.manner, Manner::Waits) && !comes(self.flag)) {
            self.stage = Stage::Done;
            return None;
        }
        self.stage = Stage::Waiting;
        self.waiting = 1;
        Some(self.give())
    }

    fn ahead(&mut self) -> Option<Ask> {
        if !matches!(self.manner, Manner::Ahead) || self.left == 0 || self.waiting == u16::MAX {
            return None;
        }
        self.waiting += 1;
        Some(self.give())
    }

    fn told(&mut self, answer: &Answer) {
        let asks = self.left.wrapping_add(u64::from(self.waiting));
        if let Some(number) = number_told(answer, asks.wrapping_sub(1)) {
            // (a number for which there is no memory is missed at the end)
            let _ = self.kept.push(number);
        }
        if matches!(self.manner, Manner::Tells) {
            self.flag.store(true, Ordering::SeqCst);
        }
        if self.waiting > 1 {
            self.waiting -= 1;
        } else {
            self.stage = Stage::Ready;
        }
    }

    fn stopped(&mut self) {}
}
