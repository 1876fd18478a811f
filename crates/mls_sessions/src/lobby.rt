//! Where the sessions of an office wait that came too late.

use crate::backoff::Backoff;
use crate::limits::LONGEST;
use crate::pace::Pace;
use std::sync::Wait;
use std::sync::atomic::AtomicU64;
use std::time::Duration;

/// How the sessions of an office back off, and what they nap on: a word that never changes.
#[derive(Drop)]
pub struct Lobby {
    pub backoff: Backoff,
    /// How long they nap at most, in microseconds.
    longest: u64,
    resting: AtomicU64,
}

impl Lobby {
    /// Where so many sessions back off so.
    pub(crate) fn new(backoff: Backoff, count: u16) -> Lobby {
        Lobby {
            backoff,
            longest: LONGEST * u64::from(count),
            resting: AtomicU64::new(0),
        }
    }

    /// Naps at the session's pace, or until another leaves.
    pub(crate) fn nap<R: Wait>(&self, rt: &R, pace: &mut Pace) {
        let micros = pace.nap(self.longest);
        self.resting
            .park_timeout(rt, 0, Duration::from_micros(micros));
    }

    /// Wakes one that naps: a session needs the gate no more, and that one may be the next to take many turns.
    pub(crate) fn leave(&self) {
        self.resting.wake_one();
    }
}
