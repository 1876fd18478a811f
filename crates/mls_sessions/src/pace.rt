//! How long a session naps.

use crate::limits::{NAP, SOON};

/// How long a session naps that comes too late at the gate: longer where its last nap was not long ago.
#[derive(Clone, Copy)]
pub struct Pace {
    /// How long its last nap was, in microseconds.
    micros: u64,
    /// How much it asked since.
    asks: u64,
}

impl Pace {
    /// That of a session that took no nap so far.
    pub(crate) fn new() -> Pace {
        Pace {
            micros: NAP,
            asks: SOON,
        }
    }

    /// Counts a turn in which so much is asked.
    pub(crate) fn begin(&mut self, asks: u64) {
        self.asks = self.asks.saturating_add(asks);
    }

    /// How long the next nap is, in microseconds, where none may be longer than that. It counts as taken.
    pub(crate) fn nap(&mut self, longest: u64) -> u64 {
        self.micros = if self.asks < SOON {
            self.micros.saturating_mul(4).min(longest)
        } else {
            (self.micros / 2).max(NAP)
        };
        self.asks = 0;
        self.micros
    }
}
