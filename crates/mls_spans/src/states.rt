//! Which states are asked about.
ghost use Rattle.std.specs.Prelude.{◌≡◌, ◌≤◌, Some, length, IfErr, OnOk};
ghost use Rattle.mls_spans.specs.Asked.{state_before, state_after, first_state, is_up_to, meets};
ghost use Rattle.mls_spans.specs.Asked.{IsBehind, has_window, is_some_state};

use crate::span::Span;
use crate::window::Window;
use mls_replay::{QuestionFault, TextReplay};

/// The states that are asked about, by their numbers: state N is the one before entry N, and the last one is behind all
/// entries.
#[derive(Clone, Copy, Debug, PartialEq, Eq)]
pub struct States {
    /// From this one on.
    pub first: u64,
    /// Up to this one, it included.
    pub last: Option<u64>,
}

impl States {
    /// The state before an entry.
    pub fn at(number: u64) -> States
        ensures { result ≡ record { first = number; last = Some number } }
    {
        States {
            first: number,
            last: Some(number),
        }
    }

    /// The states from the one before an entry to the one after another, or from the first, or to the last.
    pub fn between(from: Option<u64>, to: Option<u64>) -> States
        ensures { result ≡ record { first = state_before from; last = state_after to } }
    {
        let first = match from {
            Some(number) => number,
            None => 0,
        };
        let last = match to {
            Some(number) if number < u64::MAX => Some(number + 1),
            _ => None,
        };
        States { first, last }
    }

    /// Whether a span has one of them that isn't too late.
    fn is_begun(&self, span: &Span) -> bool
        ensures { result ≡ is_up_to (first_state span.now.made) self.now.last }
    {
        match (span.made, self.last) {
            (Some(made), Some(last)) => made < last,
            _ => true,
        }
    }

    /// Whether a span has one of them.
    pub fn meet(&self, span: &Span) -> bool
        ensures { result ≡ meets self.now span.now }
    {
        let is_late = match span.ended {
            Some(ending) => self.first <= ending.number,
            None => true,
        };
        self.are_some() && self.is_begun(span) && is_late
    }

    /// Whether a span in which a get would be granted has one of them.
    pub(crate) fn have(&self, window: &Window) -> bool
        ensures { result ≡ has_window self.now window.now }
    {
        let is_begun = match (window.opened, self.last) {
            (Some(opened), Some(last)) => opened < last,
            _ => true,
        };
        let is_late = match window.closed {
            Some(closed) => self.first <= closed,
            None => true,
        };
        is_begun && is_late
    }

    /// Looks whether a replay's entries lead to the first of them.
    ///
    /// # Errors
    /// `AtMost` with the number of entries, where they don't.
    pub fn begin_in(&self, replay: &TextReplay) -> Result<(), QuestionFault>
        ensures ok { OnOk result (self.now.first ≤ length replay.now.entries) }
        ensures fault { IfErr result (λ fault. IsBehind self.now.first replay.now.entries fault) }
    {
        let many = replay.count();
        if self.first > many {
            return Err(QuestionFault::AtMost(many));
        }
        Ok(())
    }

    /// Whether there is one of them.
    pub fn are_some(&self) -> bool
        ensures { result ≡ is_some_state self.now }
    {
        match self.last {
            Some(last) => self.first <= last,
            None => true,
        }
    }
}
