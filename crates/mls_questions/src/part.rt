//! The part of a journal that a report is about.
use mls_lines::Names;
use mls_monitor::{Entry, Start};
use mls_replay::Replay;
use mls_rules::{State, apply};
use mls_spans::{Span, States, entries_between, spans_of};
use std::alloc::{AllocError, Global};

/// The part of a journal that a report is about: some of the states that it leads through, and the entries between
/// them. The whole journal is such a part, from the state that its start opens with on.
#[derive(Drop)]
pub(crate) struct Part<'a> {
    replay: &'a Replay,
    states: States,
    /// What opens with the first of the states.
    start: Start,
    /// The last of them.
    state: State,
}

/// A start that opens with a state that a journal leads to, which is secure.
fn start_at(alloc: Global, state: &State) -> Result<Start, AllocError> {
    match Start::of_state(alloc, state.duplicate(alloc)?) {
        Ok(start) => Ok(start),
        Err(_) => Err(AllocError),
    }
}

/// The state that entries lead to from another.
fn state_behind(alloc: Global, first: &State, entries: &[Entry]) -> Result<State, AllocError> {
    let mut state = first.duplicate(alloc)?;
    for entry in entries {
        apply(&mut state, &entry.request)?;
    }
    Ok(state)
}

impl<'a> Part<'a> {
    /// The part of a journal, whose replay looks at the first of the states.
    ///
    /// # Errors
    /// `AllocError` where an allocation failed.
    pub(crate) fn of(
        alloc: Global,
        replay: &'a Replay,
        states: States,
    ) -> Result<Part<'a>, AllocError> {
        let start = start_at(alloc, replay.state())?;
        let entries = entries_between(replay.entries(), states);
        let state = state_behind(alloc, replay.state(), entries)?;
        Ok(Part {
            replay,
            states,
            start,
            state,
        })
    }

    /// The names of the start.
    pub(crate) fn names(&self) -> &'a Names {
        self.replay.names()
    }

    /// What opens with the first of the states.
    pub(crate) fn start(&self) -> &Start {
        &self.start
    }

    /// The start of the whole journal.
    pub(crate) fn journal_start(&self) -> &'a Start {
        self.replay.start()
    }

    /// The entries between the states.
    pub(crate) fn entries(&self) -> &'a [Entry] {
        entries_between(self.replay.entries(), self.states)
    }

    /// The last of the states.
    pub(crate) fn state(&self) -> &State {
        &self.state
    }

    /// How many entries the whole journal has.
    pub(crate) fn many(&self) -> u64 {
        self.replay.entries().len() as u64
    }

    /// Whether it has a state. It has none where the first one that is asked for is behind the last one.
    pub(crate) fn has_states(&self) -> bool {
        self.states.are_some()
    }

    /// The number of the last of the states.
    pub(crate) fn last(&self) -> u64 {
        self.states
            .first
            .saturating_add(self.entries().len() as u64)
    }

    /// The number of the first of the states.
    pub(crate) fn first(&self) -> u64 {
        self.states.first
    }

    /// The spans in which an access is held that have one of the states, each whole.
    ///
    /// # Errors
    /// `AllocError` where an allocation failed.
    pub(crate) fn spans(&self, alloc: Global) -> Result<Vec<Span>, AllocError> {
        let all = spans_of(alloc, self.replay.start(), self.replay.entries())?;
        let mut spans = Vec::new(alloc);
        for span in &all {
            if self.states.meet(span) {
                spans.push(*span)?;
            }
        }
        drop(all);
        Ok(spans)
    }
}
