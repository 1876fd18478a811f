//! A secure start.
ghost use Rattle.std.specs.Prelude.{◌≡◌, ℕ, ◌≤◌, None, nat_lt, IfOk, OnOk, IfErr};
ghost use Rattle.std.specs.FinSet as set;
ghost use Rattle.mls_tables.specs.declared.limits.TheConstants.{MAX_SUBJECTS, MAX_OBJECTS};
ghost use Rattle.mls_state.specs.State.{is_subject};
ghost use Rattle.mls_state.specs.Properties.{IsSecure};
ghost use Rattle.mls_start.specs.Rows.{opening, AreCounts};
ghost use Rattle.mls_start.specs.StartFaults.{start_fault};

use crate::counting::count_triples;
use crate::counts::Counts;
use crate::source::Source;
use crate::start_builder::StartBuilder;
use mls_labels::Bounds;
use mls_state::{State, is_secure};
use mls_tree::Profile;
use std::alloc::{AllocError, Allocator, Global};
use std::marker::Model;
use thiserror::Error;

/// What a monitor starts from: subjects with their labels, a tree of objects with theirs, the matrix and the current
/// accesses. It is seen as the state that it opens with, which is secure, always.
#[derive(Drop)]
pub struct Start<A: Allocator = Global> {
    source: Source<A>,
    counts: Counts,
}

impl<A: Allocator> Model for Start<A> {
    ghost use Rattle.mls_state.specs.State.{State, state_code};
    ghost use Rattle.mls_start.specs.Sources.{opens_with, IsFaultless, HasCounts};

    ghost Value = { State };

    ghost coded = { state_code };

    ghost view = { λ a. opens_with a.source };

    ghost invariant = { λ a. IsFaultless a.source × HasCounts (opens_with a.source) a.counts };
}

/// Why no start was made of a state.
#[derive(Clone, Copy, Debug, PartialEq, Eq, Error)]
pub enum StateRefused {
    /// The state isn't secure.
    #[error("the state is not secure")]
    NotSecure,
    /// An allocation failed.
    #[error("out of memory")]
    Memory,
}

impl From<AllocError> for StateRefused {
    ghost use Rattle.std.specs.Prelude.{◌≡◌};
    ghost use Rattle.mls_start.specs.declared.start.StateRefused.TheVariants.{Memory};

    ghost from_gives = { λ _ refused. refused ≡ Memory };

    fn from(_: AllocError) -> StateRefused {
        StateRefused::Memory
    }
}

impl<A: Allocator> Start<A> {
    /// The start of rows with which nothing is wrong, and which have so many triples.
    #[tactic(auto, unfolding(crate::specs::Rows::opening))]
    pub(crate) fn of(rows: StartBuilder<A>, counts: Counts) -> Start<A>
        requires faultless { start_fault rows ≡ None }
        requires counts { AreCounts rows counts }
        ensures { result ≡ opening rows }
    {
        Start {
            source: Source::Rows(rows),
            counts,
        }
    }

    /// How many subjects there are: 1 to `MAX_SUBJECTS`. Their numbers are those below it. The start opens secure,
    /// always.
    #[tactic(auto, using(crate::proofs::Opening::subject_opening))]
    pub fn subject_count(&self) -> u16
        ensures count { (s : ℕ) → is_subject self.now s ≡ nat_lt s result }
        ensures least { 1 ≤ result }
        ensures most { result ≤ MAX_SUBJECTS }
        ensures secure { IsSecure self.now }
    {
        match &self.source {
            Source::Rows(rows) => rows.subject_count(),
            Source::State(state) => state.subject_count(),
        }
    }

    /// The number that the next object will have, at most `MAX_OBJECTS`: of a start that was built, how many objects
    /// there are, with the root.
    #[tactic(auto, unfolding(crate::specs::Rows::opening))]
    pub fn object_count(&self) -> u16
        ensures count { result ≡ self.now.next }
        ensures most { result ≤ MAX_OBJECTS }
    {
        match &self.source {
            Source::Rows(rows) => rows.object_count(),
            Source::State(state) => state.next(),
        }
    }

    /// How many triples the matrix permits.
    pub fn cell_count(&self) -> usize
        ensures { result ≡ set.len self.now.matrix }
    {
        self.counts.cells
    }

    /// How many current accesses the start opens with.
    pub fn access_count(&self) -> usize
        ensures { result ≡ set.len self.now.accesses }
    {
        self.counts.accesses
    }

    /// Whether object numbers are used again.
    #[tactic(auto, unfolding(crate::specs::Rows::opening))]
    pub fn profile(&self) -> Profile
        ensures { result ≡ self.now.profile }
    {
        match &self.source {
            Source::Rows(rows) => rows.profile(),
            Source::State(state) => state.profile(),
        }
    }

    /// The bounds of the security labels.
    #[tactic(auto, unfolding(crate::specs::Rows::opening))]
    pub fn security(&self) -> Bounds
        ensures { result ≡ self.now.security }
    {
        match &self.source {
            Source::Rows(rows) => rows.security(),
            Source::State(state) => state.security(),
        }
    }

    /// The bounds of the integrity labels.
    #[tactic(auto, unfolding(crate::specs::Rows::opening))]
    pub fn integrity(&self) -> Bounds
        ensures { result ≡ self.now.integrity }
    {
        match &self.source {
            Source::Rows(rows) => rows.integrity(),
            Source::State(state) => state.integrity(),
        }
    }
}

impl<A: Allocator + Clone> Start<A> {
    /// The state that a monitor opens with. It is secure, and has just the accesses that the builder was given.
    ///
    /// # Errors
    /// `AllocError` where an allocation failed.
    pub fn opening(&self, alloc: A) -> Result<State<A>, AllocError>
        ensures opening { IfOk result (λ state. state ≡ self.now) }
        ensures secure { IsSecure self.now }
    {
        // that it opens secure
        let _ = self.subject_count();
        match &self.source {
            Source::Rows(rows) => rows.opening(alloc),
            Source::State(state) => state.duplicate(alloc),
        }
    }

    /// A start that opens with a state, if that is secure: its objects keep their numbers. Room for the state's triples
    /// is allocated, and given back.
    ///
    /// # Errors
    /// The state is given up.
    /// - `NotSecure` where the state isn't secure.
    /// - `Memory` where it is, and an allocation failed.
    pub fn of_state(alloc: A, state: State<A>) -> Result<Start<A>, StateRefused>
        ensures ok { IfOk result (λ start. start ≡ state) }
        ensures secure { OnOk result (IsSecure state) }
        ensures refused { IfErr result (λ fault. fault ≡ StateRefused.NotSecure → IsSecure state → ⊥) }
    {
        if !is_secure(&state) {
            return Err(StateRefused::NotSecure);
        }
        let counts = count_triples(&alloc, &state)?;
        Ok(Start {
            source: Source::State(state),
            counts,
        })
    }
}
