//! The start of a journal without the permissions that were never granted.
ghost use Rattle.std.specs.Prelude.{◌≡◌, ◌≤◌, not, ◌&&◌, IfErr, IfOk, string_bytes, string_len};
ghost use Rattle.std.specs.FinSet as set;
ghost use Rattle.mls_answers.specs.Starts.{RefusesStart};
ghost use Rattle.mls_answers.specs.Tightening.{IsTightStart, IsTightened, RefusesTight, RefusesTightFrom};
ghost use Rattle.mls_answers.specs.Tightening.{Tightens, TightensFrom, unused_seen};
ghost use Rattle.mls_replay.specs.declared.checking.TheConstants.{START_LIMIT};
ghost use Rattle.mls_replay.specs.declared.command.CommandFault.TheVariants.{Memory};
ghost use Rattle.mls_replay.specs.declared.question_fault.QuestionFault.TheVariants.{Files};
ghost use Rattle.mls_seen.specs.Histories.{ReplaysThat};
ghost use Rattle.mls_snapshots.specs.Starts.{IsStartBy};
ghost use Rattle.mls_spans.specs.Listings.{RefusesNames};
ghost use Rattle.mls_tables.specs.Triples.{Triple, is_triple};

use crate::snapshot_fault::SnapshotFault;
use crate::started::start_of;
use mls_monitor::Start;
use mls_replay::{QuestionFault, TextReplay};
use mls_seen::TextHistory;
use mls_snapshots::StateStart;
use mls_spans::{Choice, States, Usage, Words, choose, chosen_usages, unused_of};
use mls_state::State;
use mls_tables::{Mode, ObjectId, SubjectId};
use std::alloc::{AllocError, Global};

/// Leaves a cell out of the matrix of a state, unless that has an access of it.
fn leave_out(state: &mut State, access: (SubjectId, ObjectId, Mode))
    ensures rest { state.new ≡ record state.old { matrix = state.new.matrix } }
    ensures cells { (t : Triple) → set.contains state.new.matrix t ≡ (set.contains state.old.matrix t
        && not (is_triple t access && not (set.contains state.old.accesses t))) }
{
    // that triples name known subjects and active objects
    state.agrees();
    let (s, o, x) = access;
    if !state.is_subject(s) {
        return;
    }
    if !state.is_active(o) {
        return;
    }
    if state.has_access(s, o, x) {
        return;
    }
    state.rescind(s, o, x);
}

/// Leaves permissions out of a state, but for those that it has accesses of.
fn tighten(state: &mut State, unused: &[Usage])
    ensures { IsTightened unused.now state.old state.new }
{
    for usage in unused {
        leave_out(state, usage.access);
    }
}

/// The state that a start opens with, without these permissions.
fn tight_state(alloc: Global, start: &Start, unused: &[Usage]) -> Result<State, AllocError>
    ensures { IfOk result (λ state. IsTightened unused.now start.now state) }
{
    let mut state = start.opening(alloc)?;
    tighten(&mut state, unused);
    Ok(state)
}

/// The permissions of some states of a replay that are asked for and were never granted.
fn unused_in(
    alloc: Global,
    replay: &TextReplay,
    choice: &Choice,
    states: States,
) -> Result<Vec<Usage>, AllocError>
    ensures { IfOk result (λ unused. unused.items ≡ unused_seen replay.now choice.now states) }
{
    let usages = chosen_usages(alloc, replay, choice, states)?;
    let unused = unused_of(alloc, &usages);
    drop(usages);
    unused
}

/// The state that the start of a replay opens with, without the permissions of some states that are asked for and were
/// never granted.
fn tight_of(
    alloc: Global,
    replay: &TextReplay,
    choice: &Choice,
    states: States,
) -> Result<State, AllocError>
    ensures { IfOk result
        (λ state. IsTightened (unused_seen replay.now choice.now states) replay.now.start state) }
{
    let unused = unused_in(alloc, replay, choice, states)?;
    let state = tight_state(alloc, replay.start(), &unused);
    drop(unused);
    state
}

/// The same, where want of memory is why a question isn't answered.
fn tight_chosen(
    alloc: Global,
    replay: &TextReplay,
    choice: &Choice,
    states: States,
) -> Result<State, QuestionFault>
    ensures ok { IfOk result
        (λ state. IsTightened (unused_seen replay.now choice.now states) replay.now.start state) }
    ensures fault { IfErr result (λ fault. fault ≡ Files Memory) }
{
    Ok(tight_of(alloc, replay, choice, states)?)
}

/// The same, of the permissions that a filter asks for.
#[tactic(auto, using(crate::proofs::Tight::tight_start, crate::proofs::Tight::refuses_memory))]
fn tight_by(
    alloc: Global,
    replay: &TextReplay,
    states: States,
    words: &Words<'_>,
) -> Result<State, QuestionFault>
    ensures ok { IfOk result (λ state. IsTightStart replay.now states words.now state) }
    ensures fault { IfErr result (λ fault. RefusesNames replay.now.names words.now fault) }
{
    match choose(replay.names(), words) {
        Ok(choice) => tight_chosen(alloc, replay, &choice, states),
        Err(fault) => Err(fault),
    }
}

/// The start file of a state by the names of a replay.
fn file_of(alloc: Global, replay: &TextReplay, state: State) -> Result<StateStart, SnapshotFault>
    ensures ok { IfOk result
        (λ made. IsStartBy replay.now.names state made.order.items (string_bytes made.text)) }
    ensures few { IfOk result (λ made. string_len made.text ≤ START_LIMIT) }
    ensures fault { IfErr result (λ fault. RefusesStart replay.now.names state fault) }
{
    let made = start_of(alloc, replay.names(), &state);
    drop(state);
    made
}

/// The start file of a replay, without the permissions of some states that a filter asks for and that were never
/// granted.
#[tactic(auto, using(crate::proofs::Tight::tight_tells, crate::proofs::Tight::tight_refused))]
fn tight_file(
    alloc: Global,
    replay: &TextReplay,
    states: States,
    words: &Words<'_>,
) -> Result<StateStart, SnapshotFault>
    ensures ok { IfOk result (λ made. Tightens replay.now states words.now made.order.items (string_bytes made.text)) }
    ensures few { IfOk result (λ made. string_len made.text ≤ START_LIMIT) }
    ensures fault { IfErr result (λ fault. RefusesTight replay.now states words.now fault) }
{
    match tight_by(alloc, replay, states, words) {
        Ok(state) => file_of(alloc, replay, state),
        Err(fault) => Err(SnapshotFault::Question(fault)),
    }
}

/// A start file that opens as the start of a history does, without the permissions that a filter asks for and that were
/// never granted in the states from the one on that the history looks at, up to another, where one is told: those that
/// [`usage_of`](crate::usage_of) lists as never granted. A permission stays that the start opens with an access of; all
/// else is as in the start. Of the filter the subject, the object and the mode count, not the states.
///
/// # Errors
/// - `Question` where the filter's word for a subject names none, else where that for an object names none; or an
///   allocation failed.
/// - `TooLong` where the start file would be longer than [`START_LIMIT`](mls_replay::START_LIMIT).
/// - `Differs` where what was written doesn't open with the state. No state is known for which this happens.
pub fn tightened(
    alloc: Global,
    history: &TextHistory,
    last: Option<u64>,
    words: &Words<'_>,
) -> Result<StateStart, SnapshotFault>
    ensures ok { IfOk result (λ made. ReplaysThat history.now.files history.now.at
        (λ r. TightensFrom r history.now.at last words.now made.order.items (string_bytes made.text))) }
    ensures few { IfOk result (λ made. string_len made.text ≤ START_LIMIT) }
    ensures fault { IfErr result (λ fault. ReplaysThat history.now.files history.now.at
        (λ r. RefusesTightFrom r history.now.at last words.now fault)) }
{
    let first = history.number();
    let states = States { first, last };
    tight_file(alloc, history.replay(), states, words)
}
