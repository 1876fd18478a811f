//! States read from their text.
ghost use Rattle.std.specs.Prelude.{◌≡◌, IsTrue, IfOk, IfErr, OnOk};
ghost use Rattle.mls_snapshots.specs.Reading.{IsOfStart, IsOver, IsTextOver, HasLabelsWithin};
ghost use Rattle.mls_snapshots.specs.States.{state_text};
ghost use Rattle.mls_state.specs.Properties.{IsSecure};
ghost use Rattle.mls_state.specs.State.{State as StateView, is_subject};

use crate::names::is_same_text;
use crate::read_fault::ReadStateFault;
use crate::rebuilding::rebuild;
use crate::state_comparing::is_over;
use crate::state_line::words_are_seen;
use crate::state_rows::StateRows;
use crate::state_writing::state_text;
use mls_lines::Names;
use mls_start::{Start, StateRefused};
use mls_state::State;
use std::alloc::{AllocError, Global};

/// The line, counted from 1, at which two texts begin to differ.
fn first_difference(one: &str, other: &str) -> u64 {
    let mut line: u64 = 1;
    for (a, b) in one.bytes().zip(other.bytes()) {
        if a != b {
            break;
        }
        if a == b'\n' {
            line = line.saturating_add(1);
        }
    }
    line
}

/// The state that the lines of a text say, if they say one; any other where they don't.
fn read_lines(alloc: Global, names: &Names, text: &str) -> Result<State, ReadStateFault>
    ensures state { (start v : StateView) → IsTrue (is_subject start 0) → IsTextOver names.now start v text.now
        → IfOk result (λ state. state ≡ v) }
    ensures accepted { (start v : StateView) → IsTrue (is_subject start 0) → IsTextOver names.now start v text.now
        → IfErr result (λ fault. fault ≡ ReadStateFault.Memory) }
{
    let rows = StateRows::read(alloc, names, text)?;
    let rebuilt = rebuild(alloc, names, &rows);
    drop(rows);
    match rebuilt {
        Ok(Some(state)) => Ok(state),
        Ok(None) => Err(ReadStateFault::Line(1)),
        Err(AllocError) => Err(ReadStateFault::Memory),
    }
}

/// Compares a text with that of a state.
///
/// # Errors
/// `Line` where they differ, and `Memory`.
fn compare_text(
    alloc: Global,
    names: &Names,
    state: &State,
    text: &str,
) -> Result<(), ReadStateFault>
    ensures text { OnOk result (state_text names.now state.now ≡ text.now) }
    ensures accepted { IfErr result
        (λ fault. state_text names.now state.now ≡ text.now → fault ≡ ReadStateFault.Memory) }
{
    let written = state_text(alloc, names, state)?;
    if !is_same_text(written.as_str(), text) {
        return Err(ReadStateFault::Line(first_difference(written.as_str(), text)));
    }
    Ok(())
}

/// The state whose text this is.
fn read_text(alloc: Global, names: &Names, text: &str) -> Result<State, ReadStateFault>
    ensures text { IfOk result (λ state. state_text names.now state ≡ text.now) }
    ensures state { (start v : StateView) → IsTrue (is_subject start 0) → IsTextOver names.now start v text.now
        → IfOk result (λ state. state ≡ v) }
    ensures accepted { (start v : StateView) → IsTrue (is_subject start 0) → IsTextOver names.now start v text.now
        → IfErr result (λ fault. fault ≡ ReadStateFault.Memory) }
{
    let state = read_lines(alloc, names, text)?;
    match compare_text(alloc, names, &state, text) {
        Ok(()) => Ok(state),
        Err(fault) => {
            drop(state);
            Err(fault)
        }
    }
}

/// The start that opens with a state.
///
/// # Errors
/// `NotSecure` where the state isn't secure, and `Memory`.
fn begin(alloc: Global, state: State) -> Result<Start, ReadStateFault>
    ensures state { IfOk result (λ begun. begun ≡ state) }
    ensures secure { OnOk result (IsSecure state) }
    ensures accepted { IfErr result (λ fault. IsSecure state → fault ≡ ReadStateFault.Memory) }
{
    match Start::of_state(alloc, state) {
        Ok(begun) => Ok(begun),
        Err(StateRefused::NotSecure) => Err(ReadStateFault::NotSecure),
        Err(StateRefused::Memory) => Err(ReadStateFault::Memory),
    }
}

/// Reads the text of a state, with the names of its start, and gives a start that opens with just that state: its
/// objects keep their numbers, and the next one gets the number that it would have got. It accepts what
/// [`state_text`] writes of a secure state of that start, and nothing else.
///
/// # Errors
/// - `Line` where the text isn't that of a state: the first line at which it differs, or that says nothing.
/// - `OtherStart` where no rules lead from the start to such a state: profile, bounds of labels, or what no rule
///   changes of subjects is not the start's, or a label is outside the bounds.
/// - `NotSecure` where the state isn't secure.
/// - `Memory` as soon as an allocation fails.
pub fn read_state(
    alloc: Global,
    names: &Names,
    start: &Start,
    bytes: &[u8],
) -> Result<Start, ReadStateFault>
    ensures text { IfOk result (λ begun. state_text names.now begun ≡ bytes.now) }
    ensures start { IfOk result (λ begun. IsOfStart start.now begun) }
    ensures within { IfOk result (λ begun. HasLabelsWithin begun) }
    ensures over { IfOk result (λ begun. IsOver start.now begun) }
    ensures secure { IfOk result (λ begun. IsSecure begun) }
    ensures reads { (v : StateView) → IsTextOver names.now start.now v bytes.now → IsSecure v
        → IfErr result (λ fault. fault ≡ ReadStateFault.Memory) }
{
    // the lines of rows are text, and the start has subject 0
    words_are_seen(names);
    let _ = start.subject_count();
    let Ok(text) = str::from_utf8(bytes) else {
        return Err(ReadStateFault::Line(1));
    };
    let state = read_text(alloc, names, text)?;
    let is = is_over(alloc, start, &state);
    match is {
        Ok(true) => begin(alloc, state),
        Ok(false) => {
            drop(state);
            Err(ReadStateFault::OtherStart)
        }
        Err(AllocError) => {
            drop(state);
            Err(ReadStateFault::Memory)
        }
    }
}
