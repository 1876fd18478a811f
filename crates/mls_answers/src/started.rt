//! Start files of states.
ghost use Rattle.std.specs.Prelude.{◌≡◌, ◌≤◌, IfOk, IfErr, string_bytes, string_len};
ghost use Rattle.mls_answers.specs.Starts.{RefusesStart};
ghost use Rattle.mls_replay.specs.declared.checking.TheConstants.{START_LIMIT};
ghost use Rattle.mls_seen.specs.Files.{SeesThat};
ghost use Rattle.mls_snapshots.specs.Starts.{IsStartBy};

use crate::snapshot_fault::SnapshotFault;
use mls_lines::Names;
use mls_replay::{CommandFault, QuestionFault, START_LIMIT};
use mls_seen::Seen;
use mls_snapshots::{StateStart, StateStartFault, start_of_state};
use mls_state::State;
use std::alloc::Global;

/// The start file of a state by these names, and the order of its objects.
#[tactic(auto, using(crate::proofs::Starts::long_is))]
pub(crate) fn start_of(
    alloc: Global,
    names: &Names,
    state: &State,
) -> Result<StateStart, SnapshotFault>
    ensures ok { IfOk result
        (λ made. IsStartBy names.now state.now made.order.items (string_bytes made.text)) }
    ensures few { IfOk result (λ made. string_len made.text ≤ START_LIMIT) }
    ensures fault { IfErr result (λ fault. RefusesStart names.now state.now fault) }
{
    match start_of_state(alloc, names, state) {
        Ok(made) => {
            if made.text.len() > START_LIMIT {
                return Err(SnapshotFault::TooLong);
            }
            Ok(made)
        }
        Err(StateStartFault::Memory) => Err(SnapshotFault::Question(QuestionFault::Files(
            CommandFault::Memory,
        ))),
        Err(StateStartFault::Differs) => Err(SnapshotFault::Differs),
    }
}

/// The start file of the state that is seen, and the order of its objects.
fn start_seen(alloc: Global, seen: &Seen) -> Result<StateStart, SnapshotFault>
    ensures ok { IfOk result
        (λ made. IsStartBy seen.now.names seen.now.state made.order.items (string_bytes made.text)) }
    ensures few { IfOk result (λ made. string_len made.text ≤ START_LIMIT) }
    ensures fault { IfErr result (λ fault. RefusesStart seen.now.names seen.now.state fault) }
{
    start_of(alloc, seen.names(), seen.state())
}

/// A start file of the state that is seen, of at most [`START_LIMIT`] bytes, as [`start_of_state`] has it, with the
/// order of the state's objects, whose places are their new numbers.
///
/// # Errors
/// - `Question` where an allocation failed.
/// - `TooLong` where the start file would be longer.
/// - `Differs` where what was written doesn't open with the state. No state is known for which this happens.
pub fn start_file(alloc: Global, seen: &Seen) -> Result<StateStart, SnapshotFault>
    ensures ok { IfOk result (λ made. SeesThat seen.now.files seen.now.at
        (λ r. IsStartBy r.names r.state made.order.items (string_bytes made.text))) }
    ensures few { IfOk result (λ made. string_len made.text ≤ START_LIMIT) }
    ensures fault { IfErr result (λ fault. SeesThat seen.now.files seen.now.at
        (λ r. RefusesStart r.names r.state fault)) }
{
    // that it is of the files
    let _ = seen.names();
    start_seen(alloc, seen)
}
