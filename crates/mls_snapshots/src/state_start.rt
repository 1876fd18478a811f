//! A start file of a state.
ghost use Rattle.std.specs.Prelude.{◌≤◌, IsTrue, IfOk, length, string_bytes};
ghost use Rattle.mls_tables.specs.declared.limits.TheConstants.{MAX_OBJECTS};
ghost use Rattle.mls_snapshots.specs.Starts.{IsStartBy};

use crate::order::object_order;
use crate::same::is_like;
use crate::start_text::start_text;
use mls_lines::Names;
use mls_start_file::{LoadFault, read_start};
use mls_state::State;
use mls_tables::ObjectId;
use std::alloc::{AllocError, Global};
use thiserror::Error;

/// A start file of a state: its text, and the state's active objects in the order of their new numbers.
#[derive(Drop)]
pub struct StateStart {
    pub text: String,
    pub order: Vec<ObjectId>,
}

/// Why there is no start file of a state.
#[derive(Clone, Copy, Debug, PartialEq, Eq, Error)]
pub enum StateStartFault {
    /// An allocation failed.
    #[error("out of memory")]
    Memory,
    /// What was written doesn't open with the state. No state is known for which this happens.
    #[error("the start file differs from the state")]
    Differs,
}

impl From<AllocError> for StateStartFault {
    ghost use Rattle.std.specs.Prelude.{◌≡◌};
    ghost use Rattle.mls_snapshots.specs.declared.state_start.StateStartFault.TheVariants.{Memory};

    ghost from_gives = { λ _ fault. fault ≡ Memory };

    fn from(_: AllocError) -> StateStartFault {
        StateStartFault::Memory
    }
}

/// Whether a text opens with a state and its names, but that its objects are numbered by an order.
fn opens_alike(
    alloc: Global,
    names: &Names,
    state: &State,
    order: &[ObjectId],
    text: &str,
) -> Result<bool, AllocError>
    ensures { IfOk result (λ alike. IsTrue alike → IsStartBy names.now state.now order.now text.now) }
{
    match read_start(alloc, text.as_bytes()) {
        Ok(loaded) => {
            let alike = is_like(alloc, names, state, order, &loaded);
            drop(loaded);
            alike
        }
        Err(LoadFault::Memory) => Err(AllocError),
        Err(_) => Ok(false),
    }
}

/// A start file that opens with a state and the names of its start, of whatever length, with the same subjects and
/// schemes. Its objects are numbered anew: parents before their children, and of those whose parents are named the one
/// of the least number next. They have the names that the start has for their numbers; one without has `o` and its
/// number, or where that is taken the next number whose name is free. What is written is read back and compared with
/// the state before it is given.
///
/// # Errors
/// - `Memory` where an allocation failed.
/// - `Differs` where what was written doesn't open with the state. No state is known for which this happens.
pub fn start_of_state(
    alloc: Global,
    names: &Names,
    state: &State,
) -> Result<StateStart, StateStartFault>
    ensures start { IfOk result
        (λ made. IsStartBy names.now state.now made.order.items (string_bytes made.text)) }
    ensures few { IfOk result (λ made. length made.order.items ≤ MAX_OBJECTS) }
{
    let order = object_order(alloc, state)?;
    let text = start_text(alloc, names, state, &order)?;
    if !opens_alike(alloc, names, state, &order, text.as_str())? {
        return Err(StateStartFault::Differs);
    }
    Ok(StateStart { text, order })
}
