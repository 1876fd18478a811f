//! A whole start file of a short one.
ghost use Rattle.std.specs.Prelude.{◌≡◌, IfOk, string_bytes};
ghost use Rattle.serde_json.specs.View.{view};
ghost use Rattle.mls_complete.specs.Completed.{Means, Writes, CompletesTree, Completes};

use crate::short::read_short;
use mls_snapshots::{StateStart, StateStartFault, start_of_state};
use mls_start_file::{Loaded, load_file};
use mls_start_text::{LoadFault, read_tree};
use mls_state::State;
use serde_json::Value;
use std::alloc::{AllocError, Global};
use thiserror::Error;

/// Why a short start file isn't completed.
#[derive(Clone, Copy, Debug, PartialEq, Eq, Error)]
pub enum CompleteFault {
    /// The file is no short start file, or what it says is refused.
    #[error("the start is refused: {0}")]
    Load(LoadFault),
    /// What was written doesn't open with what the file says. No file is known for which this happens.
    #[error("the start file differs")]
    Differs,
}

/// The start and the names that a short file's tree says.
fn load_short(alloc: Global, tree: &Value) -> Result<Loaded, LoadFault>
    ensures { IfOk result (λ loaded. Means (view tree.now) loaded) }
{
    let file = read_short(alloc, tree)?;
    let loaded = load_file(alloc, &file);
    drop(file);
    loaded
}

/// The text of a start file that opens with the state of a start.
fn text_of(alloc: Global, loaded: &Loaded, state: &State) -> Result<String, CompleteFault>
    ensures { state.now ≡ loaded.now.start → IfOk result (λ text. Writes loaded.now (string_bytes text)) }
{
    match start_of_state(alloc, loaded.names(), state) {
        Ok(made) => {
            let StateStart { text, order } = made;
            drop(order);
            Ok(text)
        }
        Err(StateStartFault::Memory) => Err(CompleteFault::Load(LoadFault::Memory)),
        Err(StateStartFault::Differs) => Err(CompleteFault::Differs),
    }
}

/// The text of a start file that says a start.
fn text_for(alloc: Global, loaded: &Loaded) -> Result<String, CompleteFault>
    ensures { IfOk result (λ text. Writes loaded.now (string_bytes text)) }
{
    match loaded.start().opening(alloc) {
        Ok(state) => {
            let text = text_of(alloc, loaded, &state);
            drop(state);
            text
        }
        Err(AllocError) => Err(CompleteFault::Load(LoadFault::Memory)),
    }
}

/// The text of a start file for a short one's tree.
fn complete_tree(alloc: Global, tree: &Value) -> Result<String, CompleteFault>
    ensures { IfOk result (λ text. CompletesTree (view tree.now) (string_bytes text)) }
{
    match load_short(alloc, tree) {
        Ok(loaded) => {
            let text = text_for(alloc, &loaded);
            drop(loaded);
            text
        }
        Err(fault) => Err(CompleteFault::Load(fault)),
    }
}

/// A whole start file of the bytes of a short one: JSON in UTF-8 as a start file is, in which may be left out of a
/// subject `current`, which is then its maximum, `integrity`, the least label, and `trusted`, no; of an object
/// `parent`, the root, and `integrity`; of a scheme `categories`; and of the file `matrix`, `accesses`, `profile` and
/// `integrity`, which is then a scheme of one level, `any`.
///
/// # Errors
/// - `Load` with the fault of the short file, in the order of [`LoadFault`].
/// - `Differs` where what was written doesn't open with what the file says. No file is known for which this happens.
pub fn complete(alloc: Global, bytes: &[u8]) -> Result<String, CompleteFault>
    ensures start { IfOk result (λ text. Completes bytes.now (string_bytes text)) }
{
    match read_tree(alloc, bytes) {
        Ok(tree) => {
            let text = complete_tree(alloc, &tree);
            drop(tree);
            text
        }
        Err(fault) => Err(CompleteFault::Load(fault)),
    }
}
