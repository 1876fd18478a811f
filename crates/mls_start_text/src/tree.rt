//! The tree that JSON is read as.
ghost use Rattle.std.specs.Prelude.{◌≡◌, IfOk, IfErr};
ghost use Rattle.serde_json.specs.Data.{Data};
ghost use Rattle.serde_json.specs.View.{view};
ghost use Rattle.mls_start_text.specs.Looking.{IsReadAs};
ghost use Rattle.mls_start_text.specs.Refusing.{IsJsonOrMemory};

use crate::load_fault::LoadFault;
use serde_json::{Category, Value};
use std::alloc::Global;

/// The tree that the bytes are read as.
///
/// # Errors
/// `Json` where they aren't JSON in UTF-8 or nest more than 127 deep, `Memory` where an allocation failed.
pub fn read_tree(alloc: Global, bytes: &[u8]) -> Result<Value, LoadFault>
    ensures ok { IfOk result (λ tree. IsReadAs bytes.now (view tree)) }
    ensures json { result ≡ Err LoadFault.Json → (d : Data) → ¬ IsReadAs bytes.now d }
    ensures kinds { IfErr result IsJsonOrMemory }
{
    match Value::from_slice(alloc, bytes) {
        Ok(tree) => Ok(tree),
        Err(error) if error.classify() == Category::Memory => Err(LoadFault::Memory),
        Err(_) => Err(LoadFault::Json),
    }
}
