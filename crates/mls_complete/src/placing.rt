//! Where the fault of a short start file applies.
ghost use Rattle.std.specs.Prelude.{◌≡◌, IfOk};
ghost use Rattle.serde_json.specs.Data.{Data};
ghost use Rattle.serde_json.specs.View.{view};
ghost use Rattle.mls_start_text.specs.Looking.{IsReadAs};
ghost use Rattle.mls_complete.specs.Placed.{short_bytes};

use crate::short::read_short;
use mls_rows::Form;
use mls_start_faults::file_places;
use mls_start_text::{LoadFault, read_tree};
use serde_json::Value;
use std::alloc::{AllocError, Global};

/// The places of a short file's tree.
fn tree_places(
    alloc: Global,
    form: Form,
    tree: &Value,
    fault: LoadFault,
) -> Result<Vec<u8>, AllocError>
    ensures { IfOk result (λ out. out.items ≡ short_bytes form fault (view tree.now)) }
{
    match read_short(alloc, tree) {
        Ok(file) => file_places(alloc, form, fault, file),
        Err(LoadFault::Memory) => Err(AllocError),
        Err(_) => Ok(Vec::new(alloc)),
    }
}

/// The places where the fault applies for which [`complete`](crate::complete) refuses the bytes of a short start file, a
/// row each in this form: a JSON pointer and some words, in the file's order. Nothing that is filled in is a fault. Of
/// `Json` and `Members` there are none.
///
/// # Errors
/// `AllocError` where an allocation failed; also where the bytes are no JSON.
pub fn short_places(
    alloc: Global,
    form: Form,
    bytes: &[u8],
    fault: LoadFault,
) -> Result<Vec<u8>, AllocError>
    ensures { IfOk result (λ out. (d : Data) → IsReadAs bytes.now d → out.items ≡ short_bytes form fault d) }
{
    match read_tree(alloc, bytes) {
        Ok(tree) => {
            let found = tree_places(alloc, form, &tree, fault);
            drop(tree);
            found
        }
        Err(_) => Err(AllocError),
    }
}
