//! What is wrong with names.
ghost use Rattle.std.specs.Prelude.{◌≡◌, ℕ, List, map, not, IfOk};
ghost use Rattle.std.specs.List.{list_any};
ghost use Rattle.std.specs.Str.{bytes_eq};
ghost use Rattle.mls_start_faults.specs.NameFaults.{name_fault, name_faults};

use crate::seen::SeenNames;
use mls_labels::is_name;
use std::alloc::{AllocError, Global};

/// Why a name is refused in its list.
#[derive(Clone, Copy)]
pub(crate) enum NameFault {
    /// It is no NAME.
    Bad,
    /// It is one, and stands before in the list.
    Repeated,
}

/// What is wrong with a name, if anything, by whether it is new.
fn fault_of(name: &str, is_new: bool) -> Option<NameFault>
    ensures { (before : List (List ℕ)) → list_any (bytes_eq name.now) before ≡ not is_new
        → result ≡ name_fault before name.now }
{
    if !is_name(name.as_bytes()) {
        Some(NameFault::Bad)
    } else if is_new {
        None
    } else {
        Some(NameFault::Repeated)
    }
}

/// What is wrong with each of the names, if anything.
///
/// # Errors
/// `AllocError` where an allocation failed.
pub(crate) fn name_faults(
    alloc: Global,
    names: &[&str],
) -> Result<Vec<Option<NameFault>>, AllocError>
    ensures { IfOk result (λ faults. faults.items ≡ name_faults (map (λ name. name.now) names.now)) }
{
    let mut seen = SeenNames::with_room(alloc, names.len())?;
    let mut faults = Vec::with_capacity(alloc, names.len())?;
    for name in names {
        let is_new = seen.insert(alloc, name)?;
        faults.push(fault_of(name, is_new))?;
    }
    drop(seen);
    Ok(faults)
}
