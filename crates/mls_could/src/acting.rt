//! What is known of the futures of a state, where all act that aren't trusted.
ghost use Rattle.std.specs.Prelude.{◌≡◌, ℕ, IfOk};
ghost use Rattle.mls_futures.specs.Closure.{acts_in};
ghost use Rattle.mls_could.specs.Brought.{is_untrusted};
ghost use Rattle.mls_could.specs.Outsets.{acts_of, IsOutset};

use crate::outset::{Outset, outset_of};
use mls_rules::State;
use mls_tables::SubjectId;
use std::alloc::{AllocError, Global};

/// Which subjects aren't trusted, by number.
fn flags(alloc: Global, state: &State) -> Result<Vec<bool>, AllocError>
    ensures { IfOk result (λ flags. (s : ℕ) → acts_in flags.items s ≡ is_untrusted state.now s) }
{
    let mut flags = Vec::new(alloc);
    for n in 0..state.subject_count() {
        flags.push(!state.is_trusted(SubjectId::new(n)))?;
    }
    Ok(flags)
}

/// What is known of the futures of a state, where all known subjects act that aren't trusted.
///
/// # Errors
/// `AllocError` where an allocation failed.
pub fn untrusted(alloc: Global, state: &State) -> Result<Outset, AllocError>
    ensures right { IfOk result (λ outset. IsOutset state.now outset) }
    ensures acts { IfOk result (λ outset. (s : ℕ) → acts_of outset s ≡ is_untrusted state.now s) }
{
    let actors = flags(alloc, state)?;
    outset_of(alloc, state, actors)
}
