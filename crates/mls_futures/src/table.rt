//! The closure of all objects: of which an actor could give permissions.
ghost use Rattle.std.specs.Prelude.{◌≡◌, ◌↔◌, ℕ, IsTrue, IfOk, length};
ghost use Rattle.mls_tables.specs.declared.limits.TheConstants.{MAX_OBJECTS};
ghost use Rattle.mls_state.specs.State.{is_active};
ghost use Rattle.mls_futures.specs.Closure.{acts_in, HasTrusted, CouldGive, IsGivable};

use crate::actors::has_trusted;
use crate::closure::could_give_above;
use mls_state::State;
use mls_tables::{MAX_OBJECTS, ObjectId};
use std::alloc::{AllocError, Allocator};

/// Whether there is an object of the number and an actor could give permissions of it, where that is known of the
/// objects of lower numbers.
fn is_givable<A: Allocator>(
    state: &State<A>,
    actors: &[bool],
    trusted: bool,
    known: &[bool],
    n: u16,
) -> bool
    requires trusted { IsTrue trusted ↔ HasTrusted state.now (acts_in actors.now) }
    requires known { IsGivable state.now (acts_in actors.now) known.now }
    ensures { IsTrue (is_active state.now n) → (IsTrue result ↔ CouldGive state.now (acts_in actors.now) n) }
{
    let o = ObjectId::new(n);
    state.is_active(o) && could_give_above(state, actors, trusted, known, o)
}

/// Of which objects an actor could give permissions, by number. What is not active has `false`. Where no object has a
/// lower number than its parent, it looks at each subject at most twice for each object.
///
/// # Errors
/// `AllocError` where an allocation failed.
pub fn givable<A: Allocator, B: Allocator>(
    alloc: B,
    state: &State<A>,
    actors: &[bool],
) -> Result<Vec<bool, B>, AllocError>
    ensures all { IfOk result (λ found. length found.items ≡ MAX_OBJECTS) }
    ensures each { IfOk result (λ found. IsGivable state.now (acts_in actors.now) found.items) }
{
    let trusted = has_trusted(state, actors);
    let mut found = Vec::new(alloc);
    for n in 0..MAX_OBJECTS {
        let open = is_givable(state, actors, trusted, &found, n);
        found.push(open)?;
    }
    Ok(found)
}
