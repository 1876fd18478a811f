//! The subjects and the objects of a state.
ghost use Rattle.std.specs.Prelude.{◌≡◌, ◌≤◌, ◌++◌, ◌∷◌, [], IsTrue, IfOk, OnOk, All, length, if◌then◌else◌};
ghost use Rattle.mls_tables.specs.declared.limits.TheConstants.{MAX_OBJECTS};
ghost use Rattle.mls_state.specs.State.{is_subject, is_active};
ghost use Rattle.mls_review.specs.Findings.{subjects, objects};

use mls_state::State;
use mls_tables::{MAX_OBJECTS, MAX_SUBJECTS, ObjectId, SubjectId};
use std::alloc::{AllocError, Allocator, Global};

/// Adds the subject of a number, where it is known.
fn push_subject<A: Allocator>(
    found: &mut Vec<SubjectId>,
    state: &State<A>,
    n: u16,
) -> Result<(), AllocError>
    ensures { OnOk result
        (found.new.items ≡ found.old.items ++ (if is_subject state.now n then n ∷ [] else [])) }
{
    let s = SubjectId::new(n);
    if state.is_subject(s) {
        found.push(s)?;
    }
    Ok(())
}

/// Adds the object of a number, where it is active.
fn push_object<A: Allocator>(
    found: &mut Vec<ObjectId>,
    state: &State<A>,
    n: u16,
) -> Result<(), AllocError>
    ensures { OnOk result
        (found.new.items ≡ found.old.items ++ (if is_active state.now n then n ∷ [] else [])) }
{
    let o = ObjectId::new(n);
    if state.is_active(o) {
        found.push(o)?;
    }
    Ok(())
}

/// The known subjects, by number.
#[tactic(auto, using(crate::proofs::Ranges::listed_none))]
pub(crate) fn subjects<A: Allocator>(
    alloc: Global,
    state: &State<A>,
) -> Result<Vec<SubjectId>, AllocError>
    ensures list { IfOk result (λ found. found.items ≡ subjects state.now) }
    ensures known { IfOk result (λ found. All (λ s. IsTrue (is_subject state.now s)) found.items) }
{
    let mut found = Vec::new(alloc);
    for n in 0..MAX_SUBJECTS {
        push_subject(&mut found, state, n)?;
    }
    Ok(found)
}

/// The active objects, by number.
#[tactic(auto, using(crate::proofs::Ranges::listed_none))]
pub(crate) fn objects<A: Allocator>(
    alloc: Global,
    state: &State<A>,
) -> Result<Vec<ObjectId>, AllocError>
    ensures list { IfOk result (λ found. found.items ≡ objects state.now) }
    ensures active { IfOk result (λ found. All (λ o. IsTrue (is_active state.now o)) found.items) }
    ensures few { IfOk result (λ found. length found.items ≤ MAX_OBJECTS) }
{
    let mut found = Vec::new(alloc);
    for n in 0..MAX_OBJECTS {
        push_object(&mut found, state, n)?;
    }
    Ok(found)
}
