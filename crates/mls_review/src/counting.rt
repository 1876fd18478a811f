//! How many objects a label may flow down to.
ghost use Rattle.std.specs.Prelude.{◌≡◌, ℕ, ◌≤◌, IsTrue, IfOk, IfSome, Some, All, length};
ghost use Rattle.mls_labels.specs.Label.{Label};
ghost use Rattle.mls_tables.specs.declared.limits.TheConstants.{MAX_OBJECTS};
ghost use Rattle.mls_state.specs.State.{is_active};
ghost use Rattle.mls_review.specs.Flows.{is_not_above, count_not_above};

use mls_labels::SecLabel;
use mls_state::State;
use mls_tables::ObjectId;
use std::alloc::{AllocError, Allocator};

/// How many of some objects have a label that doesn't dominate this one.
#[derive(Clone, Copy)]
pub(crate) struct Count {
    label: SecLabel,
    below: u32,
}

/// Whether an object has a label that doesn't dominate this one.
pub(crate) fn is_not_above<A: Allocator>(state: &State<A>, b: ObjectId, label: &SecLabel) -> bool
    requires { IsTrue (is_active state.now b) }
    ensures { result ≡ is_not_above state.now (Some label.now) b }
{
    !state.labels(b).security.dominates(label)
}

/// How many of some objects have a label that doesn't dominate this one, looked at one by one.
fn count_not_above<A: Allocator>(state: &State<A>, label: &SecLabel, altered: &[ObjectId]) -> u32
    requires active { All (λ o. IsTrue (is_active state.now o)) altered.now }
    requires few { length altered.now ≤ MAX_OBJECTS }
    ensures { result ≡ count_not_above state.now altered.now label.now }
{
    let mut count = 0;
    for b in altered {
        if is_not_above(state, *b, label) {
            count += 1;
        }
    }
    count
}

/// The count that was kept of a label, where one was.
#[tactic(auto, using(mls_labels::proofs::Laws::labels_same))]
fn kept(counts: &[Count], label: &SecLabel) -> Option<u32>
    ensures { (count : Label → ℕ) → All (λ c. c.below ≡ count c.label) counts.now
        → IfSome result (λ n. n ≡ count label.now) }
{
    for c in counts {
        if c.label == *label {
            return Some(c.below);
        }
    }
    None
}

/// How many of some objects have a label that doesn't dominate this one: as it was kept, or else counted and kept.
pub(crate) fn counted<A: Allocator>(
    counts: &mut Vec<Count>,
    state: &State<A>,
    label: SecLabel,
    altered: &[ObjectId],
) -> Result<u32, AllocError>
    requires active { All (λ o. IsTrue (is_active state.now o)) altered.now }
    requires few { length altered.now ≤ MAX_OBJECTS }
    requires each { All (λ c. c.below ≡ count_not_above state.now altered.now c.label) counts.old.items }
    ensures each { All (λ c. c.below ≡ count_not_above state.now altered.now c.label) counts.new.items }
    ensures count { IfOk result (λ n. n ≡ count_not_above state.now altered.now label) }
{
    if let Some(below) = kept(counts, &label) {
        return Ok(below);
    }
    let below = count_not_above(state, &label, altered);
    counts.push(Count { label, below })?;
    Ok(below)
}
