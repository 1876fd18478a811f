//! Whether the objects of a state are those of another, numbered anew.
ghost use Rattle.std.specs.Prelude.{◌≡◌, ℕ, IsTrue, Some, slice_get};
ghost use Rattle.mls_snapshots.specs.Orders.{new_parent};
ghost use Rattle.mls_snapshots.specs.Renumbering.{IsRenumbered};

use crate::order::place_in;
use mls_state::{ObjectLabels, State};
use mls_tables::ObjectId;

/// Whether two objects have the same labels.
#[tactic(auto, using(mls_labels::proofs::Laws::labels_same))]
fn are_same_labels(a: &ObjectLabels, b: &ObjectLabels) -> bool
    ensures security { IsTrue result → b.now.security ≡ a.now.security }
    ensures integrity { IsTrue result → b.now.integrity ≡ a.now.integrity }
{
    a.security == b.security && a.integrity == b.integrity
}

/// Whether a parent, where there is one, is the place of another one, where there is that.
fn is_same_parent(order: &[ObjectId], parent: Option<ObjectId>, new: Option<ObjectId>) -> bool
    ensures { IsTrue result → new ≡ new_parent order.now parent }
{
    let Some(p) = parent else {
        return new.is_none();
    };
    match (place_in(order, p), new) {
        (Some(j), Some(q)) => j == q.number() as usize,
        (Some(_), None) | (None, _) => false,
    }
}

/// Whether an object is what another one was, but for its number.
fn is_renumbered(state: &State, other: &State, order: &[ObjectId], k: ObjectId, o: ObjectId) -> bool
    ensures { IsTrue result → IsRenumbered state.now other.now order.now k o }
{
    if !state.is_active(o) || !other.is_active(k) {
        return false;
    }
    are_same_labels(state.labels(o), other.labels(k))
        && is_same_parent(order, state.parent(o), other.parent(k))
}

/// Whether each place of an order has what the object there was.
pub(crate) fn are_renumbered(state: &State, other: &State, order: &[ObjectId]) -> bool
    ensures { IsTrue result
        → (k o : ℕ) → slice_get order.now k ≡ Some o → IsRenumbered state.now other.now order.now k o }
{
    for (k, o) in order.iter().enumerate() {
        if k > u16::MAX as usize {
            return false;
        }
        if !is_renumbered(state, other, order, ObjectId::new(k as u16), *o) {
            return false;
        }
    }
    true
}
