//! Whether a start is a state with its objects numbered anew.
ghost use Rattle.std.specs.Prelude.{◌≡◌, ℕ, IsTrue, IfOk, nat_lt, length};
ghost use Rattle.mls_state.specs.State.{is_active};
ghost use Rattle.mls_snapshots.specs.Orders.{IsOrder};
ghost use Rattle.mls_snapshots.specs.Renaming.{AreRenamed};
ghost use Rattle.mls_snapshots.specs.Renumbering.{IsSameBy};

use crate::cells::is_carried_over;
use crate::names::are_renamed;
use crate::objects::are_renumbered;
use crate::order::is_order;
use crate::subjects::has_same_subjects;
use mls_lines::Names;
use mls_start_file::Loaded;
use mls_state::{State, Table};
use mls_tables::ObjectId;
use std::alloc::{AllocError, Global};

/// Whether the profile and the bounds of labels are those of another state.
#[tactic(auto, using(mls_labels::proofs::Laws::bounds_same))]
pub(crate) fn has_same_kind(state: &State, other: &State) -> bool
    ensures profile { IsTrue result → other.now.profile ≡ state.now.profile }
    ensures security { IsTrue result → other.now.security ≡ state.now.security }
    ensures integrity { IsTrue result → other.now.integrity ≡ state.now.integrity }
    ensures accepted { other.now.profile ≡ state.now.profile → other.now.security ≡ state.now.security
        → other.now.integrity ≡ state.now.integrity → IsTrue result }
{
    state.profile() == other.profile()
        && state.security() == other.security()
        && state.integrity() == other.integrity()
}

/// Whether a state with as many objects as an order is another with its objects numbered by that.
fn is_same_by(state: &State, other: &State, order: &[ObjectId]) -> bool
    requires next { other.now.next ≡ length order.now }
    requires active { (k : ℕ) → is_active other.now k ≡ nat_lt k (length order.now) }
    ensures { IsTrue result → IsSameBy state.now other.now order.now }
{
    if !has_same_kind(state, other) {
        return false;
    }
    if !has_same_subjects(state, other) {
        return false;
    }
    if !are_renumbered(state, other, order) {
        return false;
    }
    if !is_carried_over(state, other, Table::Matrix, order) {
        return false;
    }
    is_carried_over(state, other, Table::Accesses, order)
}

/// Whether a start with its names is a state with its names, but that its objects are numbered by an order.
pub(crate) fn is_like(
    alloc: Global,
    names: &Names,
    state: &State,
    order: &[ObjectId],
    loaded: &Loaded,
) -> Result<bool, AllocError>
    ensures ordered { IfOk result (λ like. IsTrue like → IsOrder state.now order.now) }
    ensures state { IfOk result (λ like. IsTrue like → IsSameBy state.now loaded.now.start order.now) }
    ensures names { IfOk result (λ like. IsTrue like → AreRenamed names.now loaded.now.names order.now) }
{
    let new = loaded.names();
    if loaded.start().object_count() as usize != order.len() || !is_order(state, order) {
        return Ok(false);
    }
    if !are_renamed(alloc, names, new, order)? {
        return Ok(false);
    }
    let opening = loaded.start().opening(alloc)?;
    let same = is_same_by(state, &opening, order);
    drop(opening);
    Ok(same)
}
