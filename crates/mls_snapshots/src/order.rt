//! The order in which the active objects of a state are numbered anew.
ghost use Rattle.std.specs.Prelude.{◌≡◌, ◌<◌, ◌≤◌, ℕ, IsTrue, IsSome, IfOk, Some, length, slice_get};
ghost use Rattle.mls_tables.specs.declared.limits.TheConstants.{MAX_OBJECTS};
ghost use Rattle.mls_state.specs.State.{is_active};
ghost use Rattle.mls_snapshots.specs.Orders.{place_in, new_parent, IsBefore, IsPast, IsPlaced, IsOrder};

use mls_state::State;
use mls_tables::{MAX_OBJECTS, ObjectId};
use std::alloc::{AllocError, Global};

/// Whether an object that has no place yet may come next: it is active, and its parent, where it has one, has a place.
fn may_come(state: &State, placed: &[bool], o: ObjectId) -> bool {
    if !state.is_active(o) {
        return false;
    }
    match state.parent(o) {
        Some(p) => matches!(placed.get(p.number() as usize), Some(true)),
        None => true,
    }
}

/// The object of the least number that has no place yet and may come next.
fn next_object(state: &State, placed: &[bool]) -> Option<ObjectId> {
    for (o, is_placed) in placed.iter().enumerate() {
        if *is_placed || o >= MAX_OBJECTS as usize {
            continue;
        }
        let o = ObjectId::new(o as u16);
        if may_come(state, placed, o) {
            return Some(o);
        }
    }
    None
}

/// The active objects of a state, each once: parents before their children, and of those whose parents are placed the
/// one of the least number next. No clause says so: `is_order` looks at what this gives.
pub(crate) fn object_order(alloc: Global, state: &State) -> Result<Vec<ObjectId>, AllocError>
    ensures { IfOk result (λ order. length order.items ≤ MAX_OBJECTS) }
{
    let mut placed = vec![in alloc; false; MAX_OBJECTS as usize]?;
    let mut order = Vec::new(alloc);
    for _n in 0..MAX_OBJECTS {
        let Some(o) = next_object(state, &placed) else {
            break;
        };
        if let Some(is_placed) = placed.get_mut(o.number() as usize) {
            *is_placed = true;
        }
        order.push(o)?;
    }
    Ok(order)
}

/// The place of an object in an order.
pub(crate) fn place_in(order: &[ObjectId], o: ObjectId) -> Option<usize>
    ensures { result ≡ place_in order.now o }
{
    order.iter().position(|x| x.number() == o.number())
}

/// Whether the objects at these places have lesser numbers than an object.
fn are_lesser(order: &[ObjectId], from: usize, to: usize, o: ObjectId) -> bool
    ensures { IsTrue result → (j q : ℕ) → from ≤ j → j < to → slice_get order.now j ≡ Some q → q < o }
{
    for j in from..to {
        if j >= order.len() || order[j].number() >= o.number() {
            return false;
        }
    }
    true
}

/// Whether a parent, where there is one, has a place before this one, and behind it there are only lesser numbers than
/// an object's before this one.
fn is_behind(order: &[ObjectId], parent: Option<ObjectId>, k: usize, o: ObjectId) -> bool
    ensures parent { IsTrue result → (p : ℕ) → parent ≡ Some p → IsBefore (place_in order.now p) k }
    ensures least { IsTrue result
        → (j q : ℕ) → IsPast (new_parent order.now parent) j → j < k → slice_get order.now j ≡ Some q → q < o }
{
    let Some(p) = parent else {
        return are_lesser(order, 0, k, o);
    };
    match place_in(order, p) {
        Some(j) => j < k && are_lesser(order, j + 1, k, o),
        None => false,
    }
}

/// Whether an object is active, has this place and no other, and is behind its parent with lesser numbers between.
fn is_placed(state: &State, order: &[ObjectId], k: usize, o: ObjectId) -> bool
    ensures { IsTrue result → IsPlaced state.now order.now k o }
{
    if !state.is_active(o) {
        return false;
    }
    if place_in(order, o) != Some(k) {
        return false;
    }
    is_behind(order, state.parent(o), k, o)
}

/// Whether each active object has a place in an order.
fn are_listed(state: &State, order: &[ObjectId]) -> bool
    ensures { IsTrue result → (o : ℕ) → IsTrue (is_active state.now o) → IsSome (place_in order.now o) }
{
    state.agrees();
    for n in 0..MAX_OBJECTS {
        let o = ObjectId::new(n);
        if state.is_active(o) && place_in(order, o).is_none() {
            return false;
        }
    }
    true
}

/// Whether each object of an order is placed in it.
fn are_placed(state: &State, order: &[ObjectId]) -> bool
    ensures { IsTrue result → (k o : ℕ) → slice_get order.now k ≡ Some o → IsPlaced state.now order.now k o }
{
    for (k, o) in order.iter().enumerate() {
        if !is_placed(state, order, k, *o) {
            return false;
        }
    }
    true
}

/// Whether an order has just the active objects, each once: always the one of the least number of those whose parents
/// stand before.
pub(crate) fn is_order(state: &State, order: &[ObjectId]) -> bool
    ensures { IsTrue result → IsOrder state.now order.now }
{
    are_listed(state, order) && are_placed(state, order)
}
