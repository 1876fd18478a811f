//! Whether a table has the triples of another, with the objects numbered anew.
ghost use Rattle.std.specs.Prelude.{◌≡◌, ◌<◌, ℕ, IsTrue, Some, nat_lt, length, slice_get};
ghost use Rattle.std.specs.FinSet as set;
ghost use Rattle.mls_state.specs.State.{is_active};
ghost use Rattle.mls_tables.specs.declared.mode.Mode.{Mode as ModeName};
ghost use Rattle.mls_snapshots.specs.Renumbering.{IsCarriedOver};
ghost use Rattle.mls_state.specs.Tables.{triples_of};

use mls_state::{State, Table};
use mls_tables::{Mode, Modes, ObjectId, SubjectId};

/// Whether two sets of modes are the same.
fn are_same(a: Modes, b: Modes) -> bool
    ensures { IsTrue result → (x : ModeName) → set.contains a x ≡ set.contains b x }
{
    a.has(Mode::Execute) == b.has(Mode::Execute)
        && a.has(Mode::Read) == b.has(Mode::Read)
        && a.has(Mode::Append) == b.has(Mode::Append)
        && a.has(Mode::Write) == b.has(Mode::Write)
}

/// Whether a subject has the same modes with an object and with the one that it is in the other state.
fn is_same_cell(
    state: &State,
    other: &State,
    table: Table,
    s: SubjectId,
    o: ObjectId,
    k: ObjectId,
) -> bool
    ensures { IsTrue result → (x : ModeName) → set.contains (triples_of table other.now) (s, k, x)
        ≡ set.contains (triples_of table state.now) (s, o, x) }
{
    are_same(table.modes(other, s, k), table.modes(state, s, o))
}

/// Whether a subject has the same modes with each object of an order and with its place.
fn is_same_row(state: &State, other: &State, table: Table, order: &[ObjectId], s: SubjectId) -> bool
    ensures { IsTrue result → (k o : ℕ) (x : ModeName) → slice_get order.now k ≡ Some o
        → set.contains (triples_of table other.now) (s, k, x) ≡ set.contains (triples_of table state.now) (s, o, x) }
{
    for (k, o) in order.iter().enumerate() {
        if k > u16::MAX as usize {
            return false;
        }
        if !is_same_cell(state, other, table, s, *o, ObjectId::new(k as u16)) {
            return false;
        }
    }
    true
}

/// Whether a table of one state is carried over to another, in which the objects are numbered by their places.
pub(crate) fn is_carried_over(
    state: &State,
    other: &State,
    table: Table,
    order: &[ObjectId],
) -> bool
    requires { (k : ℕ) → is_active other.now k ≡ nat_lt k (length order.now) }
    ensures { IsTrue result → IsCarriedOver (triples_of table state.now) (triples_of table other.now) order.now }
{
    state.agrees();
    other.agrees();
    let count = state.subject_count();
    if other.subject_count() != count {
        return false;
    }
    for s in 0..count {
        if !is_same_row(state, other, table, order, SubjectId::new(s)) {
            return false;
        }
    }
    true
}
