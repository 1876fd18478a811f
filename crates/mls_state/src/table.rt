//! The two tables of triples of a state, cell by cell.
ghost use Rattle.std.specs.Prelude.{◌≡◌};
ghost use Rattle.std.specs.FinSet as set;
ghost use Rattle.mls_tables.specs.declared.mode.Mode.{Mode};
ghost use Rattle.mls_state.specs.Tables.{triples_of};

use crate::state::State;
use mls_tables::{Modes, ObjectId, SubjectId};
use std::alloc::Allocator;

/// One of the two tables of triples of a state.
#[derive(Clone, Copy, Debug, PartialEq, Eq)]
pub enum Table {
    /// What is permitted.
    Matrix,
    /// What is accessed.
    Accesses,
}

impl Table {
    /// The modes of a subject and an object in this table of a state, whatever the two are.
    pub fn modes<A: Allocator>(self, state: &State<A>, s: SubjectId, o: ObjectId) -> Modes
        ensures { (x : Mode) → set.contains result x ≡ set.contains (triples_of self state.now) (s, o, x) }
    {
        // that triples name known subjects and active objects
        state.agrees();
        if !state.is_subject(s) {
            return Modes::empty();
        }
        if !state.is_active(o) {
            return Modes::empty();
        }
        match self {
            Table::Matrix => state.allowed(s, o),
            Table::Accesses => state.accesses(s, o),
        }
    }
}
