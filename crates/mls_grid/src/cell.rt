//! The cells of a grid.
ghost use Rattle.std.specs.Prelude.{◌≡◌};
ghost use Rattle.mls_could.specs.Outsets.{acts_of, IsOutset};
ghost use Rattle.mls_grid.specs.Grids.{IsCell, place_of};

use crate::prospect::{Prospect, prospect_of};
use mls_could::Outset;
use mls_rules::State;
use mls_tables::{Mode, ObjectId, SubjectId};

/// What is to be expected of the accesses of a subject to an object, mode by mode.
#[derive(Clone, Copy, Debug)]
pub struct Cell {
    pub subject: SubjectId,
    pub object: ObjectId,
    pub execute: Prospect,
    pub read: Prospect,
    pub append: Prospect,
    pub write: Prospect,
}

/// The cell of a subject and an object.
pub(crate) fn cell_of(state: &State, outset: &Outset, s: SubjectId, o: ObjectId) -> Cell
    requires { IsOutset state.now outset.now }
    ensures place { place_of result ≡ (s, o) }
    ensures so { IsCell state.now (acts_of outset.now) result }
{
    Cell {
        subject: s,
        object: o,
        execute: prospect_of(state, outset, s, o, Mode::Execute),
        read: prospect_of(state, outset, s, o, Mode::Read),
        append: prospect_of(state, outset, s, o, Mode::Append),
        write: prospect_of(state, outset, s, o, Mode::Write),
    }
}

/// What one access weighs: one that isn't permitted more than all others together.
fn weight_of(prospect: Prospect) -> u64 {
    match prospect {
        Prospect::Held | Prospect::Permitted => 1,
        Prospect::Brought => 65_536,
        Prospect::Never => 0,
    }
}

impl Cell {
    /// What it weighs.
    pub(crate) fn weight(&self) -> u64 {
        weight_of(self.execute)
            .saturating_add(weight_of(self.read))
            .saturating_add(weight_of(self.append))
            .saturating_add(weight_of(self.write))
    }
}
