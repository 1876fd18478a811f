//! What is to be expected of an access.
ghost use Rattle.std.specs.Prelude.{◌≡◌};
ghost use Rattle.mls_could.specs.Outsets.{acts_of, IsOutset};
ghost use Rattle.mls_grid.specs.Prospects.{IsProspect};

use mls_could::Outset;
use mls_rules::State;
use mls_state::discretionary_holds;
use mls_tables::{Mode, ObjectId, SubjectId};

/// What is to be expected of an access.
#[derive(Clone, Copy, Debug)]
pub enum Prospect {
    /// It is held now.
    Held,
    /// It isn't held; it is permitted, and could be got.
    Permitted,
    /// It is neither held nor permitted, and could be got once somebody has given the permission.
    Brought,
    /// It isn't held, and never comes about.
    Never,
}

/// What is to be expected of an access, by the closure of the state.
pub fn prospect_of(state: &State, outset: &Outset, s: SubjectId, o: ObjectId, x: Mode) -> Prospect
    requires { IsOutset state.now outset.now }
    ensures { IsProspect state.now (acts_of outset.now) (s, o, x) result }
{
    state.agrees();
    if state.has_access(s, o, x) {
        return Prospect::Held;
    }
    if !outset.could(state, s, o, x) {
        return Prospect::Never;
    }
    if discretionary_holds(state, s, o, x) {
        Prospect::Permitted
    } else {
        Prospect::Brought
    }
}
