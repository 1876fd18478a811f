//! Accesses that could be got, brought about where nobody holds anything.
ghost use Rattle.std.specs.Prelude.{◌≡◌, IsTrue, OnOk};
ghost use Rattle.mls_tree.specs.Tree.{reaches_within};
ghost use Rattle.mls_state.specs.State.{is_subject, is_active};
ghost use Rattle.mls_state.specs.Properties.{IsSecure};
ghost use Rattle.mls_futures.specs.Closure.{acts_in, CouldGet};
ghost use Rattle.mls_futures.specs.Futures.{HasLabelsWithin, HoldsNothing};
ghost use Rattle.mls_ways.specs.Ways.{HoldsOnly, LeadsTo};

use crate::giver::giver_of;
use crate::giving::{give_at_root, give_below};
use crate::obtaining::obtain;
use mls_rules::{Request, State};
use mls_state::discretionary_holds;
use mls_tables::{Mode, ObjectId, SubjectId};
use std::alloc::AllocError;

/// Brings an access about that an actor could get, where nobody holds anything: has it permitted, where it isn't, by an
/// actor for which write of the parent is brought about first; and gets it. The root is met within so many steps up
/// from the object. Nothing else is held then.
///
/// # Errors
/// `AllocError` where an allocation failed; some requests may have been made and added then.
pub fn bring(
    state: &mut State,
    script: &mut Vec<Request>,
    actors: &[bool],
    s: SubjectId,
    o: ObjectId,
    x: Mode,
    left: u16,
) -> Result<(), AllocError>
    requires secure { IsSecure state.old }
    requires within { HasLabelsWithin state.old }
    requires nothing { HoldsNothing state.old }
    requires subject { IsTrue (is_subject state.old s) }
    requires object { IsTrue (is_active state.old o) }
    requires could { CouldGet state.old (acts_in actors.now) s o x }
    requires near { IsTrue (reaches_within state.old.parent left o 0) }
    ensures { OnOk result
        (LeadsTo (acts_in actors.now) state.old state.new script.old.items script.new.items (HoldsOnly (s, o, x))) }
{
    state.agrees();
    if discretionary_holds(state, s, o, x) {
        obtain(state, script, actors, s, o, x)?;
        return Ok(());
    }
    let Some(p) = state.parent(o) else {
        give_at_root(state, script, actors, s, o, x)?;
        obtain(state, script, actors, s, o, x)?;
        return Ok(());
    };
    let Some(giver) = giver_of(state, actors, o, p) else {
        return Ok(());
    };
    bring(state, script, actors, giver, p, Mode::Write, left - 1)?;
    give_below(state, script, actors, giver, p, (s, o, x))?;
    obtain(state, script, actors, s, o, x)?;
    Ok(())
}
