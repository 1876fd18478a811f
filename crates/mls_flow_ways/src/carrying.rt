//! Content that an access carries.
ghost use Rattle.std.specs.Prelude.{◌≡◌, IsTrue, OnOk};
ghost use Rattle.mls_tables.specs.Mode.{observes, alters};
ghost use Rattle.mls_state.specs.Properties.{IsSecure};
ghost use Rattle.mls_flows.specs.declared.place.Place.TheVariants.{Subject, Object};
ghost use Rattle.mls_futures.specs.Closure.{acts_in, CouldGet};
ghost use Rattle.mls_futures.specs.Futures.{HasLabelsWithin, HoldsNothing};
ghost use Rattle.mls_flow_ways.specs.Carries.{CarriesTo, IsIdleAt};

use mls_rules::{Action, Request, State};
use mls_tables::{MAX_OBJECTS, Mode, ObjectId, SubjectId};
use mls_ways::{ask, bring};
use std::alloc::AllocError;

/// Brings an access about that an actor could get, where nobody holds anything, and releases it: content comes from the
/// object to the subject by a mode that observes, from the subject to the object by one that alters.
pub(crate) fn carry_by(
    state: &mut State,
    script: &mut Vec<Request>,
    actors: &[bool],
    s: SubjectId,
    o: ObjectId,
    x: Mode,
) -> Result<(), AllocError>
    requires secure { IsSecure state.old }
    requires within { HasLabelsWithin state.old }
    requires nothing { HoldsNothing state.old }
    requires could { CouldGet state.old (acts_in actors.now) s o x }
    ensures seen { OnOk result (IsTrue (observes x) → CarriesTo (acts_in actors.now) state.old state.new
        script.old.items script.new.items (Object o) (Subject s) (IsIdleAt state.old.next)) }
    ensures left { OnOk result (IsTrue (alters x) → CarriesTo (acts_in actors.now) state.old state.new
        script.old.items script.new.items (Subject s) (Object o) (IsIdleAt state.old.next)) }
{
    state.agrees();
    bring(state, script, actors, s, o, x, MAX_OBJECTS)?;
    ask(state, script, s, Action::Release(x, o))?;
    Ok(())
}
