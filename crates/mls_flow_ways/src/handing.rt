//! Content that is handed on through an object that is made for it.
ghost use Rattle.std.specs.Prelude.{OnOk};
ghost use Rattle.mls_state.specs.Properties.{IsSecure};
ghost use Rattle.mls_flows.specs.Arriving.{HasIntegrityWithin};
ghost use Rattle.mls_flows.specs.declared.place.Place.TheVariants.{Subject};
ghost use Rattle.mls_futures.specs.Closure.{acts_in};
ghost use Rattle.mls_futures.specs.Futures.{HasLabelsWithin, HoldsNothing};
ghost use Rattle.mls_paths.specs.Hands.{CouldMake, has_room};
ghost use Rattle.mls_flow_ways.specs.Carries.{CarriesTo};

use crate::carrying::carry_by;
use crate::making::make;
use mls_rules::{Request, State};
use mls_tables::{Mode, ObjectId, SubjectId};
use std::alloc::AllocError;

/// Hands content on from one subject to another one, through an object that an actor makes below another one.
pub(crate) fn hand_on(
    state: &mut State,
    script: &mut Vec<Request>,
    actors: &[bool],
    s: SubjectId,
    t: SubjectId,
    maker: SubjectId,
    parent: ObjectId,
) -> Result<(), AllocError>
    requires secure { IsSecure state.old }
    requires within { HasLabelsWithin state.old }
    requires nothing { HoldsNothing state.old }
    requires bound { HasIntegrityWithin state.old }
    requires could { CouldMake state.old (acts_in actors.now) (has_room state.old) s t maker parent }
    ensures { OnOk result (CarriesTo (acts_in actors.now) state.old state.new script.old.items script.new.items
        (Subject s) (Subject t) HoldsNothing) }
{
    let child = make(state, script, actors, s, t, maker, parent)?;
    carry_by(state, script, actors, s, child, Mode::Append)?;
    carry_by(state, script, actors, t, child, Mode::Read)?;
    Ok(())
}
