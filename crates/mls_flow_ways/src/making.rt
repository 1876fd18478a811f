//! Objects that are made, so that content is handed on through them.
ghost use Rattle.std.specs.Prelude.{◌≡◌, ◌∷◌, ◌++◌, ◌<◌, [], IfOk, IsTrue, OnOk};
ghost use Rattle.mls_tables.specs.declared.limits.TheConstants.{MAX_OBJECTS};
ghost use Rattle.mls_state.specs.State.{is_subject, is_active};
ghost use Rattle.mls_state.specs.Properties.{IsSecure};
ghost use Rattle.mls_rules.specs.Rules.{after};
ghost use Rattle.mls_flows.specs.Arriving.{HasIntegrityWithin};
ghost use Rattle.mls_flows.specs.declared.place.Place.TheVariants.{Subject};
ghost use Rattle.mls_futures.specs.Closure.{acts_in};
ghost use Rattle.mls_futures.specs.Futures.{HasLabelsWithin, HoldsNothing};
ghost use Rattle.mls_ways.specs.Ways.{asks};
ghost use Rattle.mls_paths.specs.Hands.{CouldMake, has_room};
ghost use Rattle.mls_flow_ways.specs.Carries.{CarriesTo, IsBegun, IsMadeFor};

use mls_rules::{Action, Request, State, apply};
use mls_tables::{MAX_OBJECTS, Mode, ObjectId, SubjectId};
use mls_ways::bring;
use std::alloc::AllocError;

/// Makes the change of a request, and adds it to a script.
fn add(
    state: &mut State,
    script: &mut Vec<Request>,
    subject: SubjectId,
    action: Action,
) -> Result<(), AllocError>
    ensures state { OnOk result (state.new ≡ after state.old (asks subject action)) }
    ensures script { OnOk result (script.new.items ≡ script.old.items ++ asks subject action ∷ []) }
{
    let request = Request { subject, action };
    apply(state, &request)?;
    script.push(request)?;
    Ok(())
}

/// Makes an object below another one, with its label and the integrity label of the one that is to take what is handed
/// on; the maker holds write of the other object then.
fn begin(
    state: &mut State,
    script: &mut Vec<Request>,
    actors: &[bool],
    s: SubjectId,
    t: SubjectId,
    maker: SubjectId,
    parent: ObjectId,
) -> Result<(), AllocError>
    requires secure { IsSecure state.old }
    requires within { HasLabelsWithin state.old }
    requires nothing { HoldsNothing state.old }
    requires bound { HasIntegrityWithin state.old }
    requires could { CouldMake state.old (acts_in actors.now) (has_room state.old) s t maker parent }
    ensures { OnOk result (CarriesTo (acts_in actors.now) state.old state.new script.old.items script.new.items
        (Subject s) (Subject s) (IsBegun (acts_in actors.now) s t maker parent state.old.next)) }
{
    state.agrees();
    let integrity = state.subject_integrity(t);
    bring(
        state,
        script,
        actors,
        maker,
        parent,
        Mode::Write,
        MAX_OBJECTS,
    )?;
    let label = state.object_label(parent);
    add(
        state,
        script,
        maker,
        Action::Create(parent, label, integrity),
    )?;
    Ok(())
}

/// Permits one subject to append to an object that was made, and another one to read it, and releases its parent.
fn permit(
    state: &mut State,
    script: &mut Vec<Request>,
    actors: &[bool],
    s: SubjectId,
    t: SubjectId,
    maker: SubjectId,
    parent: ObjectId,
    child: ObjectId,
) -> Result<(), AllocError>
    requires secure { IsSecure state.old }
    requires within { HasLabelsWithin state.old }
    requires begun { IsBegun (acts_in actors.now) s t maker parent child state.old }
    requires giver { IsTrue (acts_in actors.now s) × IsTrue (is_subject state.old s) }
    requires taker { IsTrue (acts_in actors.now t) × IsTrue (is_subject state.old t) }
    requires maker { IsTrue (acts_in actors.now maker) × IsTrue (is_subject state.old maker) }
    requires parent { IsTrue (is_active state.old parent) }
    ensures { OnOk result (CarriesTo (acts_in actors.now) state.old state.new script.old.items script.new.items
        (Subject s) (Subject s) (IsMadeFor (acts_in actors.now) s t child)) }
{
    state.agrees();
    add(state, script, maker, Action::Give(Mode::Append, s, child))?;
    add(state, script, maker, Action::Give(Mode::Read, t, child))?;
    add(state, script, maker, Action::Release(Mode::Write, parent))?;
    Ok(())
}

/// Makes an object through which content is handed on: one subject could get append of it, another one read.
pub(crate) fn make(
    state: &mut State,
    script: &mut Vec<Request>,
    actors: &[bool],
    s: SubjectId,
    t: SubjectId,
    maker: SubjectId,
    parent: ObjectId,
) -> Result<ObjectId, AllocError>
    requires secure { IsSecure state.old }
    requires within { HasLabelsWithin state.old }
    requires nothing { HoldsNothing state.old }
    requires bound { HasIntegrityWithin state.old }
    requires could { CouldMake state.old (acts_in actors.now) (has_room state.old) s t maker parent }
    ensures { IfOk result (λ child. CarriesTo (acts_in actors.now) state.old state.new script.old.items
        script.new.items (Subject s) (Subject s) (IsMadeFor (acts_in actors.now) s t child)) }
{
    state.agrees();
    let child = ObjectId::new(state.next());
    begin(state, script, actors, s, t, maker, parent)?;
    permit(state, script, actors, s, t, maker, parent, child)?;
    Ok(child)
}
