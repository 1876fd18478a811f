//! Permissions that are given.
ghost use Rattle.std.specs.Prelude.{◌≡◌, IsTrue, OnOk, Some};
ghost use Rattle.std.specs.FinMap as map;
ghost use Rattle.mls_tables.specs.declared.mode.Mode.TheVariants.{Write};
ghost use Rattle.mls_state.specs.State.{is_subject, is_active};
ghost use Rattle.mls_state.specs.Properties.{IsSecure};
ghost use Rattle.mls_futures.specs.Closure.{acts_in, HasTrusted};
ghost use Rattle.mls_futures.specs.Futures.{HasLabelsWithin, HoldsNothing};
ghost use Rattle.mls_ways.specs.Ways.{HoldsOnly, IsPermitted, LeadsTo};

use crate::asking::ask;
use crate::lowering::trusted_actor;
use mls_rules::{Action, Request, State};
use mls_tables::{Mode, ObjectId, SubjectId};
use std::alloc::AllocError;

/// Gives a permission of the root, by a trusted actor.
pub(crate) fn give_at_root(
    state: &mut State,
    script: &mut Vec<Request>,
    actors: &[bool],
    s: SubjectId,
    o: ObjectId,
    x: Mode,
) -> Result<(), AllocError>
    requires secure { IsSecure state.old }
    requires within { HasLabelsWithin state.old }
    requires nothing { HoldsNothing state.old }
    requires trusted { HasTrusted state.old (acts_in actors.now) }
    requires root { o ≡ 0 }
    requires subject { IsTrue (is_subject state.old s) }
    ensures { OnOk result
        (LeadsTo (acts_in actors.now) state.old state.new script.old.items script.new.items (IsPermitted (s, o, x))) }
{
    state.agrees();
    match trusted_actor(state, actors) {
        Some(subject) => {
            let action = Action::Give(x, s, o);
            ask(state, script, subject, action)?;
            Ok(())
        }
        None => Ok(()),
    }
}

/// Gives a permission of an object, by an actor that holds write of its parent and nothing else is held, and releases
/// that.
pub(crate) fn give_below(
    state: &mut State,
    script: &mut Vec<Request>,
    actors: &[bool],
    giver: SubjectId,
    p: ObjectId,
    access: (SubjectId, ObjectId, Mode),
) -> Result<(), AllocError>
    requires secure { IsSecure state.old }
    requires within { HasLabelsWithin state.old }
    requires holds { HoldsOnly (giver, p, Write) state.old }
    requires actor { IsTrue (acts_in actors.now giver) }
    requires parent { map.get state.old.parent access.1 ≡ Some p }
    requires subject { IsTrue (is_subject state.old access.0) }
    requires object { IsTrue (is_active state.old access.1) }
    ensures { OnOk result
        (LeadsTo (acts_in actors.now) state.old state.new script.old.items script.new.items (IsPermitted access)) }
{
    let (s, o, x) = access;
    ask(state, script, giver, Action::Give(x, s, o))?;
    ask(state, script, giver, Action::Release(Mode::Write, p))?;
    Ok(())
}
