//! Accesses that are permitted, got where nobody holds anything.
ghost use Rattle.std.specs.Prelude.{◌≡◌, IsTrue, OnOk};
ghost use Rattle.std.specs.FinMap as map;
ghost use Rattle.std.specs.FinSet as set;
ghost use Rattle.mls_state.specs.State.{is_subject, is_active};
ghost use Rattle.mls_state.specs.Properties.{IsSecure, simple_holds, star_holds};
ghost use Rattle.mls_futures.specs.Closure.{acts_in, Qualifies};
ghost use Rattle.mls_futures.specs.Futures.{HasLabelsWithin, HoldsNothing};
ghost use Rattle.mls_ways.specs.Ways.{HoldsOnly, IsCleared, IsReady, LeadsTo, level_for};

use crate::asking::ask;
use crate::lowering::{least_label, lower_path};
use mls_labels::SecLabel;
use mls_rules::{Action, Request, State};
use mls_state::{simple_holds, star_holds};
use mls_tables::{MAX_OBJECTS, Mode, ObjectId, SubjectId};
use std::alloc::AllocError;

/// Lowers the object's label, where simple security doesn't hold of the access.
fn clear(
    state: &mut State,
    script: &mut Vec<Request>,
    actors: &[bool],
    s: SubjectId,
    o: ObjectId,
    x: Mode,
) -> Result<(), AllocError>
    requires secure { IsSecure state.old }
    requires within { HasLabelsWithin state.old }
    requires nothing { HoldsNothing state.old }
    requires subject { IsTrue (is_subject state.old s) }
    requires object { IsTrue (is_active state.old o) }
    requires qualifies { Qualifies state.old (acts_in actors.now) s o x }
    ensures { OnOk result
        (LeadsTo (acts_in actors.now) state.old state.new script.old.items script.new.items (IsCleared s o x)) }
{
    state.agrees();
    if simple_holds(state, s, o, x) {
        return Ok(());
    }
    lower_path(state, script, actors, o, MAX_OBJECTS)?;
    Ok(())
}

/// The level at which star holds of an access to an object, where simple security does.
fn level_for(state: &State, o: ObjectId, x: Mode) -> SecLabel
    requires { IsTrue (is_active state.now o) }
    ensures { result ≡ level_for (map.get state.now.object_label o) x }
{
    match x {
        Mode::Append => least_label(),
        _ => state.object_label(o),
    }
}

/// Changes the subject's level, where star doesn't hold of the access.
fn make_ready(
    state: &mut State,
    script: &mut Vec<Request>,
    actors: &[bool],
    s: SubjectId,
    o: ObjectId,
    x: Mode,
) -> Result<(), AllocError>
    requires secure { IsSecure state.old }
    requires within { HasLabelsWithin state.old }
    requires cleared { IsCleared s o x state.old }
    requires subject { IsTrue (is_subject state.old s) }
    requires object { IsTrue (is_active state.old o) }
    requires actor { IsTrue (acts_in actors.now s) }
    ensures { OnOk result
        (LeadsTo (acts_in actors.now) state.old state.new script.old.items script.new.items (IsReady s o x)) }
{
    state.agrees();
    if star_holds(state, s, o, x) {
        return Ok(());
    }
    let level = level_for(state, o, x);
    ask(state, script, s, Action::SubjectLevel(level))?;
    Ok(())
}

/// Gets an access that is permitted, and nothing keeps the subject from: lowers labels and changes its level before,
/// where that is needed.
pub(crate) fn obtain(
    state: &mut State,
    script: &mut Vec<Request>,
    actors: &[bool],
    s: SubjectId,
    o: ObjectId,
    x: Mode,
) -> Result<(), AllocError>
    requires secure { IsSecure state.old }
    requires within { HasLabelsWithin state.old }
    requires nothing { HoldsNothing state.old }
    requires subject { IsTrue (is_subject state.old s) }
    requires object { IsTrue (is_active state.old o) }
    requires qualifies { Qualifies state.old (acts_in actors.now) s o x }
    requires permitted { IsTrue (set.contains state.old.matrix (s, o, x)) }
    ensures { OnOk result
        (LeadsTo (acts_in actors.now) state.old state.new script.old.items script.new.items (HoldsOnly (s, o, x))) }
{
    clear(state, script, actors, s, o, x)?;
    make_ready(state, script, actors, s, o, x)?;
    ask(state, script, s, Action::Get(x, o))?;
    Ok(())
}
