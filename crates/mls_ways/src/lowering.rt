//! Labels that are lowered as far as they go, from the root down to an object.
ghost use Rattle.std.specs.Prelude.{◌≡◌, ◌↔◌, IsTrue, OnOk, MatchOption, Some};
ghost use Rattle.std.specs.FinMap as map;
ghost use Rattle.mls_state.specs.State.{is_subject, is_active};
ghost use Rattle.mls_state.specs.Properties.{IsSecure};
ghost use Rattle.mls_tree.specs.Tree.{reaches_within};
ghost use Rattle.mls_rules.specs.Levels.{is_above_parent};
ghost use Rattle.mls_futures.specs.Closure.{acts_in, HasTrusted};
ghost use Rattle.mls_futures.specs.Futures.{HasLabelsWithin, HoldsNothing};
ghost use Rattle.mls_ways.specs.Ways.{least, IsLowered, LeadsTo, IsTrustedActor};

use crate::asking::ask;
use mls_labels::{CatSet, Label, SecLabel};
use mls_rules::{Action, Request, State};
use mls_tables::{ObjectId, SubjectId};
use std::alloc::AllocError;

/// The label that all others dominate.
pub(crate) fn least_label() -> SecLabel
    ensures { result ≡ least }
{
    SecLabel::of(Label::new(0, CatSet::empty()))
}

/// Whether an object has that label.
#[tactic(auto, using(mls_labels::proofs::Laws::labels_same))]
fn is_lowered(state: &State, o: ObjectId) -> bool
    requires { IsTrue (is_active state.now o) }
    ensures { IsTrue result → map.get state.now.object_label o ≡ Some least }
{
    state.object_label(o) == least_label()
}

/// Whether a subject acts and is trusted.
fn is_trusted_actor(state: &State, actors: &[bool], s: SubjectId) -> bool
    requires { IsTrue (is_subject state.now s) }
    ensures { IsTrue result ↔ IsTrustedActor state.now (acts_in actors.now) s }
{
    match actors.get(s.number() as usize) {
        Some(acts) => *acts && state.is_trusted(s),
        None => false,
    }
}

/// The first trusted actor, where there is one.
pub(crate) fn trusted_actor(state: &State, actors: &[bool]) -> Option<SubjectId>
    ensures { MatchOption result (HasTrusted state.now (acts_in actors.now) → ⊥)
        (λ s. IsTrustedActor state.now (acts_in actors.now) s) }
{
    state.agrees();
    for n in 0..state.subject_count() {
        let s = SubjectId::new(n);
        if is_trusted_actor(state, actors, s) {
            return Some(s);
        }
    }
    None
}

/// Lowers the label of an object as far as it goes, where nobody holds anything, an actor is trusted, and the label of
/// its parent is as low.
fn lower(
    state: &mut State,
    script: &mut Vec<Request>,
    actors: &[bool],
    o: ObjectId,
) -> Result<(), AllocError>
    requires secure { IsSecure state.old }
    requires within { HasLabelsWithin state.old }
    requires nothing { HoldsNothing state.old }
    requires trusted { HasTrusted state.old (acts_in actors.now) }
    requires object { IsTrue (is_active state.old o) }
    requires above { IsTrue (is_above_parent state.old least (map.get state.old.parent o)) }
    ensures { OnOk result
        (LeadsTo (acts_in actors.now) state.old state.new script.old.items script.new.items (IsLowered o)) }
{
    state.agrees();
    if is_lowered(state, o) {
        return Ok(());
    }
    match trusted_actor(state, actors) {
        Some(subject) => {
            let action = Action::ObjectLevel(o, least_label());
            ask(state, script, subject, action)?;
            Ok(())
        }
        None => Ok(()),
    }
}

/// Lowers the labels from the root down to an object as far as they go, where nobody holds anything and an actor is
/// trusted. The root is met within so many steps up from the object.
pub(crate) fn lower_path(
    state: &mut State,
    script: &mut Vec<Request>,
    actors: &[bool],
    o: ObjectId,
    left: u16,
) -> Result<(), AllocError>
    requires secure { IsSecure state.old }
    requires within { HasLabelsWithin state.old }
    requires nothing { HoldsNothing state.old }
    requires trusted { HasTrusted state.old (acts_in actors.now) }
    requires object { IsTrue (is_active state.old o) }
    requires near { IsTrue (reaches_within state.old.parent left o 0) }
    ensures { OnOk result
        (LeadsTo (acts_in actors.now) state.old state.new script.old.items script.new.items (IsLowered o)) }
{
    match state.parent(o) {
        None => {
            lower(state, script, actors, o)?;
            Ok(())
        }
        Some(p) => {
            lower_path(state, script, actors, p, left - 1)?;
            lower(state, script, actors, o)?;
            Ok(())
        }
    }
}
