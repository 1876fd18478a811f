//! What stands in the way of a change of levels, released.
ghost use Rattle.std.specs.Prelude.{◌≡◌, ◌++◌, IsTrue, IfOk, OnOk, map};
ghost use Rattle.std.specs.List.{flat_map};
ghost use Rattle.mls_tables.specs.Held.{subjects_of};
ghost use Rattle.mls_state.specs.State.{is_subject, is_active};
ghost use Rattle.mls_rules.specs.Rules.{names_known};
ghost use Rattle.mls_explain.specs.Demands.{failing_of_subject};
ghost use Rattle.mls_explain.specs.declared.demand.Demand.{Demand as DemandView};
ghost use Rattle.mls_remedies.specs.Gets.{release_step};
ghost use Rattle.mls_remedies.specs.Changes.{fits_label, holder_at, holder_steps, ways_free};

use crate::owing::push_releases;
use crate::pushing::push_own;
use crate::step::Step;
use mls_explain::{Demand, failing_of_subject};
use mls_labels::SecLabel;
use mls_requests::Action;
use mls_rules::{LevelDemand, SimpleAtLabel, StarAtLabel, State};
use mls_tables::{Mode, ObjectId, SubjectId};
use std::alloc::{AllocError, Global};

/// Whether an access meets simple security and star, with another label of an object.
fn fits_label(state: &State, s: SubjectId, o: ObjectId, x: Mode, label: SecLabel) -> bool
    requires subject { IsTrue (is_subject state.now s) }
    requires object { IsTrue (is_active state.now o) }
    ensures { result ≡ fits_label state.now o label (s, o, x) }
{
    SimpleAtLabel { object: o, label }.is_met(state, s, o, x)
        && StarAtLabel { object: o, label }.is_met(state, s, o, x)
}

/// Adds the release of an access that is held and doesn't fit a label of its object.
fn push_mode(
    steps: &mut Vec<Step>,
    state: &State,
    s: SubjectId,
    o: ObjectId,
    x: Mode,
    label: SecLabel,
) -> Result<(), AllocError>
    requires subject { IsTrue (is_subject state.now s) }
    requires object { IsTrue (is_active state.now o) }
    ensures { OnOk result (steps.new.items ≡ steps.old.items ++ holder_at state.now o label s x) }
{
    if state.has_access(s, o, x) && !fits_label(state, s, o, x, label) {
        push_own(steps, s, Action::Release(x, o))?;
    }
    Ok(())
}

/// Adds the releases of what a subject holds of an object and doesn't fit a label of it.
fn push_holder(
    steps: &mut Vec<Step>,
    state: &State,
    s: SubjectId,
    o: ObjectId,
    label: SecLabel,
) -> Result<(), AllocError>
    requires subject { IsTrue (is_subject state.now s) }
    requires object { IsTrue (is_active state.now o) }
    ensures { OnOk result (steps.new.items ≡ steps.old.items ++ holder_steps state.now o label s) }
{
    push_mode(steps, state, s, o, Mode::Execute, label)?;
    push_mode(steps, state, s, o, Mode::Read, label)?;
    push_mode(steps, state, s, o, Mode::Append, label)?;
    push_mode(steps, state, s, o, Mode::Write, label)
}

/// The releases of what is held of an object and doesn't fit a label of it.
fn holders_free(
    alloc: Global,
    state: &State,
    o: ObjectId,
    label: SecLabel,
) -> Result<Vec<Step>, AllocError>
    requires { IsTrue (is_active state.now o) }
    ensures { IfOk result
        (λ steps. steps.items ≡ flat_map (holder_steps state.now o label) (subjects_of state.now.accesses o)) }
{
    let mut steps = Vec::new(alloc);
    for s in state.subjects_of(o) {
        push_holder(&mut steps, state, *s, o, label)?;
    }
    Ok(steps)
}

/// The releases of what a subject holds and star refuses at a label.
fn level_free(
    alloc: Global,
    state: &State,
    s: SubjectId,
    level: SecLabel,
) -> Result<Vec<Step>, AllocError>
    requires { IsTrue (is_subject state.now s) }
    ensures { IfOk result (λ steps. steps.items
        ≡ map (release_step s) (failing_of_subject (DemandView.StarAtLevel s level) state.now s)) }
{
    let mut steps = Vec::new(alloc);
    let found = failing_of_subject(alloc, state, s, &Demand::StarAtLevel(s, level))?;
    let pushed = push_releases(&mut steps, s, &found);
    drop(found);
    pushed?;
    Ok(steps)
}

/// The releases of what stands in the way of an action.
pub(crate) fn ways_free(
    alloc: Global,
    state: &State,
    s: SubjectId,
    action: &Action,
) -> Result<Vec<Step>, AllocError>
    requires subject { IsTrue (is_subject state.now s) }
    requires names { IsTrue (names_known state.now action.now) }
    ensures { IfOk result (λ steps. steps.items ≡ ways_free state.now s action.now) }
{
    match action {
        Action::SubjectLevel(level) => level_free(alloc, state, s, *level),
        Action::ObjectLevel(o, label) => holders_free(alloc, state, *o, *label),
        _ => Ok(Vec::new(alloc)),
    }
}
