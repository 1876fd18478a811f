//! What a get that is permitted takes of its subject.
ghost use Rattle.std.specs.Prelude.{◌≡◌, ◌++◌, [], map, IfOk, OnOk};
ghost use Rattle.mls_explain.specs.Ways.{IsWay, releases_for};
ghost use Rattle.mls_remedies.specs.Gets.{release_step, level_steps, way_steps, way_ending, IsOwn};

use crate::ending::Ending;
use crate::pushing::push_own;
use crate::remedy::Remedy;
use crate::step::Step;
use mls_explain::{Way, releases, way_of};
use mls_requests::Action;
use mls_rules::State;
use mls_tables::{Mode, ObjectId, SubjectId};
use std::alloc::{AllocError, Global};

/// Adds the releases of a subject's accesses.
pub(crate) fn push_releases(
    steps: &mut Vec<Step>,
    s: SubjectId,
    accesses: &[(SubjectId, ObjectId, Mode)],
) -> Result<(), AllocError>
    ensures { OnOk result (steps.new.items ≡ steps.old.items ++ map (release_step s) accesses.now) }
{
    for access in accesses {
        push_own(steps, s, Action::Release(access.2, access.1))?;
    }
    Ok(())
}

/// Adds the level of a way.
fn push_level(steps: &mut Vec<Step>, s: SubjectId, way: &Way) -> Result<(), AllocError>
    ensures { OnOk result (steps.new.items ≡ steps.old.items ++ level_steps s way.now) }
{
    match way {
        Way::Level(level) | Way::Released(level) => {
            push_own(steps, s, Action::SubjectLevel(*level))
        }
        Way::Never => Ok(()),
    }
}

/// Adds the steps of a way.
fn push_way(
    alloc: Global,
    steps: &mut Vec<Step>,
    state: &State,
    s: SubjectId,
    way: &Way,
) -> Result<(), AllocError>
    ensures { OnOk result (steps.new.items ≡ steps.old.items ++ way_steps state.now s way.now) }
{
    let released = releases(alloc, state, s, way)?;
    let pushed = push_releases(steps, s, &released);
    drop(released);
    pushed?;
    push_level(steps, s, way)
}

/// What the steps of a way lead to.
fn way_ending(way: &Way) -> Ending
    ensures { result ≡ way_ending way.now }
{
    match way {
        Way::Level(_) | Way::Released(_) => Ending::Asked,
        Way::Never => Ending::NoLevel,
    }
}

/// The remedy that is a way.
fn by_way(alloc: Global, state: &State, s: SubjectId, way: &Way) -> Result<Remedy, AllocError>
    ensures steps { IfOk result (λ remedy. remedy.steps.items ≡ way_steps state.now s way.now) }
    ensures ending { IfOk result (λ remedy. remedy.ending ≡ way_ending way.now) }
{
    let mut steps = Vec::new(alloc);
    push_way(alloc, &mut steps, state, s, way)?;
    let ending = way_ending(way);
    Ok(Remedy { steps, ending })
}

/// The remedy of a get that the matrix permits: releases and a level of its subject, or nothing.
pub(crate) fn own_remedy(
    alloc: Global,
    state: &State,
    s: SubjectId,
    o: ObjectId,
    x: Mode,
) -> Result<Remedy, AllocError>
    ensures { IfOk result (λ remedy. IsOwn state.now s o x remedy.steps.items remedy.ending) }
{
    let way = way_of(state, s, o, x);
    by_way(alloc, state, s, &way)
}
