//! The hands of a way, as they are told.
ghost use Rattle.std.specs.Prelude.{◌≡◌, IfOk};
ghost use Rattle.mls_flow_text.specs.Steps.{behind, is_down, is_falling, step_of, steps_of};

use crate::step::Step;
use mls_flows::Place;
use mls_paths::Hop;
use mls_rules::State;
use mls_tables::ObjectId;
use std::alloc::{AllocError, Global};

/// Whether the label of an object doesn't dominate that of another one.
fn is_falling(state: &State, before: ObjectId, o: ObjectId) -> bool
    ensures { result ≡ is_falling state.now before o }
{
    state.agrees();
    if !state.is_active(o) {
        return true;
    }
    if !state.is_active(before) {
        return true;
    }
    !state.object_label(o).dominates(&state.object_label(before))
}

/// Whether a place is an object whose label doesn't dominate that of the object before.
fn is_down(state: &State, before: ObjectId, place: &Place) -> bool
    ensures { result ≡ is_down state.now before place.now }
{
    match *place {
        Place::Subject(_) => false,
        Place::Object(o) => is_falling(state, before, o),
    }
}

/// The object before the place behind this one.
fn behind(before: ObjectId, place: &Place) -> ObjectId
    ensures { result ≡ behind before place.now }
{
    match *place {
        Place::Subject(_) => before,
        Place::Object(o) => o,
    }
}

/// A hop as it is told, where this is the object before.
fn step_of(state: &State, before: ObjectId, hop: &Hop) -> Step
    ensures { result ≡ step_of state.now before hop.now }
{
    Step {
        hand: hop.hand,
        place: hop.place,
        down: is_down(state, before, &hop.place),
    }
}

/// The hops of a way from an object, as they are told.
///
/// # Errors
/// `AllocError` where an allocation failed.
pub(crate) fn steps_of(
    alloc: Global,
    state: &State,
    from: ObjectId,
    hops: &[Hop],
) -> Result<Vec<Step>, AllocError>
    ensures { IfOk result (λ steps. steps.items ≡ steps_of state.now from hops.now) }
{
    let mut steps = Vec::new(alloc);
    let mut before = from;
    for hop in hops {
        steps.push(step_of(state, before, hop))?;
        before = behind(before, &hop.place);
    }
    Ok(steps)
}
