//! The flows downwards that trusted subjects may make.
ghost use Rattle.std.specs.Prelude.{◌≡◌, ℕ, ◌+◌, ◌<◌, ◌≤◌, ◌^◌, IsTrue, IfOk, OnOk, All, Some, List, ◌++◌, length};
ghost use Rattle.std.specs.Prelude.{filter, slice_get};
ghost use Rattle.std.specs.FinMap as map;
ghost use Rattle.std.specs.List.{flat_map};
ghost use Rattle.std.specs.Option.{option_or};
ghost use Rattle.mls_tables.specs.declared.limits.TheConstants.{MAX_OBJECTS};
ghost use Rattle.mls_state.specs.State.{is_subject, is_active};
ghost use Rattle.mls_review.specs.Findings.{objects};
ghost use Rattle.mls_review.specs.Flows.{has_live, count_not_above, pairs_from, flow_of_pairs, flow_of};
ghost use Rattle.mls_review.specs.Flows.{flows_of, downflows};

use crate::counting::{Count, counted, is_not_above};
use crate::downflow::Downflow;
use crate::known::{objects, subjects};
use crate::live::has_live;
use mls_labels::SecLabel;
use mls_state::State;
use mls_tables::{Mode, ObjectId, SubjectId};
use std::alloc::{AllocError, Allocator, Global};

/// How many pairs of objects there are, and the first of them.
#[derive(Clone, Copy)]
struct Pairs {
    count: u32,
    first: Option<(ObjectId, ObjectId)>,
}

/// Those of some objects on which the subject has a permission, in this mode or to write, that isn't dead.
fn permitted<A: Allocator>(
    alloc: Global,
    state: &State<A>,
    s: SubjectId,
    objects: &[ObjectId],
    x: Mode,
) -> Result<Vec<ObjectId>, AllocError>
    requires subject { IsTrue (is_subject state.now s) }
    requires active { All (λ o. IsTrue (is_active state.now o)) objects.now }
    ensures list { IfOk result (λ found. found.items ≡ filter (has_live state.now s x) objects.now) }
    ensures active { IfOk result (λ found. All (λ o. IsTrue (is_active state.now o)) found.items) }
    ensures few { IfOk result (λ found. length found.items ≤ length objects.now) }
{
    let mut found = Vec::new(alloc);
    for o in objects {
        if has_live(state, s, *o, x) {
            found.push(*o)?;
        }
    }
    Ok(found)
}

/// The first pair of an object and one of those that are altered whose label doesn't dominate the object's.
fn first_from<A: Allocator>(
    state: &State<A>,
    altered: &[ObjectId],
    a: ObjectId,
    label: &SecLabel,
) -> Option<(ObjectId, ObjectId)>
    requires active { All (λ o. IsTrue (is_active state.now o)) altered.now }
    requires label { map.get state.now.object_label a ≡ Some label.now }
    ensures { result ≡ slice_get (pairs_from state.now altered.now a) 0 }
{
    for b in altered {
        if is_not_above(state, *b, label) {
            return Some((a, *b));
        }
    }
    None
}

/// The first pair so far, or else the first of one more object that is observed.
fn first_of<A: Allocator>(
    before: Option<(ObjectId, ObjectId)>,
    state: &State<A>,
    altered: &[ObjectId],
    a: ObjectId,
    label: &SecLabel,
) -> Option<(ObjectId, ObjectId)>
    requires active { All (λ o. IsTrue (is_active state.now o)) altered.now }
    requires label { map.get state.now.object_label a ≡ Some label.now }
    ensures { result ≡ option_or before (slice_get (pairs_from state.now altered.now a) 0) }
{
    if before.is_some() {
        return before;
    }
    first_from(state, altered, a, label)
}

/// Pairs, with those of one more object that is observed, which are so many.
#[tactic(auto, using(crate::proofs::Pairs::no_pairs))]
fn joined<A: Allocator>(
    before: Pairs,
    count: u32,
    state: &State<A>,
    altered: &[ObjectId],
    a: ObjectId,
    label: &SecLabel,
) -> Pairs
    requires active { All (λ o. IsTrue (is_active state.now o)) altered.now }
    requires label { map.get state.now.object_label a ≡ Some label.now }
    requires count { count ≡ count_not_above state.now altered.now label.now }
    requires room { before.count + count < 2 ^ 32 }
    ensures count { result.count ≡ before.count + count }
    ensures first { result.first ≡ option_or before.first (slice_get (pairs_from state.now altered.now a) 0) }
{
    if count == 0 {
        return before;
    }
    Pairs {
        count: before.count + count,
        first: first_of(before.first, state, altered, a, label),
    }
}

/// The pairs of the objects that are observed and those that are altered.
fn pairs_among<A: Allocator>(
    alloc: Global,
    state: &State<A>,
    observed: &[ObjectId],
    altered: &[ObjectId],
) -> Result<Pairs, AllocError>
    requires observed { All (λ o. IsTrue (is_active state.now o)) observed.now }
    requires altered { All (λ o. IsTrue (is_active state.now o)) altered.now }
    requires few_observed { length observed.now ≤ MAX_OBJECTS }
    requires few_altered { length altered.now ≤ MAX_OBJECTS }
    ensures count { IfOk result (λ p. p.count ≡ length (flat_map (pairs_from state.now altered.now) observed.now)) }
    ensures first { IfOk result
        (λ p. p.first ≡ slice_get (flat_map (pairs_from state.now altered.now) observed.now) 0) }
{
    let mut counts = Vec::new(alloc);
    let mut found = Pairs {
        count: 0,
        first: None,
    };
    for a in observed {
        let label = state.object_label(*a);
        let count = counted(&mut counts, state, label, altered)?;
        found = joined(found, count, state, altered, *a, &label);
    }
    Ok(found)
}

/// The finding of pairs.
fn flow_from(s: SubjectId, pairs: Pairs) -> Option<Downflow>
    ensures { (all : List (ℕ × ℕ)) → pairs.count ≡ length all → pairs.first ≡ slice_get all 0
        → result ≡ flow_of_pairs s all }
{
    match pairs.first {
        None => None,
        Some((from, to)) => Some(Downflow {
            subject: s,
            pairs: pairs.count,
            from,
            to,
        }),
    }
}

/// The flow downwards that the permissions of a subject allow, where it is trusted and has such pairs.
fn flow_of<A: Allocator>(
    alloc: Global,
    state: &State<A>,
    s: SubjectId,
    all: &[ObjectId],
) -> Result<Option<Downflow>, AllocError>
    requires subject { IsTrue (is_subject state.now s) }
    requires objects { all.now ≡ objects state.now }
    requires active { All (λ o. IsTrue (is_active state.now o)) all.now }
    requires few { length all.now ≤ MAX_OBJECTS }
    ensures { IfOk result (λ flow. flow ≡ flow_of state.now s) }
{
    if !state.is_trusted(s) {
        return Ok(None);
    }
    let observed = permitted(alloc, state, s, all, Mode::Read)?;
    let altered = permitted(alloc, state, s, all, Mode::Append)?;
    let pairs = pairs_among(alloc, state, &observed, &altered);
    drop(altered);
    drop(observed);
    Ok(flow_from(s, pairs?))
}

/// Adds the flow downwards of a subject, where there is one.
fn push_flow<A: Allocator>(
    alloc: Global,
    found: &mut Vec<Downflow>,
    state: &State<A>,
    s: SubjectId,
    all: &[ObjectId],
) -> Result<(), AllocError>
    requires subject { IsTrue (is_subject state.now s) }
    requires objects { all.now ≡ objects state.now }
    requires active { All (λ o. IsTrue (is_active state.now o)) all.now }
    requires few { length all.now ≤ MAX_OBJECTS }
    ensures { OnOk result (found.new.items ≡ found.old.items ++ flows_of state.now s) }
{
    if let Some(flow) = flow_of(alloc, state, s, all)? {
        found.push(flow)?;
    }
    Ok(())
}

/// The flows downwards of some subjects.
fn flows_among<A: Allocator>(
    alloc: Global,
    state: &State<A>,
    subjects: &[SubjectId],
    all: &[ObjectId],
) -> Result<Vec<Downflow>, AllocError>
    requires subjects { All (λ s. IsTrue (is_subject state.now s)) subjects.now }
    requires objects { all.now ≡ objects state.now }
    requires active { All (λ o. IsTrue (is_active state.now o)) all.now }
    requires few { length all.now ≤ MAX_OBJECTS }
    ensures { IfOk result (λ found. found.items ≡ flat_map (flows_of state.now) subjects.now) }
{
    let mut found = Vec::new(alloc);
    for s in subjects {
        push_flow(alloc, &mut found, state, *s, all)?;
    }
    Ok(found)
}

/// Just the trusted subjects whose permissions of use allow a flow downwards, by number, each with how many pairs of
/// objects it may flow between, and the first of them. It takes time as the objects times the distinct labels of those
/// that a subject observes, for each trusted subject.
///
/// # Errors
/// `AllocError` where an allocation failed.
pub fn downflows<A: Allocator>(alloc: Global, state: &State<A>) -> Result<Vec<Downflow>, AllocError>
    ensures { IfOk result (λ found. found.items ≡ downflows state.now) }
{
    let subjects = subjects(alloc, state)?;
    let objects = objects(alloc, state)?;
    flows_among(alloc, state, &subjects, &objects)
}
