//! The accesses in the way of a change of levels.
ghost use Rattle.std.specs.Prelude.{◌≡◌, ◌++◌, IsTrue, IfOk, OnOk, not, if◌then◌else◌, ◌&&◌, ◌∷◌, []};
ghost use Rattle.std.specs.FinSet as set;
ghost use Rattle.mls_state.specs.State.{is_subject, is_active};
ghost use Rattle.mls_explain.specs.Demands.{meets, failing_at, failing_of_subject, failing_of_object};

use crate::demand::Demand;
use mls_state::State;
use mls_tables::{Mode, ObjectId, SubjectId};
use std::alloc::{AllocError, Allocator};

/// Adds an access that is held and doesn't meet the demand.
fn push_failing<B: Allocator, A: Allocator>(
    found: &mut Vec<(SubjectId, ObjectId, Mode), B>,
    state: &State<A>,
    s: SubjectId,
    o: ObjectId,
    x: Mode,
    demand: &Demand,
) -> Result<(), AllocError>
    requires subject { IsTrue (is_subject state.now s) }
    requires object { IsTrue (is_active state.now o) }
    ensures { OnOk result (found.new.items ≡ found.old.items
        ++ (if set.contains state.now.accesses (s, o, x) && not (meets demand.now state.now (s, o, x))
        then (s, o, x) ∷ [] else [])) }
{
    if state.has_access(s, o, x) && !demand.is_met(state, s, o, x) {
        found.push((s, o, x))?;
    }
    Ok(())
}

/// Adds the accesses of a subject to an object that don't meet the demand.
fn push_cell<B: Allocator, A: Allocator>(
    found: &mut Vec<(SubjectId, ObjectId, Mode), B>,
    state: &State<A>,
    s: SubjectId,
    o: ObjectId,
    demand: &Demand,
) -> Result<(), AllocError>
    requires subject { IsTrue (is_subject state.now s) }
    requires object { IsTrue (is_active state.now o) }
    ensures { OnOk result (found.new.items ≡ found.old.items ++ failing_at demand.now state.now s o) }
{
    push_failing(found, state, s, o, Mode::Execute, demand)?;
    push_failing(found, state, s, o, Mode::Read, demand)?;
    push_failing(found, state, s, o, Mode::Append, demand)?;
    push_failing(found, state, s, o, Mode::Write, demand)?;
    Ok(())
}

/// The accesses of a known subject that don't meet the demand, in the order of objects and modes.
///
/// # Errors
/// `AllocError` where an allocation failed.
pub fn failing_of_subject<B: Allocator, A: Allocator>(
    alloc: B,
    state: &State<A>,
    s: SubjectId,
    demand: &Demand,
) -> Result<Vec<(SubjectId, ObjectId, Mode), B>, AllocError>
    requires { IsTrue (is_subject state.now s) }
    ensures { IfOk result (λ found. found.items ≡ failing_of_subject demand.now state.now s) }
{
    let mut found = Vec::new(alloc);
    for o in state.objects_of(s) {
        push_cell(&mut found, state, s, *o, demand)?;
    }
    Ok(found)
}

/// The accesses to an active object that don't meet the demand, in the order of subjects and modes.
///
/// # Errors
/// `AllocError` where an allocation failed.
pub fn failing_of_object<B: Allocator, A: Allocator>(
    alloc: B,
    state: &State<A>,
    o: ObjectId,
    demand: &Demand,
) -> Result<Vec<(SubjectId, ObjectId, Mode), B>, AllocError>
    requires { IsTrue (is_active state.now o) }
    ensures { IfOk result (λ found. found.items ≡ failing_of_object demand.now state.now o) }
{
    let mut found = Vec::new(alloc);
    for s in state.subjects_of(o) {
        push_cell(&mut found, state, *s, o, demand)?;
    }
    Ok(found)
}
