//! Accesses that the matrix doesn't permit, and that could be brought about.
ghost use Rattle.std.specs.Prelude.{◌≡◌, ◌∷◌, ◌++◌, [], Bool, IfOk, OnOk, filter};
ghost use Rattle.mls_tables.specs.Triples.{Triple};
ghost use Rattle.mls_could.specs.Brought.{accesses_to, accesses_by, is_lacking, AreBrought};
ghost use Rattle.mls_could.specs.Outsets.{acts_of, Decides, IsOutset};

use crate::outset::Outset;
use mls_rules::State;
use mls_state::discretionary_holds;
use mls_tables::{MAX_OBJECTS, Mode, ObjectId, SubjectId};
use std::alloc::{AllocError, Global};

/// Adds an access, where it isn't permitted and could be got.
fn push_mode(
    found: &mut Vec<(SubjectId, ObjectId, Mode)>,
    state: &State,
    outset: &Outset,
    s: SubjectId,
    o: ObjectId,
    x: Mode,
) -> Result<(), AllocError>
    requires { IsOutset state.now outset.now }
    ensures { OnOk result ((test : Triple → Bool) → Decides test state.now (acts_of outset.now)
        → found.new.items ≡ found.old.items ++ filter (is_lacking state.now test) ((s, o, x) ∷ [])) }
{
    if outset.could(state, s, o, x) && !discretionary_holds(state, s, o, x) {
        found.push((s, o, x))?;
    }
    Ok(())
}

/// Adds the accesses of a subject to an object that aren't permitted and could be got.
fn push_modes(
    found: &mut Vec<(SubjectId, ObjectId, Mode)>,
    state: &State,
    outset: &Outset,
    s: SubjectId,
    o: ObjectId,
) -> Result<(), AllocError>
    requires { IsOutset state.now outset.now }
    ensures { OnOk result ((test : Triple → Bool) → Decides test state.now (acts_of outset.now)
        → found.new.items ≡ found.old.items ++ filter (is_lacking state.now test) (accesses_to s o)) }
{
    push_mode(found, state, outset, s, o, Mode::Execute)?;
    push_mode(found, state, outset, s, o, Mode::Read)?;
    push_mode(found, state, outset, s, o, Mode::Append)?;
    push_mode(found, state, outset, s, o, Mode::Write)?;
    Ok(())
}

/// The same, quickly where no actor could give permissions of the object: it then has none.
fn push_object(
    found: &mut Vec<(SubjectId, ObjectId, Mode)>,
    state: &State,
    outset: &Outset,
    s: SubjectId,
    o: ObjectId,
) -> Result<(), AllocError>
    requires { IsOutset state.now outset.now }
    ensures { OnOk result ((test : Triple → Bool) → Decides test state.now (acts_of outset.now)
        → found.new.items ≡ found.old.items ++ filter (is_lacking state.now test) (accesses_to s o)) }
{
    state.agrees();
    if outset.could_give(o) {
        push_modes(found, state, outset, s, o)?;
    }
    Ok(())
}

/// Adds the accesses of a subject that aren't permitted and could be got.
fn push_subject(
    found: &mut Vec<(SubjectId, ObjectId, Mode)>,
    state: &State,
    outset: &Outset,
    s: SubjectId,
) -> Result<(), AllocError>
    requires { IsOutset state.now outset.now }
    ensures { OnOk result ((test : Triple → Bool) → Decides test state.now (acts_of outset.now)
        → found.new.items ≡ found.old.items ++ filter (is_lacking state.now test) (accesses_by s)) }
{
    for n in 0..MAX_OBJECTS {
        push_object(found, state, outset, s, ObjectId::new(n))?;
    }
    Ok(())
}

/// Just the accesses that the matrix doesn't permit and that the actors could get, by subject, object and mode.
///
/// # Errors
/// `AllocError` where an allocation failed.
pub fn brought(
    alloc: Global,
    state: &State,
    outset: &Outset,
) -> Result<Vec<(SubjectId, ObjectId, Mode)>, AllocError>
    requires { IsOutset state.now outset.now }
    ensures { IfOk result (λ found. AreBrought state.now (acts_of outset.now) found.items) }
{
    state.agrees();
    let mut found = Vec::new(alloc);
    for n in 0..state.subject_count() {
        push_subject(&mut found, state, outset, SubjectId::new(n))?;
    }
    Ok(found)
}
