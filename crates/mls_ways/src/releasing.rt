//! Releases of all that is held.
ghost use Rattle.std.specs.Prelude.{◌≡◌, ◌==◌, ℕ, All, IsTrue, OnOk, false};
ghost use Rattle.std.specs.FinSet as set;
ghost use Rattle.std.specs.List.{list_any};
ghost use Rattle.mls_state.specs.State.{is_subject, is_active};
ghost use Rattle.mls_futures.specs.Futures.{HoldsNothing};
ghost use Rattle.mls_ways.specs.Releases.{IsFree, Releases};

use crate::asking::ask;
use mls_rules::{Action, Request, State};
use mls_tables::{Mode, ObjectId, SubjectId};
use std::alloc::{AllocError, Global};

/// Releases an access, where it is held.
fn release_mode(
    state: &mut State,
    script: &mut Vec<Request>,
    s: SubjectId,
    o: ObjectId,
    x: Mode,
) -> Result<(), AllocError>
    requires subject { IsTrue (is_subject state.old s) }
    requires object { IsTrue (is_active state.old o) }
    ensures releases { OnOk result (Releases state.old state.new script.old.items script.new.items) }
    ensures free { OnOk result (set.contains state.new.accesses (s, o, x) ≡ false) }
{
    if !state.has_access(s, o, x) {
        return Ok(());
    }
    ask(state, script, s, Action::Release(x, o))?;
    Ok(())
}

/// Releases what a subject holds of an object.
fn release_object(
    state: &mut State,
    script: &mut Vec<Request>,
    s: SubjectId,
    o: ObjectId,
) -> Result<(), AllocError>
    requires subject { IsTrue (is_subject state.old s) }
    requires object { IsTrue (is_active state.old o) }
    ensures releases { OnOk result (Releases state.old state.new script.old.items script.new.items) }
    ensures free { OnOk result (IsFree state.new s o) }
{
    release_mode(state, script, s, o, Mode::Execute)?;
    release_mode(state, script, s, o, Mode::Read)?;
    release_mode(state, script, s, o, Mode::Append)?;
    release_mode(state, script, s, o, Mode::Write)?;
    Ok(())
}

/// Releases what a subject holds of some objects.
fn release_objects(
    state: &mut State,
    script: &mut Vec<Request>,
    s: SubjectId,
    objects: &[ObjectId],
) -> Result<(), AllocError>
    requires subject { IsTrue (is_subject state.old s) }
    requires objects { All (λ o. IsTrue (is_active state.old o)) objects.now }
    ensures releases { OnOk result (Releases state.old state.new script.old.items script.new.items) }
    ensures free { OnOk result
        ((o : ℕ) → IsTrue (list_any (λ a. o == a) objects.now) → IsFree state.new s o) }
{
    for o in objects {
        release_object(state, script, s, *o)?;
    }
    Ok(())
}

/// Releases all that a subject holds.
fn release_subject(
    alloc: Global,
    state: &mut State,
    script: &mut Vec<Request>,
    s: SubjectId,
) -> Result<(), AllocError>
    requires { IsTrue (is_subject state.old s) }
    ensures releases { OnOk result (Releases state.old state.new script.old.items script.new.items) }
    ensures free { OnOk result ((o : ℕ) → IsFree state.new s o) }
{
    let objects = Vec::from_slice(alloc, state.objects_of(s))?;
    let done = release_objects(state, script, s, &objects);
    drop(objects);
    done
}

/// Releases all that is held, by whomever: by subject, then by object, then by mode.
///
/// # Errors
/// `AllocError` where an allocation failed; some releases may have been made and added then.
pub fn release_all(
    alloc: Global,
    state: &mut State,
    script: &mut Vec<Request>,
) -> Result<(), AllocError>
    ensures releases { OnOk result (Releases state.old state.new script.old.items script.new.items) }
    ensures nothing { OnOk result (HoldsNothing state.new) }
{
    state.agrees();
    for n in 0..state.subject_count() {
        release_subject(alloc, state, script, SubjectId::new(n))?;
    }
    Ok(())
}
