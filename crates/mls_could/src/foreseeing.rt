//! What becomes of the accesses to an object.
ghost use Rattle.std.specs.Prelude.{◌≡◌, ◌↔◌, ◌++◌, ℕ, All, IsTrue, IfOk, None, OnOk, [], ◌∷◌, nat_lt};
ghost use Rattle.mls_state.specs.State.{is_subject, is_active};
ghost use Rattle.mls_state.specs.Properties.{IsSecure};
ghost use Rattle.mls_futures.specs.Closure.{acts_in, HasTrusted, CouldGive};
ghost use Rattle.mls_could.specs.Foreseeing.{IsSo, IsForeseen, pairs_with, all_pairs, pairs_of};

use crate::foreseen::Foreseen;
use crate::future::Future;
use mls_futures::{
    could_get_where, could_give, has_trusted, no_future_has_what_the_closure_has_not,
    what_the_closure_has_comes_about,
};
use mls_rules::State;
use mls_tables::{Mode, ObjectId, SubjectId};
use std::alloc::{AllocError, Global};

/// What is known of an object beforehand: whether an actor is trusted, and whether one could give permissions of it.
#[derive(Clone, Copy)]
pub(crate) struct Known {
    pub trusted: bool,
    pub gives: bool,
}

/// What is known of an active object.
pub(crate) fn known_of(state: &State, actors: &[bool], o: ObjectId) -> Known
    requires { IsTrue (is_active state.now o) }
    ensures trusted { IsTrue result.trusted ↔ HasTrusted state.now (acts_in actors.now) }
    ensures gives { IsTrue result.gives ↔ CouldGive state.now (acts_in actors.now) o }
{
    let trusted = has_trusted(state, actors);
    Known {
        trusted,
        gives: could_give(state, actors, trusted, o),
    }
}

/// What becomes of an access in a secure state.
fn future_of(
    state: &State,
    actors: &[bool],
    known: Known,
    s: SubjectId,
    o: ObjectId,
    x: Mode,
) -> Future
    requires secure { IsSecure state.now }
    requires subject { IsTrue (is_subject state.now s) }
    requires object { IsTrue (is_active state.now o) }
    requires trusted { IsTrue known.trusted ↔ HasTrusted state.now (acts_in actors.now) }
    requires gives { IsTrue known.gives ↔ CouldGive state.now (acts_in actors.now) o }
    ensures { IsSo state.now (acts_in actors.now) (s, o, x) result }
{
    state.agrees();
    no_future_has_what_the_closure_has_not();
    what_the_closure_has_comes_about();
    if state.has_access(s, o, x) {
        return Future::Held;
    }
    if could_get_where(state, actors, known.trusted, known.gives, s, o, x) {
        Future::Could
    } else {
        Future::Never
    }
}

/// Adds what becomes of a subject's access in a mode.
fn push_mode(
    found: &mut Vec<Foreseen>,
    state: &State,
    actors: &[bool],
    known: Known,
    s: SubjectId,
    o: ObjectId,
    x: Mode,
) -> Result<(), AllocError>
    requires secure { IsSecure state.now }
    requires subject { IsTrue (is_subject state.now s) }
    requires object { IsTrue (is_active state.now o) }
    requires trusted { IsTrue known.trusted ↔ HasTrusted state.now (acts_in actors.now) }
    requires gives { IsTrue known.gives ↔ CouldGive state.now (acts_in actors.now) o }
    requires each { All (IsForeseen state.now (acts_in actors.now) o) found.old.items }
    ensures pairs { OnOk result (pairs_of found.new.items ≡ pairs_of found.old.items ++ (s, x) ∷ []) }
    ensures each { All (IsForeseen state.now (acts_in actors.now) o) found.new.items }
{
    let future = future_of(state, actors, known, s, o, x);
    found.push(Foreseen {
        subject: s,
        mode: x,
        future,
    })?;
    Ok(())
}

/// Adds what becomes of a subject's accesses to the object in all modes.
fn push_all(
    found: &mut Vec<Foreseen>,
    state: &State,
    actors: &[bool],
    known: Known,
    s: SubjectId,
    o: ObjectId,
) -> Result<(), AllocError>
    requires secure { IsSecure state.now }
    requires subject { IsTrue (is_subject state.now s) }
    requires object { IsTrue (is_active state.now o) }
    requires trusted { IsTrue known.trusted ↔ HasTrusted state.now (acts_in actors.now) }
    requires gives { IsTrue known.gives ↔ CouldGive state.now (acts_in actors.now) o }
    requires each { All (IsForeseen state.now (acts_in actors.now) o) found.old.items }
    ensures pairs { OnOk result (pairs_of found.new.items ≡ pairs_of found.old.items ++ pairs_with None s) }
    ensures each { All (IsForeseen state.now (acts_in actors.now) o) found.new.items }
{
    push_mode(found, state, actors, known, s, o, Mode::Execute)?;
    push_mode(found, state, actors, known, s, o, Mode::Read)?;
    push_mode(found, state, actors, known, s, o, Mode::Append)?;
    push_mode(found, state, actors, known, s, o, Mode::Write)?;
    Ok(())
}

/// Adds what becomes of a subject's accesses to the object in the mode that is asked for, or in all.
fn push_subject(
    found: &mut Vec<Foreseen>,
    state: &State,
    actors: &[bool],
    known: Known,
    s: SubjectId,
    o: ObjectId,
    mode: Option<Mode>,
) -> Result<(), AllocError>
    requires secure { IsSecure state.now }
    requires subject { IsTrue (is_subject state.now s) }
    requires object { IsTrue (is_active state.now o) }
    requires trusted { IsTrue known.trusted ↔ HasTrusted state.now (acts_in actors.now) }
    requires gives { IsTrue known.gives ↔ CouldGive state.now (acts_in actors.now) o }
    requires each { All (IsForeseen state.now (acts_in actors.now) o) found.old.items }
    ensures pairs { OnOk result (pairs_of found.new.items ≡ pairs_of found.old.items ++ pairs_with mode s) }
    ensures each { All (IsForeseen state.now (acts_in actors.now) o) found.new.items }
{
    match mode {
        Some(x) => push_mode(found, state, actors, known, s, o, x),
        None => push_all(found, state, actors, known, s, o),
    }
}

/// What becomes of the accesses to an active object of a secure state: of just the pairs of a subject and a mode that
/// is asked for, or any, by subject and mode. Whether an actor could give permissions is looked for once, from the
/// object up to the root.
///
/// # Errors
/// `AllocError` where an allocation failed.
pub(crate) fn foresee(
    alloc: Global,
    state: &State,
    actors: &[bool],
    o: ObjectId,
    mode: Option<Mode>,
) -> Result<Vec<Foreseen>, AllocError>
    requires secure { IsSecure state.now }
    requires object { IsTrue (is_active state.now o) }
    ensures pairs { IfOk result (λ found. (count : ℕ) → ((s : ℕ) → is_subject state.now s ≡ nat_lt s count)
        → pairs_of found.items ≡ all_pairs mode count) }
    ensures each { IfOk result (λ found. All (IsForeseen state.now (acts_in actors.now) o) found.items) }
{
    let known = known_of(state, actors, o);
    let mut found = Vec::new(alloc);
    for n in 0..state.subject_count() {
        push_subject(&mut found, state, actors, known, SubjectId::new(n), o, mode)?;
    }
    Ok(found)
}
