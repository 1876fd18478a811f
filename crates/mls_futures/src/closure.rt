//! The closure, decided for one access: from the object up to the root.
ghost use Rattle.std.specs.Prelude.{◌≡◌, ◌↔◌, ℕ, IsTrue};
ghost use Rattle.std.specs.FinSet as set;
ghost use Rattle.mls_tables.specs.declared.mode.Mode.TheVariants.{Write};
ghost use Rattle.mls_state.specs.State.{is_subject, is_active};
ghost use Rattle.mls_futures.specs.Closure.{acts_in, HasTrusted, Qualifies, CouldGet, CouldGive, IsGivable};

use crate::actors::{acts, has_trusted};
use mls_state::{State, discretionary_holds, integrity_holds, simple_holds};
use mls_tables::{MAX_OBJECTS, Mode, ObjectId, SubjectId};
use std::alloc::Allocator;

/// Whether nothing but a permission keeps the subject from the access, whatever the actors do.
pub fn qualifies<A: Allocator>(
    state: &State<A>,
    actors: &[bool],
    trusted: bool,
    s: SubjectId,
    o: ObjectId,
    x: Mode,
) -> bool
    requires subject { IsTrue (is_subject state.now s) }
    requires object { IsTrue (is_active state.now o) }
    requires trusted { IsTrue trusted ↔ HasTrusted state.now (acts_in actors.now) }
    ensures { IsTrue result ↔ Qualifies state.now (acts_in actors.now) s o x }
{
    acts(actors, s) && integrity_holds(state, s, o, x) && (trusted || simple_holds(state, s, o, x))
}

/// Whether an actor qualifies for write of the object.
fn has_writer<A: Allocator>(state: &State<A>, actors: &[bool], trusted: bool, o: ObjectId) -> bool
    requires object { IsTrue (is_active state.now o) }
    requires trusted { IsTrue trusted ↔ HasTrusted state.now (acts_in actors.now) }
    ensures { IsTrue result ↔ ((s : ℕ) × Qualifies state.now (acts_in actors.now) s o Write) }
{
    for n in 0..state.subject_count() {
        if qualifies(state, actors, trusted, SubjectId::new(n), o, Mode::Write) {
            return true;
        }
    }
    false
}

/// Whether the subject qualifies for write of the object, and is permitted it.
fn is_permitted_writer<A: Allocator>(
    state: &State<A>,
    actors: &[bool],
    trusted: bool,
    s: SubjectId,
    o: ObjectId,
) -> bool
    requires subject { IsTrue (is_subject state.now s) }
    requires object { IsTrue (is_active state.now o) }
    requires trusted { IsTrue trusted ↔ HasTrusted state.now (acts_in actors.now) }
    ensures { IsTrue result ↔ (IsTrue (set.contains state.now.matrix (s, o, Write))
        × Qualifies state.now (acts_in actors.now) s o Write) }
{
    discretionary_holds(state, s, o, Mode::Write)
        && qualifies(state, actors, trusted, s, o, Mode::Write)
}

/// Whether an actor qualifies for write of the object, and is permitted it.
fn has_permitted_writer<A: Allocator>(
    state: &State<A>,
    actors: &[bool],
    trusted: bool,
    o: ObjectId,
) -> bool
    requires object { IsTrue (is_active state.now o) }
    requires trusted { IsTrue trusted ↔ HasTrusted state.now (acts_in actors.now) }
    ensures { IsTrue result ↔ ((s : ℕ) × IsTrue (set.contains state.now.matrix (s, o, Write))
        × Qualifies state.now (acts_in actors.now) s o Write) }
{
    for n in 0..state.subject_count() {
        if is_permitted_writer(state, actors, trusted, SubjectId::new(n), o) {
            return true;
        }
    }
    false
}

/// Whether an actor could give permissions of the object, where the answer is known for the objects of the first
/// numbers. It goes up from the object, at most to the root or to an object of these, and looks at each subject at most
/// twice for each object on the way.
pub(crate) fn could_give_above<A: Allocator>(
    state: &State<A>,
    actors: &[bool],
    trusted: bool,
    known: &[bool],
    o: ObjectId,
) -> bool
    requires object { IsTrue (is_active state.now o) }
    requires trusted { IsTrue trusted ↔ HasTrusted state.now (acts_in actors.now) }
    requires known { IsGivable state.now (acts_in actors.now) known.now }
    ensures { IsTrue result ↔ CouldGive state.now (acts_in actors.now) o }
{
    state.agrees();
    let mut at = o;
    for step in 0..MAX_OBJECTS {
        if let Some(open) = known.get(at.number() as usize) {
            return *open;
        }
        match state.parent(at) {
            None => return trusted,
            Some(parent) => {
                if has_permitted_writer(state, actors, trusted, parent) {
                    return true;
                }
                if !has_writer(state, actors, trusted, parent) {
                    return false;
                }
                at = parent;
            }
        }
    }
    trusted
}

/// Whether an actor could give permissions of the object. It goes up from the object, at most to the root.
pub fn could_give<A: Allocator>(
    state: &State<A>,
    actors: &[bool],
    trusted: bool,
    o: ObjectId,
) -> bool
    requires object { IsTrue (is_active state.now o) }
    requires trusted { IsTrue trusted ↔ HasTrusted state.now (acts_in actors.now) }
    ensures { IsTrue result ↔ CouldGive state.now (acts_in actors.now) o }
{
    could_give_above(state, actors, trusted, &[], o)
}

/// Whether an actor could get the access, by the closure, where it is known whether an actor is trusted, and whether
/// one could give permissions of the object.
pub fn could_get_where<A: Allocator>(
    state: &State<A>,
    actors: &[bool],
    trusted: bool,
    gives: bool,
    s: SubjectId,
    o: ObjectId,
    x: Mode,
) -> bool
    requires subject { IsTrue (is_subject state.now s) }
    requires object { IsTrue (is_active state.now o) }
    requires trusted { IsTrue trusted ↔ HasTrusted state.now (acts_in actors.now) }
    requires gives { IsTrue gives ↔ CouldGive state.now (acts_in actors.now) o }
    ensures { IsTrue result ↔ CouldGet state.now (acts_in actors.now) s o x }
{
    qualifies(state, actors, trusted, s, o, x) && (discretionary_holds(state, s, o, x) || gives)
}

/// Whether an actor could get the access, by the closure.
pub fn could_get<A: Allocator>(
    state: &State<A>,
    actors: &[bool],
    s: SubjectId,
    o: ObjectId,
    x: Mode,
) -> bool
    requires subject { IsTrue (is_subject state.now s) }
    requires object { IsTrue (is_active state.now o) }
    ensures { IsTrue result ↔ CouldGet state.now (acts_in actors.now) s o x }
{
    let trusted = has_trusted(state, actors);
    qualifies(state, actors, trusted, s, o, x)
        && (discretionary_holds(state, s, o, x) || could_give(state, actors, trusted, o))
}
