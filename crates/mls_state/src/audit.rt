//! The audit: whether a state is secure, looked at from scratch.
ghost use Rattle.std.specs.Prelude.{◌≡◌, ◌↔◌, ◌||◌, not, IsTrue};
ghost use Rattle.std.specs.FinSet as set;
ghost use Rattle.mls_tables.specs.Triples.{Triple};
ghost use Rattle.mls_tables.specs.Held.{each_mode};
ghost use Rattle.mls_state.specs.State.{is_subject, is_active};
ghost use Rattle.mls_state.specs.Properties.{IsSecure, HasTree, Each};
ghost use Rattle.mls_state.specs.Audit.{access_holds, fits_parent, ceiling_holds, EachObject, EachSubject};

use crate::conditions::{discretionary_holds, integrity_holds, simple_holds, star_holds};
use crate::state::State;
use mls_tables::{Mode, Modes, ObjectId, SubjectId};
use std::alloc::Allocator;

/// Whether a current access meets all properties that speak of accesses.
// (out of line, so that a mode that isn't held costs no call)
#[inline(never)]
fn access_holds<A: Allocator>(state: &State<A>, s: SubjectId, o: ObjectId, x: Mode) -> bool
    requires subject { IsTrue (is_subject state.now s) }
    requires object { IsTrue (is_active state.now o) }
    ensures { result ≡ access_holds state.now (s, o, x) }
{
    discretionary_holds(state, s, o, x)
        && simple_holds(state, s, o, x)
        && star_holds(state, s, o, x)
        && integrity_holds(state, s, o, x)
}

/// Whether an access does, where the mode is one of these.
fn mode_holds<A: Allocator>(
    state: &State<A>,
    modes: Modes,
    s: SubjectId,
    o: ObjectId,
    x: Mode,
) -> bool
    requires subject { IsTrue (is_subject state.now s) }
    requires object { IsTrue (is_active state.now o) }
    ensures { result ≡ (not (set.contains modes x) || access_holds state.now (s, o, x)) }
{
    !modes.has(x) || access_holds(state, s, o, x)
}

/// Whether the accesses of a subject to an object do.
fn cell_holds<A: Allocator>(state: &State<A>, s: SubjectId, o: ObjectId) -> bool
    requires subject { IsTrue (is_subject state.now s) }
    requires object { IsTrue (is_active state.now o) }
    ensures { result ≡ each_mode state.now.accesses s o (access_holds state.now) }
{
    let modes = state.accesses(s, o);
    mode_holds(state, modes, s, o, Mode::Execute)
        && (mode_holds(state, modes, s, o, Mode::Read)
            && (mode_holds(state, modes, s, o, Mode::Append)
                && mode_holds(state, modes, s, o, Mode::Write)))
}

/// Whether all accesses of a subject do.
fn row_holds<A: Allocator>(state: &State<A>, s: SubjectId) -> bool
    requires { IsTrue (is_subject state.now s) }
    ensures { IsTrue result
        ↔ ((t : Triple) → IsTrue (set.contains state.now.accesses t) → t.0 ≡ s → IsTrue (access_holds state.now t)) }
{
    for o in state.objects_of(s) {
        if !cell_holds(state, s, *o) {
            return false;
        }
    }
    true
}

/// Whether all current accesses do.
fn accesses_hold<A: Allocator>(state: &State<A>) -> bool
    ensures { IsTrue result ↔ Each state.now.accesses (access_holds state.now) }
{
    state.agrees();
    for n in 0..state.subject_count() {
        if !row_holds(state, SubjectId::new(n)) {
            return false;
        }
    }
    true
}

/// Whether an object is compatible with its parent. What isn't active has none, and is.
fn fits_parent<A: Allocator>(state: &State<A>, o: ObjectId) -> bool
    requires { HasTree state.now }
    ensures { result ≡ fits_parent state.now o }
{
    if !state.is_active(o) {
        return true;
    }
    match state.parent(o) {
        Some(p) => {
            let (child, parent) = (state.labels(o), state.labels(p));
            child.security.dominates(&parent.security)
                && parent.integrity.dominates(&child.integrity)
        }
        None => true,
    }
}

/// Whether all objects are compatible with their parents.
fn objects_fit<A: Allocator>(state: &State<A>) -> bool
    ensures { IsTrue result ↔ EachObject state.now (fits_parent state.now) }
{
    state.agrees();
    for n in 0..state.places() {
        if !fits_parent(state, ObjectId::new(n)) {
            return false;
        }
    }
    true
}

/// Whether the maximum labels of all subjects dominate their current ones.
fn ceilings_hold<A: Allocator>(state: &State<A>) -> bool
    ensures { IsTrue result ↔ EachSubject state.now (ceiling_holds state.now) }
{
    for n in 0..state.subject_count() {
        let subject = state.subject(SubjectId::new(n));
        if !subject.maximum.dominates(&subject.current) {
            return false;
        }
    }
    true
}

/// Whether the state is secure: whether all properties hold, each looked at anew. It goes once over the objects of each
/// subject, once over the object numbers that were used and once over the subjects, and doesn't allocate. That the
/// objects are a tree and the tables agree is so of every state.
pub fn is_secure<A: Allocator>(state: &State<A>) -> bool
    ensures secure { IsTrue result → IsSecure state.now }
    ensures exact { IsSecure state.now → IsTrue result }
{
    state.agrees();
    accesses_hold(state) && objects_fit(state) && ceilings_hold(state)
}
