//! Who gives a permission.
ghost use Rattle.std.specs.Prelude.{◌≡◌, ◌↔◌, ℕ, IsTrue, MatchOption, Some};
ghost use Rattle.std.specs.FinMap as map;
ghost use Rattle.std.specs.FinSet as set;
ghost use Rattle.mls_tables.specs.declared.mode.Mode.TheVariants.{Write};
ghost use Rattle.mls_state.specs.State.{is_active};
ghost use Rattle.mls_futures.specs.Closure.{acts_in, HasTrusted, Qualifies, CouldGet, CouldGive};

use mls_futures::{has_trusted, qualifies};
use mls_rules::State;
use mls_state::discretionary_holds;
use mls_tables::{Mode, ObjectId, SubjectId};

/// The first actor that qualifies for write of an object and is permitted it, where there is one.
fn permitted_writer(state: &State, actors: &[bool], trusted: bool, o: ObjectId) -> Option<SubjectId>
    requires object { IsTrue (is_active state.now o) }
    requires trusted { IsTrue trusted ↔ HasTrusted state.now (acts_in actors.now) }
    ensures { MatchOption result
        ((s : ℕ) × IsTrue (set.contains state.now.matrix (s, o, Write))
        × Qualifies state.now (acts_in actors.now) s o Write → ⊥)
        (λ s. IsTrue (set.contains state.now.matrix (s, o, Write))
        × Qualifies state.now (acts_in actors.now) s o Write) }
{
    for n in 0..state.subject_count() {
        let s = SubjectId::new(n);
        if discretionary_holds(state, s, o, Mode::Write)
            && qualifies(state, actors, trusted, s, o, Mode::Write)
        {
            return Some(s);
        }
    }
    None
}

/// The first actor that qualifies for write of an object, where there is one.
fn any_writer(state: &State, actors: &[bool], trusted: bool, o: ObjectId) -> Option<SubjectId>
    requires object { IsTrue (is_active state.now o) }
    requires trusted { IsTrue trusted ↔ HasTrusted state.now (acts_in actors.now) }
    ensures { MatchOption result ((s : ℕ) × Qualifies state.now (acts_in actors.now) s o Write → ⊥)
        (λ s. Qualifies state.now (acts_in actors.now) s o Write) }
{
    for n in 0..state.subject_count() {
        let s = SubjectId::new(n);
        if qualifies(state, actors, trusted, s, o, Mode::Write) {
            return Some(s);
        }
    }
    None
}

/// An actor that could get write of the parent of an object, where an actor could give permissions of the object: one
/// that is permitted it, where there is one.
pub(crate) fn giver_of(
    state: &State,
    actors: &[bool],
    o: ObjectId,
    p: ObjectId,
) -> Option<SubjectId>
    requires parent { map.get state.now.parent o ≡ Some p }
    requires active { IsTrue (is_active state.now p) }
    requires gives { CouldGive state.now (acts_in actors.now) o }
    ensures { MatchOption result ⊥ (λ s. CouldGet state.now (acts_in actors.now) s p Write) }
{
    state.agrees();
    let trusted = has_trusted(state, actors);
    match permitted_writer(state, actors, trusted, p) {
        Some(s) => Some(s),
        None => any_writer(state, actors, trusted, p),
    }
}
