//! Who acts: the subjects at whose place a slice has `true`.
ghost use Rattle.std.specs.Prelude.{◌≡◌, ◌↔◌, ◌&&◌, IsTrue};
ghost use Rattle.std.specs.FinSet as set;
ghost use Rattle.mls_state.specs.State.{is_subject};
ghost use Rattle.mls_futures.specs.Closure.{acts_in, HasTrusted};

use mls_state::State;
use mls_tables::SubjectId;
use std::alloc::Allocator;

/// Whether the subject acts.
pub(crate) fn acts(actors: &[bool], s: SubjectId) -> bool
    ensures { result ≡ acts_in actors.now s }
{
    match actors.get(s.number() as usize) {
        Some(acts) => *acts,
        None => false,
    }
}

/// Whether the subject acts and is trusted.
fn acts_trusted<A: Allocator>(state: &State<A>, actors: &[bool], s: SubjectId) -> bool
    requires { IsTrue (is_subject state.now s) }
    ensures { result ≡ (acts_in actors.now s && set.contains state.now.trusted s) }
{
    acts(actors, s) && state.is_trusted(s)
}

/// Whether one of the actors is trusted.
pub fn has_trusted<A: Allocator>(state: &State<A>, actors: &[bool]) -> bool
    ensures { IsTrue result ↔ HasTrusted state.now (acts_in actors.now) }
{
    state.agrees();
    for n in 0..state.subject_count() {
        if acts_trusted(state, actors, SubjectId::new(n)) {
            return true;
        }
    }
    false
}
