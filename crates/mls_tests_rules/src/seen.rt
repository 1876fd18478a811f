//! What a test sees.
ghost use Rattle.std.specs.Prelude.{IsTrue};
ghost use Rattle.mls_state.specs.State.{is_subject, is_active};

use mls_state::State;
use mls_tables::{ObjectId, SubjectId};
use std::alloc::Allocator;
use std::process::Abort;

/// Asserts what a test sees, and says what it looked at where that isn't so. Tests call this in the place of
/// `assert!`, each of which makes a message of its own and is proved to.
pub fn sees(rt: &impl Abort, seen: bool, what: &str)
    ensures { IsTrue seen }
{
    assert!(rt; seen, "{what}");
}

/// Asserts that a state has a subject and an object.
pub fn knows<A: Allocator>(rt: &impl Abort, state: &State<A>, s: SubjectId, o: ObjectId)
    ensures subject { IsTrue (is_subject state.now s) }
    ensures object { IsTrue (is_active state.now o) }
{
    sees(rt, state.is_subject(s) && state.is_active(o), "a cell");
}
