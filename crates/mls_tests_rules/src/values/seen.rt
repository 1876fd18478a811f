//! What a test sees.
ghost use Rattle.std.specs.Prelude.{IsTrue};

use mls_tables::{Mode, Modes, ObjectId, SubjectId};
use std::process::Abort;

pub const MODES: [Mode; 4] = [Mode::Execute, Mode::Read, Mode::Append, Mode::Write];

/// Asserts what a test sees, and says what it looked at where that isn't so. Tests call this in the place of
/// `assert!`, each of which makes a message of its own and is proved to.
pub fn sees(rt: &impl Abort, seen: bool, what: &str)
    ensures { IsTrue seen }
{
    assert!(rt; seen, "{what}");
}

/// Whether the set has just these modes.
pub fn has_just(modes: Modes, wanted: &[Mode]) -> bool {
    MODES.iter().all(|x| modes.has(*x) == wanted.contains(x))
}

/// Whether the objects have just these numbers, in this order.
pub fn are(objects: &[ObjectId], numbers: &[u16]) -> bool {
    objects.len() == numbers.len() && objects.iter().zip(numbers).all(|(o, n)| o.number() == *n)
}

/// Whether the subjects have just these numbers, in this order.
pub fn are_subjects(subjects: &[SubjectId], numbers: &[u16]) -> bool {
    subjects.len() == numbers.len() && subjects.iter().zip(numbers).all(|(s, n)| s.number() == *n)
}
