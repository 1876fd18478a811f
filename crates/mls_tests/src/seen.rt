//! What a test sees. Tests call these in the place of `assert!` and `assert_eq!`, each of which makes a message of its
//! own and is proved to.
ghost use Rattle.std.specs.Prelude.{IsTrue};

use mls_durable::ServiceFault;
use std::process::Abort;

/// Asserts what a test sees, and says what it looked at where that isn't so.
pub fn sees(rt: &impl Abort, seen: bool, what: &str)
    ensures { IsTrue seen }
{
    assert!(rt; seen, "{what}");
}

/// Asserts what a test sees at a number, and says it where that isn't so.
pub fn sees_at(rt: &impl Abort, seen: bool, at: usize) {
    assert!(rt; seen, "at {at}");
}

/// Asserts that bytes are those that are wanted.
pub fn sees_bytes(rt: &impl Abort, found: &[u8], wanted: &[u8]) {
    assert_eq!(rt; found, wanted);
}

/// Asserts that a service ended as is wanted.
pub fn sees_outcome(
    rt: &impl Abort,
    found: Result<(), ServiceFault>,
    wanted: Result<(), ServiceFault>,
) {
    assert_eq!(rt; found, wanted);
}
