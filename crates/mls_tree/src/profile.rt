//! Whether object numbers are used again.

/// Whether object numbers are used again. In profile 1 each number is given out once, in order. In profile 2 the next
/// number is always the least that isn't active.
#[derive(Clone, Copy, Debug, PartialEq, Eq)]
pub enum Profile {
    /// Each number is given out once.
    One,
    /// The number of an object that was removed is given out again.
    Two,
}
