//! How much a feed gives in one turn.

/// The most asks that a session takes to the gate at once. What a turn moves from one processor to another costs as
/// much as some ten asks.
pub const AHEAD: usize = 64;
