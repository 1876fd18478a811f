//! How many sessions an office can have, and how they wait.

/// The most sessions of an office. Their numbers are below this.
pub const MAX_SESSIONS: u16 = 64;

/// The place of the count of changes in the table. It is so far from the gate's word, and from the words of accesses,
/// that no two of them stand in one line of a cache, nor in two that are fetched together.
pub const CHANGES: usize = 16;

/// The place of the first word of accesses in the table.
pub const FIRST: usize = 32;

/// How often a session looks at a held gate before it naps or sleeps, for each ask of its turn. Each look takes the
/// gate's word from the processor of whoever holds it, so that more looks cost more where many threads wait. Who asks
/// much in one turn works long between its turns, and so do the others who run with it: there it pays to wait for the
/// end of a turn, so that one asks while others work.
pub const LOOKS: u32 = 40;

/// How often a session sees the gate free, comes too late and looks again at once. Where turns are far apart such a
/// gate is soon free again; more tries cost more where they are close.
pub const RACES: u32 = 2;

/// How many naps a session takes before it sleeps until it is woken.
pub const NAPS: u32 = 7;

/// How long the shortest nap is, in microseconds. A turn is so short that handing the monitor from one processor to
/// another costs more than the turn itself: while the others nap, one thread takes many turns in a row.
pub const NAP: u64 = 200;

/// How long the longest nap is for each session of the office, in microseconds: 102.4 milliseconds where there are 64.
/// The more sessions wait, the longer they nap, so that one of them has the time to find the monitor's tables in its
/// processor's cache.
pub const LONGEST: u64 = 1_600;

/// A session that naps again before it asked so much naps four times as long as before, else half as long. So sessions
/// that do nothing but take turns soon nap long.
pub const SOON: u64 = 120;
