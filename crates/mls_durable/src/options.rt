//! How a service takes its lines, what it tells, and what it does with a torn end.
use crate::recover_fault::TornEnd;

/// Who asks.
#[derive(Clone, Copy, Debug, PartialEq, Eq)]
pub enum Asker {
    /// All lines are of this session, and are lines of a script.
    Session(u32),
    /// Each line begins with the number of its session and a space.
    EachLine,
}

/// How lines are taken, how they are answered, and how their entries are cut into files.
#[derive(Clone, Copy, Debug, PartialEq, Eq)]
pub struct Protocol {
    pub asker: Asker,
    /// The number of the entry stands behind an answer that has one.
    pub numbers: bool,
    /// How many bytes a file of the journal takes before another is begun: at least `LONGEST_LINE`, at most
    /// `JOURNAL_LIMIT`. Where it is `None` one file takes all entries.
    pub segment: Option<u32>,
}

/// How a service takes its lines, what it tells, and what it does with a torn end.
#[derive(Clone, Copy, Debug, PartialEq, Eq)]
pub struct Options {
    pub protocol: Protocol,
    /// The start's names and the accesses that are held are told before the number of the next entry.
    pub names: bool,
    pub torn: TornEnd,
}
