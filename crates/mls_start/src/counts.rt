//! How many triples a start has.

/// How many triples the matrix permits, and how many are current accesses.
#[derive(Clone, Copy, Debug)]
pub struct Counts {
    pub cells: usize,
    pub accesses: usize,
}
