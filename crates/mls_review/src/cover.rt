//! Pairs of labels of which one covers the other.

/// A pair of labels of a list, by their places, of which the second covers the first.
#[derive(Clone, Copy, Debug, PartialEq, Eq)]
pub struct Cover {
    pub lower: usize,
    pub upper: usize,
}
