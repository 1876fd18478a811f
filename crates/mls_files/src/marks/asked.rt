//! What marks are verified for.
use mls_marks::Digest;

/// What marks are verified for.
#[derive(Clone, Copy)]
pub struct MarksAsked {
    /// The digest of the start's file.
    pub start: Digest,
    /// What the chain of digests begins from, where that is told.
    pub from: Option<Digest>,
    /// A digest that is looked for in the chain, where one is told.
    pub wanted: Option<Digest>,
}

/// Whether one digest is told and the other is the same.
fn is_same(one: &Option<Digest>, other: &Option<Digest>) -> bool {
    match (one, other) {
        (Some(one), Some(other)) => *one == *other,
        _ => false,
    }
}

impl MarksAsked {
    /// Whether the digest that is looked for is the one that the chain begins from, as it is told.
    pub(crate) fn is_found_at_once(&self) -> bool {
        is_same(&self.wanted, &self.from)
    }
}
