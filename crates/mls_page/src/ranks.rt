//! The ranks of labels.
use mls_review::Cover;
use std::alloc::{AllocError, Global};

/// The rank at a place.
pub(crate) fn rank_at(ranks: &[usize], place: usize) -> usize {
    ranks.get(place).copied().unwrap_or(0)
}

/// Raises each label above those that it covers.
fn raise(ranks: &mut [usize], covers: &[Cover]) {
    for cover in covers {
        let above = rank_at(ranks, cover.lower).saturating_add(1);
        if let Some(rank) = ranks.get_mut(cover.upper) {
            *rank = above.max(*rank);
        }
    }
}

/// The ranks of so many labels: how many others stand below each at most, one below the other.
pub(crate) fn ranks(
    alloc: Global,
    count: usize,
    covers: &[Cover],
) -> Result<Vec<usize>, AllocError> {
    let mut ranks = Vec::from_elem(alloc, 0usize, count)?;
    for _ in 0..count {
        raise(&mut ranks, covers);
    }
    Ok(ranks)
}
