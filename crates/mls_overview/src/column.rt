//! Columns that count.
use std::alloc::{AllocError, Global};

/// So many columns of nothing.
pub(crate) fn columns(alloc: Global, count: usize) -> Result<Vec<u64>, AllocError> {
    Vec::from_elem(alloc, 0u64, count)
}

/// Counts one more in a column, where there is one.
pub(crate) fn count_in(columns: &mut [u64], place: u64) {
    if place < columns.len() as u64 {
        let place = place as usize;
        columns[place] = columns[place].saturating_add(1);
    }
}
