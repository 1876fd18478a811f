//! Rows in order by their weights.
ghost use Rattle.std.specs.Prelude.{◌≡◌, ℕ, map, IfOk};
ghost use Rattle.mls_groups.specs.Weights.{IsByWeight};

use mls_groups::by_weight;
use std::alloc::{AllocError, Global};

/// What has a weight.
pub(crate) trait Weighed {
    ghost weight_of: { Self → ℕ };

    /// How much it weighs.
    fn weight(&self) -> u64
        ensures { result ≡ weight_of self.now };
}

/// The weights of rows.
fn weights_of<R: Weighed>(alloc: Global, rows: &[R]) -> Result<Vec<u64>, AllocError>
    ensures { IfOk result (λ weights. weights.items ≡ map R.weight_of rows.now) }
{
    let mut weights = Vec::new(alloc);
    for row in rows {
        weights.push(row.weight())?;
    }
    Ok(weights)
}

/// The places of rows, the heaviest first.
///
/// # Errors
/// `AllocError` where an allocation failed.
pub(crate) fn in_order<R: Weighed>(alloc: Global, rows: &[R]) -> Result<Vec<usize>, AllocError>
    ensures { IfOk result (λ places. IsByWeight (map R.weight_of rows.now) places.items) }
{
    let weights = weights_of(alloc, rows)?;
    let places = by_weight(alloc, &weights);
    drop(weights);
    places
}
