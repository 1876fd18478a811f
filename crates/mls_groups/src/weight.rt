//! Things in order by their weights.
ghost use Rattle.std.specs.Prelude.{◌≡◌, IfOk};
ghost use Rattle.std.specs.List.{range_with_len};
ghost use Rattle.mls_groups.specs.Weights.{IsByWeight, weight_at};

use std::alloc::{AllocError, Global};

/// The weight of the thing at a place.
fn weight_at(weights: &[u64], place: usize) -> u64
    ensures { result ≡ weight_at weights.now place }
{
    match weights.get(place) {
        Some(weight) => *weight,
        None => 0,
    }
}

/// The numbers below a number.
fn numbers_below(alloc: Global, count: usize) -> Result<Vec<usize>, AllocError>
    ensures { IfOk result (λ found. found.items ≡ range_with_len 0 count) }
{
    let mut found = Vec::new(alloc);
    for place in 0..count {
        found.push(place)?;
    }
    Ok(found)
}

/// The places of things by their weights: the heaviest first, and of equally heavy ones the first.
///
/// # Errors
/// `AllocError` where an allocation failed.
pub fn by_weight(alloc: Global, weights: &[u64]) -> Result<Vec<usize>, AllocError>
    ensures { IfOk result (λ places. IsByWeight weights.now places.items) }
{
    let mut places = numbers_below(alloc, weights.len())?;
    places.sort_by_key(|place| u64::MAX - weight_at(weights, *place))?;
    Ok(places)
}
