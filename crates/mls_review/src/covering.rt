//! The covering pairs of a list of labels.
ghost use Rattle.std.specs.Prelude.{◌≡◌, ◌++◌, ◌<◌, IfOk, OnOk, All, List, filter, length};
ghost use Rattle.std.specs.List.{list_any};
ghost use Rattle.mls_labels.specs.Label.{Label};
ghost use Rattle.mls_review.specs.Covers.{label_at, is_over, covers, cover_at, covers_of, covering, IsWithin};

use crate::cover::Cover;
use mls_labels::SecLabel;
use std::alloc::{AllocError, Global};

/// Whether a label dominates another and isn't dominated by it.
fn is_over(b: &SecLabel, a: &SecLabel) -> bool
    ensures { result ≡ is_over b.now a.now }
{
    b.dominates(a) && !a.dominates(b)
}

/// The labels that are over one, in their order.
fn labels_over(
    alloc: Global,
    labels: &[SecLabel],
    a: &SecLabel,
) -> Result<Vec<SecLabel>, AllocError>
    ensures { IfOk result (λ found. found.items ≡ filter (λ c. is_over c a.now) labels.now) }
{
    let mut found = Vec::new(alloc);
    for c in labels {
        if is_over(c, a) {
            found.push(*c)?;
        }
    }
    Ok(found)
}

/// Whether a label is over one of these.
fn is_over_some(b: &SecLabel, labels: &[SecLabel]) -> bool
    ensures { result ≡ list_any (λ c. is_over b.now c) labels.now }
{
    for c in labels {
        if is_over(b, c) {
            return true;
        }
    }
    false
}

/// Whether a label covers another among labels of which `over` are those over the other.
#[tactic(auto, using(crate::proofs::Lists::any_filter))]
fn covers(b: &SecLabel, a: &SecLabel, over: &[SecLabel]) -> bool
    ensures { (labels : List Label) → over.now ≡ filter (λ c. is_over c a.now) labels
        → result ≡ covers labels b.now a.now }
{
    if !is_over(b, a) {
        return false;
    }
    !is_over_some(b, over)
}

/// Whether the label in one place covers that in another. `over` are the labels over the latter.
fn is_cover(labels: &[SecLabel], over: &[SecLabel], lower: usize, upper: usize) -> bool
    requires lower { lower < length labels.now }
    requires upper { upper < length labels.now }
    requires over { over.now ≡ filter (λ c. is_over c (label_at labels.now lower)) labels.now }
    ensures { result ≡ covers labels.now (label_at labels.now upper) (label_at labels.now lower) }
{
    covers(&labels[upper], &labels[lower], over)
}

/// Adds the pair of two places, where the label in the second covers that in the first. `over` are the labels over that
/// one.
fn push_cover(
    found: &mut Vec<Cover>,
    labels: &[SecLabel],
    over: &[SecLabel],
    lower: usize,
    upper: usize,
) -> Result<(), AllocError>
    requires lower { lower < length labels.now }
    requires upper { upper < length labels.now }
    requires over { over.now ≡ filter (λ c. is_over c (label_at labels.now lower)) labels.now }
    ensures { OnOk result (found.new.items ≡ found.old.items ++ cover_at labels.now lower upper) }
{
    if is_cover(labels, over, lower, upper) {
        found.push(Cover { lower, upper })?;
    }
    Ok(())
}

/// Adds the pairs of a label and each of those that cover it. `over` are the labels over it.
fn push_covers(
    found: &mut Vec<Cover>,
    labels: &[SecLabel],
    over: &[SecLabel],
    lower: usize,
) -> Result<(), AllocError>
    requires lower { lower < length labels.now }
    requires over { over.now ≡ filter (λ c. is_over c (label_at labels.now lower)) labels.now }
    ensures { OnOk result (found.new.items ≡ found.old.items ++ covers_of labels.now lower) }
{
    for upper in 0..labels.len() {
        push_cover(found, labels, over, lower, upper)?;
    }
    Ok(())
}

/// Just the pairs of labels of which one covers the other, each once: by the place of the lower, then by that of the
/// upper label. It takes time as the square of how many labels there are, and for each as the square of how many are
/// over it.
///
/// # Errors
/// `AllocError` where an allocation failed.
#[tactic(auto, using(crate::proofs::Within::found_within))]
pub fn covering_pairs(alloc: Global, labels: &[SecLabel]) -> Result<Vec<Cover>, AllocError>
    ensures list { IfOk result (λ found. found.items ≡ covering labels.now) }
    ensures within { IfOk result (λ found. All (IsWithin (length labels.now)) found.items) }
{
    let mut found = Vec::new(alloc);
    for lower in 0..labels.len() {
        let over = labels_over(alloc, labels, &labels[lower])?;
        push_covers(&mut found, labels, &over, lower)?;
    }
    Ok(found)
}
