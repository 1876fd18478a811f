//! Whether two schemes are the same: they write the same of each level and of each category alone.
ghost use Rattle.std.specs.Prelude.{◌≡◌, ◌<◌, ℕ, IsTrue, IfOk, string_bytes};
ghost use Rattle.mls_labels.specs.Label.{has_label};
ghost use Rattle.mls_labels.specs.LabelText.{written};
ghost use Rattle.mls_labels.specs.Scheme.{IsScheme, bounds_of};
ghost use Rattle.mls_snapshots.specs.Schemes.{level_alone, lowest_with, IsWrittenAlike};

use mls_labels::{CatSet, Label, MAX_CATEGORIES, MAX_LEVELS, Scheme};
use std::alloc::{AllocError, Global};

/// The label of a level alone.
pub(crate) fn level_label(n: u8) -> Label
    requires { n < MAX_LEVELS }
    ensures { result ≡ level_alone n }
{
    Label::new(n, CatSet::empty())
}

/// The label of the lowest level and one category.
pub(crate) fn category_label(n: u8) -> Label
    ensures { result ≡ lowest_with n }
{
    Label::new(0, CatSet::empty().with(n))
}

/// What is written of a label that a scheme has.
pub(crate) fn label_text(alloc: Global, scheme: &Scheme, label: Label) -> Result<String, AllocError>
    requires { IsTrue (has_label (bounds_of scheme.now) label) }
    ensures { IfOk result (λ text. string_bytes text ≡ written scheme.now label) }
{
    let mut text = String::new(alloc);
    scheme.write(label, &mut text)?;
    Ok(text)
}

/// Whether two schemes have a label both, and write the same of it; or the first hasn't it.
fn is_written_alike(alloc: Global, a: &Scheme, b: &Scheme, label: Label) -> Result<bool, AllocError>
    ensures { IfOk result (λ alike. IsTrue alike → IsWrittenAlike a.now b.now label) }
{
    if !a.has(label) {
        return Ok(true);
    }
    if !b.has(label) {
        return Ok(false);
    }
    let first = label_text(alloc, a, label)?;
    let second = label_text(alloc, b, label)?;
    Ok(first.as_str() == second.as_str())
}

/// Whether two schemes write the same of each level alone.
fn are_levels_alike(alloc: Global, a: &Scheme, b: &Scheme) -> Result<bool, AllocError>
    ensures { IfOk result
        (λ alike. IsTrue alike → (n : ℕ) → n < MAX_LEVELS → IsWrittenAlike a.now b.now (level_alone n)) }
{
    for n in 0..MAX_LEVELS {
        if !is_written_alike(alloc, a, b, level_label(n as u8))? {
            return Ok(false);
        }
    }
    Ok(true)
}

/// Whether two schemes write the same of each category with the lowest level.
fn are_categories_alike(alloc: Global, a: &Scheme, b: &Scheme) -> Result<bool, AllocError>
    ensures { IfOk result
        (λ alike. IsTrue alike → (n : ℕ) → n < MAX_CATEGORIES → IsWrittenAlike a.now b.now (lowest_with n)) }
{
    for n in 0..MAX_CATEGORIES {
        if !is_written_alike(alloc, a, b, category_label(n as u8))? {
            return Ok(false);
        }
    }
    Ok(true)
}

/// Whether two schemes have as many levels, and as many categories.
#[tactic(auto, using(mls_labels::proofs::Laws::bounds_same))]
fn has_same_bounds(a: &Scheme, b: &Scheme) -> bool
    ensures same { IsTrue result → bounds_of a.now ≡ bounds_of b.now }
    ensures sound { IsScheme a.now }
{
    a.bounds() == b.bounds()
}

/// Whether two schemes are the same.
pub(crate) fn are_same_schemes(alloc: Global, a: &Scheme, b: &Scheme) -> Result<bool, AllocError>
    ensures { IfOk result (λ same. IsTrue same → b.now ≡ a.now) }
{
    if !has_same_bounds(a, b) {
        return Ok(false);
    }
    if !are_levels_alike(alloc, a, b)? {
        return Ok(false);
    }
    are_categories_alike(alloc, a, b)
}
