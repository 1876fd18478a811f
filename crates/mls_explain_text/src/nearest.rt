//! The name that is nearest to a word.
ghost use Rattle.std.specs.Prelude.{◌≡◌, ◌++◌, ◌==◌, map, is_some, string_bytes, IfOk, OnOk, Some};
ghost use Rattle.mls_explain_text.specs.Nearest.{distance, first_at, near_at, nearest, meant_text};

use std::alloc::{AllocError, Global};
use strsim::levenshtein;

/// The most bytes of a word that can be near to a name: those of the longest name, and two.
pub const LONGEST: usize = 34;

/// Appends a name that may have been meant.
fn push_meant(text: &mut String, name: &str) -> Result<(), AllocError>
    ensures { OnOk result (string_bytes text.new ≡ string_bytes text.old ++ meant_text (Some name.now)) }
{
    text.push_str(" (")?;
    text.push_str(name)?;
    text.push_str("?)")
}

/// Whether a name is at this distance from a word.
fn is_at(alloc: Global, word: &str, name: &str, far: usize) -> Result<bool, AllocError>
    ensures { IfOk result (λ at. at ≡ (distance word.now name.now == far)) }
{
    Ok(levenshtein(alloc, word, name)? == far)
}

/// Appends the first name at a distance from a word, and says whether there is one.
fn push_first_at(
    alloc: Global,
    text: &mut String,
    word: &str,
    names: &[&str],
    far: usize,
) -> Result<bool, AllocError>
    ensures found { IfOk result
        (λ found. found ≡ is_some (first_at far word.now (map (λ name. name.now) names.now))) }
    ensures text { OnOk result (string_bytes text.new
        ≡ string_bytes text.old ++ meant_text (first_at far word.now (map (λ name. name.now) names.now))) }
{
    for name in names {
        if is_at(alloc, word, name, far)? {
            push_meant(text, name)?;
            return Ok(true);
        }
    }
    Ok(false)
}

/// The same, where the distance is below the word's length.
fn push_near(
    alloc: Global,
    text: &mut String,
    word: &str,
    names: &[&str],
    far: usize,
) -> Result<bool, AllocError>
    ensures found { IfOk result
        (λ found. found ≡ is_some (near_at far word.now (map (λ name. name.now) names.now))) }
    ensures text { OnOk result (string_bytes text.new
        ≡ string_bytes text.old ++ meant_text (near_at far word.now (map (λ name. name.now) names.now))) }
{
    if far < word.len() {
        push_first_at(alloc, text, word, names, far)
    } else {
        Ok(false)
    }
}

/// Appends the nearest of the names to a word that is none of them, in brackets, where one is near: the first at
/// distance 1, or else the first at distance 2; the distance is below the word's length.
///
/// # Errors
/// `AllocError` where an allocation failed.
pub(crate) fn push_nearest(
    alloc: Global,
    text: &mut String,
    word: &str,
    names: &[&str],
) -> Result<(), AllocError>
    ensures { OnOk result (string_bytes text.new
        ≡ string_bytes text.old ++ meant_text (nearest word.now (map (λ name. name.now) names.now))) }
{
    if word.len() > LONGEST {
        return Ok(());
    }
    if push_near(alloc, text, word, names, 1)? {
        return Ok(());
    }
    push_near(alloc, text, word, names, 2)?;
    Ok(())
}
