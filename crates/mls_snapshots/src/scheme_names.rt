//! The names of a scheme's levels and categories, read out of what it writes of labels.
ghost use Rattle.std.specs.Prelude.{◌≡◌, ◌++◌, ◌+◌, ◌<◌, ◌==◌, IfOk, IfNone, IfSome, OnOk, length, map, option_map};
ghost use Rattle.std.specs.Prelude.{slice_get, string_bytes};
ghost use Rattle.std.specs.List.{after_first, position_or_len};
ghost use Rattle.mls_labels.specs.Scheme.{IsScheme};
ghost use Rattle.mls_snapshots.specs.Schemes.{name_where};

use crate::schemes::{category_label, label_text, level_label};
use mls_labels::{MAX_CATEGORIES, MAX_LEVELS, Scheme};
use std::alloc::{AllocError, Global};

/// What stands behind the first colon of a text, where it has one.
fn behind_colon(text: &str) -> Option<&str>
    ensures none { IfNone result (position_or_len (λ b. b == 58) text.now ≡ length text.now) }
    ensures some { IfSome result (λ rest. rest.now ≡ after_first (λ b. b == 58) text.now) }
    ensures within { IfSome result (λ rest. position_or_len (λ b. b == 58) text.now < length text.now) }
{
    match text.split_once(':') {
        Some((_, rest)) => Some(rest),
        None => None,
    }
}

/// The name of a level, where there is one of that number.
fn level_name(alloc: Global, scheme: &Scheme, n: u8) -> Result<Option<String>, AllocError>
    requires { n < MAX_LEVELS }
    ensures { IfOk result (λ name. option_map string_bytes name ≡ slice_get scheme.now.levels n) }
{
    let label = level_label(n);
    if !scheme.has(label) {
        return Ok(None);
    }
    Ok(Some(label_text(alloc, scheme, label)?))
}

/// The name of a category, where there is one of that number: what is written of the lowest level and it has the name
/// behind a colon.
fn category_name(alloc: Global, scheme: &Scheme, n: u8) -> Result<Option<String>, AllocError>
    requires { IsScheme scheme.now }
    ensures { IfOk result (λ name. option_map string_bytes name ≡ slice_get scheme.now.categories n) }
{
    let label = category_label(n);
    if !scheme.has(label) {
        return Ok(None);
    }
    let text = label_text(alloc, scheme, label)?;
    match behind_colon(text.as_str()) {
        Some(name) => Ok(Some(String::from_str(alloc, name)?)),
        None => Ok(None),
    }
}

/// Adds a name, where there is one.
fn push_name(names: &mut Vec<String>, name: Option<String>) -> Result<(), AllocError>
    ensures { OnOk result (map string_bytes names.new.items
        ≡ map string_bytes names.old.items ++ name_where (option_map string_bytes name)) }
{
    if let Some(name) = name {
        names.push(name)?;
    }
    Ok(())
}

/// The names of a scheme's levels, by number.
///
/// # Errors
/// `AllocError` where an allocation failed.
pub fn level_names(alloc: Global, scheme: &Scheme) -> Result<Vec<String>, AllocError>
    ensures { IfOk result (λ names. map string_bytes names.items ≡ scheme.now.levels) }
{
    // that it has no more levels
    let _ = scheme.bounds();
    let mut names = Vec::new(alloc);
    for n in 0..MAX_LEVELS {
        push_name(&mut names, level_name(alloc, scheme, n as u8)?)?;
    }
    Ok(names)
}

/// The names of a scheme's categories, by number.
///
/// # Errors
/// `AllocError` where an allocation failed.
pub fn category_names(alloc: Global, scheme: &Scheme) -> Result<Vec<String>, AllocError>
    ensures { IfOk result (λ names. map string_bytes names.items ≡ scheme.now.categories) }
{
    // that it has a level, and no more categories
    let _ = scheme.bounds();
    let mut names = Vec::new(alloc);
    for n in 0..MAX_CATEGORIES {
        push_name(&mut names, category_name(alloc, scheme, n as u8)?)?;
    }
    Ok(names)
}
