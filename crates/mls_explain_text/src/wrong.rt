//! Which words a line is refused for.
ghost use Rattle.std.specs.Prelude.{◌≡◌, is_err, map, IfOk};
ghost use Rattle.std.specs.List.{list_any};
ghost use Rattle.std.specs.Str.{bytes_eq};
ghost use Rattle.mls_labels.specs.Reading.{label_at};
ghost use Rattle.mls_start_text.specs.Views.{scheme_view, file_view};
ghost use Rattle.mls_replay.specs.Naming.{begins_with_hash};
ghost use Rattle.mls_explain_text.specs.Sorts.{is_unknown, is_unnamed, is_unspelled, is_wrong};

use crate::sort::Sort;
use mls_labels::Scheme;
use mls_lines::LineFault;
use mls_start_text::{FileText, SchemeText};
use std::alloc::{AllocError, Global};

/// Whether a word is one of these names.
pub(crate) fn is_among(word: &str, names: &[&str]) -> bool
    ensures { result ≡ list_any (bytes_eq word.now) (map (λ name. name.now) names.now) }
{
    for name in names {
        if word == *name {
            return true;
        }
    }
    false
}

/// Whether a word begins with a `#`.
fn begins_with_hash(word: &[u8]) -> bool
    ensures { result ≡ begins_with_hash word.now }
{
    matches!(word, [b'#', ..])
}

/// Whether a word is none of these names, and begins with no `#`.
fn is_unknown(word: &str, names: &[&str]) -> bool
    ensures { result ≡ is_unknown (map (λ name. name.now) names.now) word.now }
{
    !begins_with_hash(word.as_bytes()) && !is_among(word, names)
}

/// Whether a word is to name a subject or an object, and names none.
fn is_unnamed(
    alloc: Global,
    file: &FileText<'_>,
    sort: Sort,
    word: &str,
) -> Result<bool, AllocError>
    ensures { IfOk result (λ wrong. wrong ≡ is_unnamed (file_view file.now) sort word.now) }
{
    match sort {
        Sort::Subject => {
            let names = file.subject_names(alloc)?;
            Ok(is_unknown(word, &names))
        }
        Sort::Object => {
            let names = file.object_names(alloc)?;
            Ok(is_unknown(word, &names))
        }
        Sort::Plain | Sort::Security | Sort::Integrity => Ok(false),
    }
}

/// Whether a text is that of no label of a scheme.
///
/// # Errors
/// `AllocError` where an allocation failed; also where the scheme is refused, which no caller's is.
fn is_no_label(alloc: Global, scheme: &SchemeText<'_>, text: &str) -> Result<bool, AllocError>
    ensures { IfOk result (λ wrong. wrong ≡ is_err (label_at (scheme_view scheme.now) text.now)) }
{
    match Scheme::new(alloc, &scheme.levels, &scheme.categories) {
        Ok(scheme) => Ok(scheme.read(text).is_err()),
        Err(_) => Err(AllocError),
    }
}

/// Whether a word is to be a label, and is the text of none in its scheme.
fn is_unspelled(
    alloc: Global,
    file: &FileText<'_>,
    sort: Sort,
    word: &str,
) -> Result<bool, AllocError>
    ensures { IfOk result (λ wrong. wrong ≡ is_unspelled (file_view file.now) sort word.now) }
{
    match sort {
        Sort::Security => is_no_label(alloc, &file.security, word),
        Sort::Integrity => is_no_label(alloc, &file.integrity, word),
        Sort::Plain | Sort::Subject | Sort::Object => Ok(false),
    }
}

/// Whether a word is one for which a line has a fault.
pub(crate) fn is_wrong(
    alloc: Global,
    file: &FileText<'_>,
    fault: LineFault,
    sort: Sort,
    word: &str,
) -> Result<bool, AllocError>
    ensures { IfOk result (λ wrong. wrong ≡ is_wrong (file_view file.now) fault sort word.now) }
{
    match fault {
        LineFault::BadForm => Ok(false),
        LineFault::UnknownName => is_unnamed(alloc, file, sort, word),
        LineFault::BadLabel => is_unspelled(alloc, file, sort, word),
    }
}
