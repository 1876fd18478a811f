//! The first word of a line for which it has its fault.
ghost use Rattle.std.specs.Prelude.{◌≡◌, ◌++◌, ◌==◌, map, string_bytes, OnOk};
ghost use Rattle.std.specs.List.{slice_split};
ghost use Rattle.mls_start_text.specs.Views.{scheme_view, file_view};
ghost use Rattle.mls_explain_text.specs.Culprit.{first_meant, categories_in, label_meant, meant_by, wrong_text};
ghost use Rattle.mls_explain_text.specs.Culprit.{culprit_text, culprit_of};

use crate::cutting::{cut, tokens};
use crate::nearest::push_nearest;
use crate::sort::{Sort, sorts_in};
use crate::wrong::{is_among, is_wrong};
use mls_lines::LineFault;
use mls_start_text::{FileText, SchemeText};
use std::alloc::{AllocError, Global};

/// Appends the nearest of the names to the first word that is none of them.
fn push_first_meant(
    alloc: Global,
    text: &mut String,
    words: &[&str],
    names: &[&str],
) -> Result<(), AllocError>
    ensures { OnOk result (string_bytes text.new
        ≡ string_bytes text.old ++ first_meant (map (λ name. name.now) names.now) (map (λ word. word.now) words.now)) }
{
    for word in words {
        if !is_among(word, names) {
            return push_nearest(alloc, text, word, names);
        }
    }
    Ok(())
}

/// Appends the nearest of the names of categories to the first that is none, in what stands behind a label's colon.
fn push_category_meant(
    alloc: Global,
    text: &mut String,
    behind: &[&str],
    names: &[&str],
) -> Result<(), AllocError>
    ensures { OnOk result (string_bytes text.new
        ≡ string_bytes text.old
        ++ first_meant (map (λ name. name.now) names.now) (categories_in (map (λ part. part.now) behind.now))) }
{
    let [part, ..] = behind else {
        return Ok(());
    };
    let words = cut(alloc, part, ',')?;
    push_first_meant(alloc, text, &words, names)
}

/// Appends the nearest level to a label's level where that is none, else the nearest category to the first that is
/// none; of a label by its parts between colons.
fn push_parts_meant(
    alloc: Global,
    text: &mut String,
    label: &[&str],
    scheme: &SchemeText<'_>,
) -> Result<(), AllocError>
    ensures { OnOk result (string_bytes text.new
        ≡ string_bytes text.old ++ label_meant (scheme_view scheme.now) (map (λ part. part.now) label.now)) }
{
    let [level, behind @ ..] = label else {
        return Ok(());
    };
    if is_among(level, &scheme.levels) {
        push_category_meant(alloc, text, behind, &scheme.categories)
    } else {
        push_nearest(alloc, text, level, &scheme.levels)
    }
}

/// Appends the same of a label.
fn push_label_meant(
    alloc: Global,
    text: &mut String,
    label: &str,
    scheme: &SchemeText<'_>,
) -> Result<(), AllocError>
    ensures { OnOk result (string_bytes text.new
        ≡ string_bytes text.old ++ label_meant (scheme_view scheme.now) (slice_split (λ b. b == 58) label.now)) }
{
    let label = cut(alloc, label, ':')?;
    push_parts_meant(alloc, text, &label, scheme)
}

/// Appends the nearest of the names that can stand in the place of a word that isn't what it is to be.
pub(crate) fn push_meant_by(
    alloc: Global,
    text: &mut String,
    file: &FileText<'_>,
    sort: Sort,
    word: &str,
) -> Result<(), AllocError>
    ensures { OnOk result
        (string_bytes text.new ≡ string_bytes text.old ++ meant_by (file_view file.now) sort word.now) }
{
    match sort {
        Sort::Plain => Ok(()),
        Sort::Subject => {
            let names = file.subject_names(alloc)?;
            push_nearest(alloc, text, word, &names)
        }
        Sort::Object => {
            let names = file.object_names(alloc)?;
            push_nearest(alloc, text, word, &names)
        }
        Sort::Security => push_label_meant(alloc, text, word, &file.security),
        Sort::Integrity => push_label_meant(alloc, text, word, &file.integrity),
    }
}

/// Appends a word that isn't what it is to be, after a colon, and behind it the nearest of the names that can stand
/// there.
fn push_wrong(
    alloc: Global,
    text: &mut String,
    file: &FileText<'_>,
    sort: Sort,
    word: &str,
) -> Result<(), AllocError>
    ensures { OnOk result
        (string_bytes text.new ≡ string_bytes text.old ++ wrong_text (file_view file.now) sort word.now) }
{
    text.push_str(": ")?;
    text.push_str(word)?;
    push_meant_by(alloc, text, file, sort, word)
}

/// Appends the first of some words, with what they are to be, for which a line has its fault.
fn push_first_wrong(
    alloc: Global,
    text: &mut String,
    file: &FileText<'_>,
    fault: LineFault,
    sorts: &[Sort],
    words: &[&str],
) -> Result<(), AllocError>
    ensures { OnOk result (string_bytes text.new
        ≡ string_bytes text.old
        ++ culprit_text (file_view file.now) fault sorts.now (map (λ word. word.now) words.now)) }
{
    let mut rest = words;
    for sort in sorts {
        let [word, others @ ..] = rest else {
            return Ok(());
        };
        if is_wrong(alloc, file, fault, *sort, word)? {
            return push_wrong(alloc, text, file, *sort, word);
        }
        rest = others;
    }
    Ok(())
}

/// Appends the first word of a line for which it has its fault.
pub(crate) fn push_culprit(
    alloc: Global,
    text: &mut String,
    file: &FileText<'_>,
    fault: LineFault,
    line: &str,
) -> Result<(), AllocError>
    ensures { OnOk result
        (string_bytes text.new ≡ string_bytes text.old ++ culprit_of (file_view file.now) fault line.now) }
{
    let words = tokens(alloc, line)?;
    push_first_wrong(alloc, text, file, fault, sorts_in(&words), &words)
}
