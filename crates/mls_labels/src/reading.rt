//! The steps of reading a label text, in one pass over it.
ghost use Rattle.std.specs.Prelude.{◌≡◌, ◌≢◌, ◌<◌, ◌≤◌, ◌∷◌, List, ℕ, length, false, true, IfNone, IfSome, MatchOption};
ghost use Rattle.std.specs.Prelude.{Ok};
ghost use Rattle.std.specs.FinSet as set;
ghost use Rattle.mls_labels.specs.Names.{is_name};
ghost use Rattle.mls_labels.specs.Scheme.{Scheme};
ghost use Rattle.mls_labels.specs.Reading.{front_of, rest_of, words_of, with_one, with_words, tail_at, label_with};
ghost use Rattle.mls_labels.specs.Reading.{label_at};

use crate::cat_set::CatSet;
use crate::label::Label;
use crate::label_fault::LabelFault;
use crate::limits::{MAX_CATEGORIES, MAX_LEVELS};
use crate::name_set::NameSet;
use crate::names::{front_len, is_name_len};
use std::alloc::Allocator;

/// The name at the front of a text, and what stands after it; `None` where no name stands there.
fn split_name(text: &str) -> Option<(&str, &str)>
    ensures none { IfNone result (is_name (front_of text.now) ≡ false) }
    ensures named { IfSome result (λ parts. is_name (front_of text.now) ≡ true) }
    ensures name { IfSome result (λ parts. parts.0.now ≡ front_of text.now) }
    ensures rest { IfSome result (λ parts. parts.1.now ≡ rest_of text.now) }
{
    let len = front_len(text.as_bytes());
    if is_name_len(len) {
        Some(text.split_at(len))
    } else {
        None
    }
}

/// What stands after a separator at the front.
fn after(text: &str, separator: char) -> Option<&str>
    requires { separator < 128 }
    ensures { MatchOption result ((rest : List ℕ) → text.now ≢ separator ∷ rest)
        (λ rest. text.now ≡ separator ∷ rest.now) }
{
    text.strip_prefix(separator)
}

/// What has been read of the categories, with the one in this place.
///
/// # Errors
/// The fault found before, `UnknownCategory` without a place, `RepeatedCategory` where the category was read before.
fn with_one(found: Result<CatSet, LabelFault>, place: Option<usize>) -> Result<CatSet, LabelFault>
    requires { IfSome place (λ n. n < MAX_CATEGORIES) }
    ensures { result ≡ with_one found place }
{
    let Some(n) = place else {
        return Err(LabelFault::UnknownCategory);
    };
    match found {
        Err(fault) => Err(fault),
        Ok(categories) => {
            if categories.contains(n as u8) {
                return Err(LabelFault::RepeatedCategory);
            }
            Ok(categories.with(n as u8))
        }
    }
}

/// The categories named in a text, with commas between them.
///
/// # Errors
/// The first fault of the text in the order of [`LabelFault`].
fn read_words<A: Allocator>(names: &NameSet<A>, text: &str) -> Result<CatSet, LabelFault>
    requires { length names.now ≤ MAX_CATEGORIES }
    ensures { result ≡ with_words names.now (Ok set.empty) (words_of text.now) }
{
    let mut found = Ok(CatSet::empty());
    let mut rest = text;
    loop {
        let Some((name, others)) = split_name(rest) else {
            return Err(LabelFault::BadForm);
        };
        found = with_one(found, names.place(name));
        if others.is_empty() {
            return found;
        }
        let Some(others) = after(others, ',') else {
            return Err(LabelFault::BadForm);
        };
        rest = others;
    }
}

/// The categories of what stands after the level.
///
/// # Errors
/// The first fault of the text in the order of [`LabelFault`].
fn read_tail<A: Allocator>(names: &NameSet<A>, text: &str) -> Result<CatSet, LabelFault>
    requires { length names.now ≤ MAX_CATEGORIES }
    ensures { result ≡ tail_at names.now text.now }
{
    if text.is_empty() {
        return Ok(CatSet::empty());
    }
    match after(text, ':') {
        None => Err(LabelFault::BadForm),
        Some(words) => read_words(names, words),
    }
}

/// A level's place and the categories, as a label.
///
/// # Errors
/// The first fault of the level and the categories in the order of [`LabelFault`].
fn label_with(
    place: Option<usize>,
    categories: Result<CatSet, LabelFault>,
) -> Result<Label, LabelFault>
    requires { IfSome place (λ n. n < MAX_LEVELS) }
    ensures { result ≡ label_with place categories }
{
    match categories {
        Err(LabelFault::BadForm) => Err(LabelFault::BadForm),
        Err(fault) => match place {
            None => Err(LabelFault::UnknownLevel),
            Some(_) => Err(fault),
        },
        Ok(categories) => match place {
            None => Err(LabelFault::UnknownLevel),
            Some(level) => Ok(Label::new(level as u8, categories)),
        },
    }
}

/// The label of a text in these names.
///
/// # Errors
/// The first fault of the text in the order of [`LabelFault`].
pub(crate) fn read_label<A: Allocator>(
    levels: &NameSet<A>,
    categories: &NameSet<A>,
    text: &str,
) -> Result<Label, LabelFault>
    requires levels { length levels.now ≤ MAX_LEVELS }
    requires categories { length categories.now ≤ MAX_CATEGORIES }
    ensures { result ≡ label_at (record { levels = levels.now; categories = categories.now }) text.now }
{
    match split_name(text) {
        None => Err(LabelFault::BadForm),
        Some((level, rest)) => label_with(levels.place(level), read_tail(categories, rest)),
    }
}
