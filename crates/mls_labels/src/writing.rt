//! The steps of writing a label text, in one pass over the categories.
ghost use Rattle.std.specs.Prelude.{◌≡◌, ◌<◌, ◌≤◌, ◌++◌, ◌∷◌, IsTrue, OnErr, OnOk, length, map, nat_lt, string_bytes};
ghost use Rattle.mls_labels.specs.Ascending.{ascending};
ghost use Rattle.mls_facts.specs.Each.{each};
ghost use Rattle.mls_labels.specs.LabelText.{Extends, name_at, words_after, written};

use crate::cat_set::CatSet;
use crate::label::Label;
use crate::name_set::NameSet;
use std::alloc::{AllocError, Allocator};

/// Appends a separator and a name.
///
/// # Errors
/// `AllocError` where an allocation failed. A part of both may then stand at the end.
fn push_name<B: Allocator>(
    text: &mut String<B>,
    separator: char,
    name: &str,
) -> Result<(), AllocError>
    requires { separator < 128 }
    ensures ok { OnOk result (string_bytes text.new ≡ string_bytes text.old ++ separator ∷ name.now) }
    ensures err { OnErr result (Extends (string_bytes text.old) (string_bytes text.new)) }
{
    text.push(separator)?;
    text.push_str(name)?;
    Ok(())
}

/// Appends a colon and the names of the categories with commas between them; nothing where there is no
/// category.
///
/// # Errors
/// `AllocError` where an allocation failed. A part of the names may then stand at the end.
fn push_categories<A: Allocator, B: Allocator>(
    names: &NameSet<A>,
    categories: CatSet,
    text: &mut String<B>,
) -> Result<(), AllocError>
    requires { IsTrue (each categories (λ n. nat_lt n (length names.now))) }
    ensures ok { OnOk result
        (string_bytes text.new ≡ string_bytes text.old
        ++ words_after 58 (map (name_at names.now) (ascending categories))) }
    ensures err { OnErr result (Extends (string_bytes text.old) (string_bytes text.new)) }
{
    let mut separator = ':';
    let mut rest = categories;
    while let Some(n) = rest.pop_first() {
        push_name(text, separator, names.name(n as usize))?;
        separator = ',';
    }
    Ok(())
}

/// Appends the text of a label in these names.
///
/// # Errors
/// `AllocError` where an allocation failed. A part of the label's text may then stand at the end.
pub(crate) fn push_label<A: Allocator, B: Allocator>(
    levels: &NameSet<A>,
    categories: &NameSet<A>,
    label: Label,
    text: &mut String<B>,
) -> Result<(), AllocError>
    requires level { label.level < length levels.now }
    requires categories { IsTrue (each label.categories (λ n. nat_lt n (length categories.now))) }
    ensures ok { OnOk result
        (string_bytes text.new ≡ string_bytes text.old
        ++ written (record { levels = levels.now; categories = categories.now }) label) }
    ensures err { OnErr result (Extends (string_bytes text.old) (string_bytes text.new)) }
{
    text.push_str(levels.name(label.level() as usize))?;
    push_categories(categories, label.categories(), text)
}
