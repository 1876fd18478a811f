//! Which objects of a new start were which of an old one: a map, written.
ghost use Rattle.std.specs.Prelude.{◌≡◌, ◌++◌, string_bytes, IfOk, OnOk};
ghost use Rattle.mls_wording.specs.Wording.{object_text};
ghost use Rattle.mls_compare.specs.Maps.{line_text, map_text};

use mls_lines::Names;
use mls_tables::ObjectId;
use mls_wording::{push_number, push_object};
use std::alloc::{AllocError, Global};

/// Appends the line of an object: its new number, its old one, and what it was called.
fn push_line(text: &mut String, names: &Names, new: usize, old: ObjectId) -> Result<(), AllocError>
    ensures { OnOk result
        (string_bytes text.new ≡ string_bytes text.old ++ line_text new old (object_text names.now old)) }
{
    push_number(text, new as u64)?;
    text.push_str(" ")?;
    push_number(text, u64::from(old.number()))?;
    text.push_str(" ")?;
    push_object(text, names, old)?;
    text.push_str("\n")
}

/// The map of an order of objects, whose places are their new numbers: a line for each, `NEW OLD NAME`, with the name
/// that a start has for the old number, or `#` and that number.
///
/// # Errors
/// `AllocError` where an allocation failed.
pub fn map_text(alloc: Global, names: &Names, order: &[ObjectId]) -> Result<String, AllocError>
    ensures { IfOk result (λ text. string_bytes text ≡ map_text names.now order.now) }
{
    let mut text = String::new(alloc);
    for new in 0..order.len() {
        push_line(&mut text, names, new, order[new])?;
    }
    Ok(text)
}
