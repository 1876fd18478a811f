//! What is appended to a page, part by part.
ghost use Rattle.std.specs.Prelude.{◌≡◌, OnOk};
ghost use Rattle.mls_page.specs.Parts.{with_all, with_part};

use crate::named::{add_object, add_subject};
use mls_lines::Names;
use mls_markup::{Attribute, Page, Tag};
use mls_tables::{ObjectId, SubjectId};
use std::alloc::AllocError;

/// A part of what is appended to a page.
#[derive(Clone, Copy)]
pub(crate) enum Part<'a> {
    /// An element begins: without attributes, of a class, or with an attribute.
    Begin(Tag),
    BeginAs(Tag, &'a str),
    BeginWith(Tag, Attribute, &'a str),
    /// The innermost element ends.
    End,
    /// An element with a text: without attributes, or of a class.
    Leaf(Tag, &'a str),
    LeafAs(Tag, &'a str, &'a str),
    Text(&'a str),
    Number(u64),
    Subject(&'a Names, SubjectId),
    Object(&'a Names, ObjectId),
    Line,
}

/// Appends a part.
fn add_part(page: &mut Page, part: &Part<'_>) -> Result<(), AllocError>
    ensures { OnOk result (page.new ≡ with_part page.old part.now) }
{
    match part {
        Part::Begin(tag) => page.open(*tag),
        Part::BeginAs(tag, class) => page.open_as(*tag, class),
        Part::BeginWith(tag, attribute, value) => page.open_with(*tag, *attribute, value),
        Part::End => page.close(),
        Part::Leaf(tag, text) => page.leaf(*tag, text),
        Part::LeafAs(tag, class, text) => page.leaf_as(*tag, class, text),
        Part::Text(text) => page.text(text),
        Part::Number(number) => page.number(*number),
        Part::Subject(names, s) => add_subject(page, names, *s),
        Part::Object(names, o) => add_object(page, names, *o),
        Part::Line => page.line(),
    }
}

/// Appends parts, one after the other.
///
/// # Errors
/// `AllocError` where an allocation failed.
pub(crate) fn add_parts(page: &mut Page, parts: &[Part<'_>]) -> Result<(), AllocError>
    ensures { OnOk result (page.new ≡ with_all page.old parts.now) }
{
    for part in parts {
        add_part(page, part)?;
    }
    Ok(())
}
