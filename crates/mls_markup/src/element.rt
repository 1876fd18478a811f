//! How elements begin and end.
ghost use Rattle.std.specs.Prelude.{◌≡◌, ◌++◌, ◌∷◌, [], map, OnOk};
ghost use Rattle.std.specs.List.{flat_map};
ghost use Rattle.mls_markup.specs.Trees.{attribute_text, begun, ended, named};

use crate::attribute::Attribute;
use crate::escaping::escape;
use crate::tag::Tag;
use std::alloc::AllocError;

/// Appends an attribute.
fn push_attribute(html: &mut Vec<u8>, attribute: Attribute, value: &str) -> Result<(), AllocError>
    ensures { OnOk result (html.new.items ≡ html.old.items ++ attribute_text (attribute, value.now)) }
{
    html.extend_from_slice(b" ")?;
    html.extend_from_slice(attribute.word().as_bytes())?;
    html.extend_from_slice(b"=\"")?;
    escape(html, value)?;
    html.extend_from_slice(b"\"")
}

/// Appends a pair of an attribute and its value.
fn push_pair(html: &mut Vec<u8>, pair: &(Attribute, &str)) -> Result<(), AllocError>
    ensures { OnOk result (html.new.items ≡ html.old.items ++ attribute_text (named pair.now)) }
{
    let (attribute, value) = *pair;
    push_attribute(html, attribute, value)
}

/// Appends attributes.
fn push_attributes(html: &mut Vec<u8>, attributes: &[(Attribute, &str)]) -> Result<(), AllocError>
    ensures { OnOk result (html.new.items ≡ html.old.items ++ flat_map attribute_text (map named attributes.now)) }
{
    for pair in attributes {
        push_pair(html, pair)?;
    }
    Ok(())
}

/// Appends the beginning of an element.
pub(crate) fn push_begun(
    html: &mut Vec<u8>,
    tag: Tag,
    attributes: &[(Attribute, &str)],
) -> Result<(), AllocError>
    ensures { OnOk result (html.new.items ≡ html.old.items ++ begun tag (map named attributes.now)) }
{
    html.extend_from_slice(b"<")?;
    html.extend_from_slice(tag.word().as_bytes())?;
    push_attributes(html, attributes)?;
    html.extend_from_slice(b">")
}

/// Appends the end of an element.
pub(crate) fn push_ended(html: &mut Vec<u8>, tag: Tag) -> Result<(), AllocError>
    ensures { OnOk result (html.new.items ≡ html.old.items ++ ended tag) }
{
    html.extend_from_slice(b"</")?;
    html.extend_from_slice(tag.word().as_bytes())?;
    html.extend_from_slice(b">")
}
