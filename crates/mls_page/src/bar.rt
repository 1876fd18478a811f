//! Bars, as inline SVG. What a colour tells stands beside the bar as text.
ghost use Rattle.std.specs.Prelude.{◌≡◌, ◌∷◌, [], string_bytes, OnOk};
ghost use Rattle.mls_markup.specs.Drafts.{added, opened};
ghost use Rattle.mls_markup.specs.Trees.{Element, End};
ghost use Rattle.mls_markup.specs.declared.tag.Tag.TheVariants as tag;
ghost use Rattle.mls_markup.specs.declared.attribute.Attribute.TheVariants as attribute;
ghost use Rattle.mls_page.specs.Bars.{bar_of, class_of, drawn_as, stretch};

use mls_markup::{Attribute, Page, Tag};
use std::alloc::AllocError;

/// What the colour of a bar tells.
#[derive(Clone, Copy)]
pub(crate) enum Colour {
    Granted,
    Denied,
    Undefined,
    Held,
}

impl Colour {
    /// The class of a bar of this colour.
    fn class(self) -> &'static str
        ensures { result.now ≡ class_of self }
    {
        match self {
            Colour::Granted => "bar granted",
            Colour::Denied => "bar denied",
            Colour::Undefined => "bar undefined",
            Colour::Held => "bar held",
        }
    }
}

/// Begins a drawing of bars over so many units.
pub(crate) fn begin_bars(page: &mut Page, colour: Colour, units: u64) -> Result<(), AllocError>
    ensures { OnOk result (page.new ≡ opened page.old tag.Svg (drawn_as (class_of colour) units)) }
{
    let alloc = page.alloc();
    let extent = format!(in alloc; "0 0 {units} 1")?;
    let attributes = [
        (Attribute::Class, colour.class()),
        (Attribute::AriaHidden, "true"),
        (Attribute::Ratio, "none"),
        (Attribute::Extent, extent.as_str()),
    ];
    let done = page.open_all(Tag::Svg, &attributes);
    drop(extent);
    done
}

/// Appends a path of a shape.
pub(crate) fn path(page: &mut Page, shape: String) -> Result<(), AllocError>
    ensures { OnOk result (page.new ≡ added page.old
        (Element tag.Path ((attribute.Drawn, string_bytes shape) ∷ []) End)) }
{
    let done = page.open_with(Tag::Path, Attribute::Drawn, &shape);
    drop(shape);
    done?;
    page.close()
}

/// Appends one stretch of a bar, where it has a length.
pub(crate) fn stretch(page: &mut Page, from: u64, length: u64) -> Result<(), AllocError>
    ensures { OnOk result (page.new ≡ added page.old (stretch from length)) }
{
    if length == 0 {
        return Ok(());
    }
    let alloc = page.alloc();
    let shape = format!(in alloc; "M{from} 0h{length}v1h-{length}z")?;
    path(page, shape)
}

/// Appends a bar over so many units, from the first of them on and so many long.
#[tactic(auto, unfolding(crate::specs::Bars::bar_of))]
pub(crate) fn add_bar(
    page: &mut Page,
    colour: Colour,
    units: u64,
    length: u64,
) -> Result<(), AllocError>
    ensures { OnOk result (page.new ≡ added page.old (bar_of (class_of colour) units 0 length)) }
{
    begin_bars(page, colour, units)?;
    stretch(page, 0, length)?;
    page.close()
}
