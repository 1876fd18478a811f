//! The attributes that an element of a page may have.
ghost use Rattle.std.specs.Prelude.{◌≡◌};
ghost use Rattle.mls_markup.specs.Words.{attribute_word};

/// An attribute that an element of a page may have.
#[derive(Clone, Copy)]
pub enum Attribute {
    AriaHidden,
    AriaLabel,
    AriaLabelledBy,
    Class,
    ColumnSpan,
    Drawn,
    Extent,
    Id,
    Link,
    Ratio,
    Role,
    Scope,
    Style,
    TabIndex,
    Transform,
}

impl Attribute {
    /// Its name.
    pub(crate) fn word(self) -> &'static str
        ensures { result.now ≡ attribute_word self }
    {
        match self {
            Attribute::AriaHidden => "aria-hidden",
            Attribute::AriaLabel => "aria-label",
            Attribute::AriaLabelledBy => "aria-labelledby",
            Attribute::Class => "class",
            Attribute::ColumnSpan => "colspan",
            Attribute::Drawn => "d",
            Attribute::Extent => "viewBox",
            Attribute::Id => "id",
            Attribute::Link => "href",
            Attribute::Ratio => "preserveAspectRatio",
            Attribute::Role => "role",
            Attribute::Scope => "scope",
            Attribute::Style => "style",
            Attribute::TabIndex => "tabindex",
            Attribute::Transform => "transform",
        }
    }
}
