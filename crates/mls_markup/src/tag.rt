//! The elements that a page may have.
ghost use Rattle.std.specs.Prelude.{◌≡◌};
ghost use Rattle.mls_markup.specs.Words.{tag_word};

/// An element that a page may have. None has raw text, and each has an end.
#[derive(Clone, Copy)]
pub enum Tag {
    Anchor,
    Bold,
    Caption,
    Code,
    Details,
    Division,
    Header,
    Heading,
    HeadingOfPage,
    Item,
    Items,
    Main,
    Navigation,
    Paragraph,
    Path,
    Preformatted,
    Section,
    Span,
    Summary,
    Svg,
    Table,
    TableBody,
    TableCell,
    TableHead,
    TableHeading,
    TableRow,
    Text,
}

impl Tag {
    /// Its name.
    pub(crate) fn word(self) -> &'static str
        ensures { result.now ≡ tag_word self }
    {
        match self {
            Tag::Anchor => "a",
            Tag::Bold => "b",
            Tag::Caption => "caption",
            Tag::Code => "code",
            Tag::Details => "details",
            Tag::Division => "div",
            Tag::Header => "header",
            Tag::Heading => "h2",
            Tag::HeadingOfPage => "h1",
            Tag::Item => "li",
            Tag::Items => "ul",
            Tag::Main => "main",
            Tag::Navigation => "nav",
            Tag::Paragraph => "p",
            Tag::Path => "path",
            Tag::Preformatted => "pre",
            Tag::Section => "section",
            Tag::Span => "span",
            Tag::Summary => "summary",
            Tag::Svg => "svg",
            Tag::Table => "table",
            Tag::TableBody => "tbody",
            Tag::TableCell => "td",
            Tag::TableHead => "thead",
            Tag::TableHeading => "th",
            Tag::TableRow => "tr",
            Tag::Text => "text",
        }
    }
}
