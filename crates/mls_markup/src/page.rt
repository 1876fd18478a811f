//! A page that is written.
ghost use Rattle.std.specs.Prelude.{◌≡◌, ◌++◌, ◌∷◌, [], map, OnOk, IfOk};
ghost use Rattle.std.specs.Fmt.{decimal};
ghost use Rattle.mls_markup.specs.Documents.{bottom_text, top_text};
ghost use Rattle.mls_markup.specs.Drafts.{added, blank, closed, lined, opened, told};
ghost use Rattle.mls_markup.specs.Pages.{Adds, IsPage};
ghost use Rattle.mls_markup.specs.Trees.{Words, classed, named, plain};
ghost use Rattle.mls_markup.specs.declared.attribute.Attribute.TheVariants.{Class};

use crate::attribute::Attribute;
use crate::element::{push_begun, push_ended};
use crate::escaping::escape;
use crate::style::{BOTTOM, STYLE, TOP};
use crate::tag::Tag;
use itoa::Buffer;
use std::alloc::{AllocError, Global};
use std::marker::Model;

/// A page that is written, as HTML: at any time it is a part of what is written of a tree.
#[derive(Drop)]
pub struct Page {
    html: Vec<u8>,
    /// The elements that are begun and not ended, the innermost last.
    tags: Vec<Tag>,
    /// Whether a call failed, which may have left a front of what it appends.
    is_torn: bool,
    /// Whether it is a page with its top, and not a sheet.
    is_whole: bool,
}

impl Model for Page {
    ghost use Rattle.std.specs.Prelude.{◌≡◌, false, reverse};
    ghost use Rattle.mls_markup.specs.Drafts.{Draft};
    ghost use Rattle.mls_markup.specs.Pages.{IsPart};

    ghost Value = { Draft };

    ghost view = { λ p. record { bytes = p.html.items; tags = reverse p.tags.items } };

    ghost invariant = { λ p. p.is_torn ≡ false → IsPart p.is_whole p.html.items (reverse p.tags.items) };
}

/// The top of a page of this title.
fn top_of(alloc: Global, title: &str) -> Result<Vec<u8>, AllocError>
    ensures { IfOk result (λ html. html.items ≡ top_text title.now) }
{
    let mut html = Vec::new(alloc);
    html.extend_from_slice(TOP.as_bytes())?;
    escape(&mut html, title)?;
    html.extend_from_slice(STYLE.as_bytes())?;
    Ok(html)
}

impl Page {
    /// A page of this title, up to its body.
    ///
    /// # Errors
    /// `AllocError` where an allocation failed.
    pub fn new(alloc: Global, title: &str) -> Result<Page, AllocError>
        ensures { IfOk result (λ page. page ≡ blank title.now) }
    {
        let html = top_of(alloc, title)?;
        Ok(Page {
            html,
            tags: Vec::new(alloc),
            is_torn: false,
            is_whole: true,
        })
    }

    /// A sheet of its own, without anything: what is drawn on it can be added to a page.
    #[tactic(auto, using(crate::proofs::Parts::sheet_first))]
    pub fn sheet(alloc: Global) -> Page {
        Page {
            html: Vec::new(alloc),
            tags: Vec::new(alloc),
            is_torn: false,
            is_whole: false,
        }
    }

    /// The page's bytes, with its end: what is written of a tree.
    ///
    /// # Errors
    /// `AllocError` where an allocation failed, a call that appends failed, an element isn't ended, or it is a sheet.
    pub fn into_html(self) -> Result<Vec<u8>, AllocError>
        ensures bytes { IfOk result (λ html. html.items ≡ self.bytes ++ bottom_text) }
        ensures page { IfOk result (λ html. IsPage html.items) }
    {
        let Page {
            mut html,
            tags,
            is_torn,
            is_whole,
        } = self;
        let count = tags.len();
        drop(tags);
        if is_torn || !is_whole || count > 0 {
            drop(html);
            return Err(AllocError);
        }
        html.extend_from_slice(BOTTOM.as_bytes())?;
        Ok(html)
    }

    /// The allocator.
    pub fn alloc(&self) -> Global {
        *self.html.allocator()
    }

    /// Begins an element that has these attributes.
    ///
    /// # Errors
    /// `AllocError` where an allocation failed. The page may then have a part of it. So in what follows.
    #[tactic(auto, using(crate::proofs::Parts::part_begun, crate::proofs::Parts::draft_begun))]
    pub fn open_all(&mut self, tag: Tag, attributes: &[(Attribute, &str)]) -> Result<(), AllocError>
        ensures { OnOk result (self.new ≡ opened self.old tag (map named attributes.now)) }
    {
        let torn = self.is_torn;
        self.is_torn = true;
        push_begun(&mut self.html, tag, attributes)?;
        self.tags.push(tag)?;
        self.is_torn = torn;
        Ok(())
    }

    /// Begins an element without attributes.
    pub fn open(&mut self, tag: Tag) -> Result<(), AllocError>
        ensures { OnOk result (self.new ≡ opened self.old tag []) }
    {
        self.open_all(tag, &[])
    }

    /// Begins an element that has one attribute.
    pub fn open_with(
        &mut self,
        tag: Tag,
        attribute: Attribute,
        value: &str,
    ) -> Result<(), AllocError>
        ensures { OnOk result (self.new ≡ opened self.old tag ((attribute, value.now) ∷ [])) }
    {
        self.open_all(tag, &[(attribute, value)])
    }

    /// Begins an element of a class.
    pub fn open_as(&mut self, tag: Tag, class: &str) -> Result<(), AllocError>
        ensures { OnOk result (self.new ≡ opened self.old tag ((Class, class.now) ∷ [])) }
    {
        self.open_with(tag, Attribute::Class, class)
    }

    /// Ends the innermost element.
    ///
    /// # Errors
    /// Also where none is begun.
    #[tactic(auto, using(crate::proofs::Parts::part_ended, crate::proofs::Parts::draft_ended))]
    pub fn close(&mut self) -> Result<(), AllocError>
        ensures { OnOk result (self.new ≡ closed self.old) }
    {
        let torn = self.is_torn;
        self.is_torn = true;
        let Some(tag) = self.tags.pop() else {
            return Err(AllocError);
        };
        push_ended(&mut self.html, tag)?;
        self.is_torn = torn;
        Ok(())
    }

    /// Appends a text.
    #[tactic(auto, using(crate::proofs::Parts::part_text, crate::proofs::Parts::draft_told))]
    pub fn text(&mut self, text: &str) -> Result<(), AllocError>
        ensures { OnOk result (self.new ≡ told self.old text.now) }
    {
        let torn = self.is_torn;
        self.is_torn = true;
        escape(&mut self.html, text)?;
        self.is_torn = torn;
        Ok(())
    }

    /// Appends what is on a sheet: some tree.
    ///
    /// # Errors
    /// Also where a call on the sheet failed, an element of it isn't ended, or it is a page.
    pub fn add_sheet(&mut self, sheet: Page) -> Result<(), AllocError>
        ensures { OnOk result (Adds self.old self.new) }
    {
        let Page {
            html,
            tags,
            is_torn,
            is_whole,
        } = sheet;
        let count = tags.len();
        drop(tags);
        if is_torn || is_whole || count > 0 {
            drop(html);
            return Err(AllocError);
        }
        let torn = self.is_torn;
        self.is_torn = true;
        let done = self.html.extend_from_slice(&html);
        drop(html);
        done?;
        self.is_torn = torn;
        Ok(())
    }

    /// Appends a new line.
    #[tactic(auto, using(crate::proofs::Parts::part_line, crate::proofs::Parts::draft_lined))]
    pub fn line(&mut self) -> Result<(), AllocError>
        ensures { OnOk result (self.new ≡ lined self.old) }
    {
        let torn = self.is_torn;
        self.is_torn = true;
        self.html.push(10)?;
        self.is_torn = torn;
        Ok(())
    }

    /// Appends a number.
    pub fn number(&mut self, number: u64) -> Result<(), AllocError>
        ensures { OnOk result (self.new ≡ told self.old (decimal number)) }
    {
        let mut buffer = Buffer::new();
        self.text(buffer.format(number))
    }

    /// Appends an element with a text.
    pub fn leaf(&mut self, tag: Tag, text: &str) -> Result<(), AllocError>
        ensures { OnOk result (self.new ≡ added self.old (plain tag (Words text.now))) }
    {
        self.open(tag)?;
        self.text(text)?;
        self.close()
    }

    /// Appends an element of a class with a text.
    pub fn leaf_as(&mut self, tag: Tag, class: &str, text: &str) -> Result<(), AllocError>
        ensures { OnOk result (self.new ≡ added self.old (classed tag class.now (Words text.now))) }
    {
        self.open_as(tag, class)?;
        self.text(text)?;
        self.close()
    }
}
