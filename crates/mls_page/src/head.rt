//! The head of the page, and its end.
ghost use Rattle.std.specs.Prelude.{◌≡◌, ◌∷◌, ◌++◌, [], codes, string_bytes, IfOk, OnOk};
ghost use Rattle.mls_markup.specs.Documents.{bottom_text};
ghost use Rattle.mls_markup.specs.Drafts.{added, blank, closed, lined, opened};
ghost use Rattle.mls_markup.specs.Trees.{Both, Line, all_of};
ghost use Rattle.mls_markup.specs.declared.tag.Tag.TheVariants as tag;
ghost use Rattle.mls_markup.specs.declared.attribute.Attribute.TheVariants as attribute;
ghost use Rattle.mls_page.specs.Heads.{all_links, begun_page, header, link_to, links, title};
ghost use Rattle.mls_markup.specs.Pages.{IsPage};

use crate::parts::{Part, add_parts};
use crate::section::{SECTIONS, Section, end_line};
use mls_markup::{Attribute, Page, Tag};
use std::alloc::{AllocError, Global};

/// The title of the page about a journal of this name.
#[tactic(auto, unfolding(crate::specs::Heads::title))]
fn title_of(alloc: Global, journal: &str) -> Result<String, AllocError>
    ensures { IfOk result (λ text. string_bytes text ≡ title journal.now) }
{
    let mut title = String::new(alloc);
    title.push_str("mls report: ")?;
    title.push_str(journal)?;
    Ok(title)
}

/// A page up to its body, about the journal of this name.
fn titled(alloc: Global, journal: &str) -> Result<Page, AllocError>
    ensures { IfOk result (λ page. page ≡ blank (title journal.now)) }
{
    let title = title_of(alloc, journal)?;
    let page = Page::new(alloc, &title);
    drop(title);
    page
}

/// The heading of the page.
#[tactic(auto, unfolding(crate::specs::Heads::header))]
fn add_header<'a>(page: &mut Page, start: &'a str, journal: &'a str) -> Result<(), AllocError>
    ensures { OnOk result (page.new ≡ added page.old (header start.now journal.now)) }
{
    let parts = [
        Part::Begin(Tag::Header),
        Part::Line,
        Part::Begin(Tag::HeadingOfPage),
        Part::Text("Report of "),
        Part::Text(journal),
        Part::End,
        Part::Line,
        Part::Begin(Tag::Paragraph),
        Part::Text("A journal over the start file "),
        Part::Leaf(Tag::Code, start),
        Part::Text(". START and J below are these two files."),
        Part::End,
        Part::Line,
        Part::End,
        Part::Line,
    ];
    add_parts(page, &parts)
}

/// Begins the link to an address in the page.
fn begin_link(page: &mut Page, id: &str) -> Result<(), AllocError>
    ensures { OnOk result (page.new ≡ opened page.old tag.Anchor ((attribute.Link, codes "#" ++ id.now) ∷ [])) }
{
    let mut address = String::new(page.alloc());
    address.push_str("#")?;
    address.push_str(id)?;
    let begun = page.open_with(Tag::Anchor, Attribute::Link, &address);
    drop(address);
    begun
}

/// The link to a section.
#[tactic(auto, unfolding(crate::specs::Heads::link, crate::specs::Heads::link_to))]
fn add_link(page: &mut Page, section: &Section) -> Result<(), AllocError>
    ensures { OnOk result (page.new ≡ added page.old (link_to section.now)) }
{
    page.open(Tag::Item)?;
    begin_link(page, section.id)?;
    let title = Part::Text(section.title);
    add_parts(page, &[title, Part::End, Part::End, Part::Line])
}

/// The links to sections.
fn add_each(page: &mut Page, sections: &[Section]) -> Result<(), AllocError>
    ensures { OnOk result (page.new ≡ added page.old (all_of link_to sections.now)) }
{
    for section in sections {
        add_link(page, section)?;
    }
    Ok(())
}

/// The links to all sections, one after the other.
fn add_all(page: &mut Page) -> Result<(), AllocError>
    ensures { OnOk result (page.new ≡ added page.old all_links) }
{
    add_each(page, &SECTIONS)?;
    Ok(())
}

/// The links to all sections.
#[tactic(auto, unfolding(crate::specs::Heads::links))]
fn add_links(page: &mut Page) -> Result<(), AllocError>
    ensures { OnOk result (page.new ≡ added page.old links) }
{
    let parts = [
        Part::BeginWith(Tag::Navigation, Attribute::AriaLabel, "Sections"),
        Part::Begin(Tag::Items),
        Part::Line,
    ];
    add_parts(page, &parts)?;
    add_all(page)?;
    add_parts(page, &[Part::End, Part::End, Part::Line])
}

/// The page's heading and its links, and the beginning of what holds its sections.
fn begin_main<'a>(page: &mut Page, start: &'a str, journal: &'a str) -> Result<(), AllocError>
    ensures { OnOk result (page.new
        ≡ added (opened (added page.old (Both (header start.now journal.now) links)) tag.Main []) Line) }
{
    add_header(page, start, journal)?;
    add_links(page)?;
    page.open(Tag::Main)?;
    page.line()
}

/// Begins the page about the journal and the start file of these names.
///
/// # Errors
/// `AllocError` where an allocation failed.
pub(crate) fn begin_report<'a>(
    alloc: Global,
    start: &'a str,
    journal: &'a str,
) -> Result<Page, AllocError>
    ensures { IfOk result (λ page. page ≡ begun_page start.now journal.now) }
{
    let mut page = titled(alloc, journal)?;
    begin_main(&mut page, start, journal)?;
    Ok(page)
}

/// The page's bytes: what is written of a tree, between its top and its bottom.
///
/// # Errors
/// `AllocError` where an allocation failed.
pub(crate) fn end_report(page: Page) -> Result<Vec<u8>, AllocError>
    ensures page { IfOk result (λ html. IsPage html.items) }
    ensures bytes { IfOk result (λ html. html.items ≡ (lined (closed page)).bytes ++ bottom_text) }
{
    let mut page = page;
    end_line(&mut page)?;
    page.into_html()
}
