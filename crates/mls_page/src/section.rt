//! The sections of the page.
ghost use Rattle.std.specs.Prelude.{◌≡◌, OnOk};
ghost use Rattle.mls_markup.specs.Drafts.{added, closed, lined, opened};
ghost use Rattle.mls_markup.specs.Trees.{Both};
ghost use Rattle.mls_markup.specs.declared.tag.Tag.TheVariants as tag;
ghost use Rattle.mls_page.specs.Sections.{Lists, Shows, heading, labelled, paragraph, source};

use crate::parts::{Part, add_parts};
use mls_markup::{Attribute, Page, Tag};
use std::alloc::AllocError;

/// How many rows of a table are shown, and printed, at most: the heaviest.
pub const SHOWN: usize = 40;

/// How many of the others are in the appendix, which isn't printed, at most.
pub(crate) const LISTED: usize = 2_000;

/// How many columns of subjects a grid has, at most: the heaviest.
pub const ACROSS: usize = 20;

/// A section: what links name it by, its heading, and the command that prints all that it is about.
#[derive(Clone, Copy)]
pub(crate) struct Section {
    pub id: &'static str,
    pub title: &'static str,
    pub command: &'static str,
}

pub(crate) const SHORT: Section = Section {
    id: "short",
    title: "In short",
    command: "",
};

pub(crate) const DENIALS: Section = Section {
    id: "denials",
    title: "Denied entries",
    command: "mls journal --explain --reply no START J",
};

pub(crate) const TRUST: Section = Section {
    id: "trust",
    title: "Trust",
    command: "mls journal --used-trust START J",
};

pub(crate) const USAGE: Section = Section {
    id: "usage",
    title: "Use of permissions",
    command: "mls usage START J",
};

pub(crate) const HELD: Section = Section {
    id: "held",
    title: "Held",
    command: "mls held START J",
};

pub(crate) const POWERS: Section = Section {
    id: "powers",
    title: "Powers",
    command: "mls powers --journal J START",
};

pub(crate) const FUTURES: Section = Section {
    id: "futures",
    title: "What could come about",
    command: "",
};

pub(crate) const COUNTS: Section = Section {
    id: "counts",
    title: "Entries",
    command: "mls journal --summary START J",
};

pub(crate) const LATTICE: Section = Section {
    id: "lattice",
    title: "Lattice",
    command: "mls lattice START",
};

/// What was verified, without marks and with marks.
pub(crate) const VERIFIED: Section = Section {
    id: "verified",
    title: "Verified",
    command: "mls replay START J",
};

pub(crate) const MARKED: Section = Section {
    id: "verified",
    title: "Verified",
    command: "mls verify START J MARKS",
};

/// The sections, in their order.
pub(crate) const SECTIONS: [Section; 10] = [
    SHORT, DENIALS, TRUST, USAGE, HELD, POWERS, FUTURES, COUNTS, LATTICE, VERIFIED,
];

/// Begins a section with its heading.
#[tactic(auto, unfolding(crate::specs::Sections::heading))]
pub(crate) fn begin_section(page: &mut Page, section: &Section) -> Result<(), AllocError>
    ensures { OnOk result (page.new ≡ added (opened page.old tag.Section (labelled section.now.id.now))
        (heading section.now.id.now section.now.title.now)) }
{
    let parts = [
        Part::BeginWith(Tag::Section, Attribute::AriaLabelledBy, section.id),
        Part::Line,
        Part::BeginWith(Tag::Heading, Attribute::Id, section.id),
        Part::Text(section.title),
        Part::End,
        Part::Line,
    ];
    add_parts(page, &parts)
}

/// Appends which command lists it all.
#[tactic(auto, unfolding(crate::specs::Sections::source))]
fn add_source(page: &mut Page, command: &str) -> Result<(), AllocError>
    ensures { OnOk result (page.new ≡ added page.old (source command.now)) }
{
    let parts = [
        Part::BeginAs(Tag::Paragraph, "source"),
        Part::Leaf(Tag::Code, command),
        Part::Text(" lists it all."),
        Part::End,
        Part::Line,
    ];
    add_parts(page, &parts)
}

/// Begins a section with its heading, and the command that lists it all.
pub(crate) fn begin_listed(page: &mut Page, section: &Section) -> Result<(), AllocError>
    ensures { OnOk result (page.new ≡ added (opened page.old tag.Section (labelled section.now.id.now))
        (Both (heading section.now.id.now section.now.title.now) (source section.now.command.now))) }
{
    begin_section(page, section)?;
    add_source(page, section.command)
}

/// Ends the innermost element, and the line that it ends on.
pub(crate) fn end_line(page: &mut Page) -> Result<(), AllocError>
    ensures { OnOk result (page.new ≡ lined (closed page.old)) }
{
    page.close()?;
    page.line()
}

/// Appends a paragraph.
#[tactic(auto, unfolding(crate::specs::Sections::paragraph))]
pub(crate) fn add_paragraph(page: &mut Page, text: &str) -> Result<(), AllocError>
    ensures { OnOk result (page.new ≡ added page.old (paragraph text.now)) }
{
    page.leaf(Tag::Paragraph, text)?;
    page.line()
}

/// Appends a section, of which a sheet has what is under its heading.
///
/// # Errors
/// `AllocError` where an allocation failed, or the sheet has an element that isn't ended.
pub(crate) fn add_shown(page: &mut Page, section: &Section, sheet: Page) -> Result<(), AllocError>
    ensures { OnOk result (Shows section.now.id.now section.now.title.now page.old page.new) }
{
    begin_section(page, section)?;
    page.add_sheet(sheet)?;
    end_line(page)?;
    Ok(())
}

/// Appends a section whose command lists it all, of which a sheet has the rest.
///
/// # Errors
/// `AllocError` where an allocation failed, or the sheet has an element that isn't ended.
pub(crate) fn add_listed(page: &mut Page, section: &Section, sheet: Page) -> Result<(), AllocError>
    ensures { OnOk result (Lists section.now.id.now section.now.title.now section.now.command.now page.old page.new) }
{
    begin_listed(page, section)?;
    page.add_sheet(sheet)?;
    end_line(page)?;
    Ok(())
}
