//! What trust granted.
ghost use Rattle.std.specs.Prelude.{◌≡◌, OnOk};
ghost use Rattle.mls_markup.specs.Drafts.{added};
ghost use Rattle.mls_markup.specs.Trees.{all_of};
ghost use Rattle.mls_page.specs.Trusted.{most_of, trust, trust_filled, trust_row, trust_table};

use crate::bar::Colour;
use crate::cell::{Cell, add_row};
use crate::section::{TRUST, add_paragraph, begin_listed, end_line};
use crate::table::{begin_table, end_table};
use crate::weight::{Weighed, in_order};
use mls_groups::{Group, grouped};
use mls_lines::Names;
use mls_markup::Page;
use mls_tables::SubjectId;
use std::alloc::{AllocError, Global};

/// How often trust alone granted what a subject asked.
#[derive(Clone, Copy)]
pub struct Trusting {
    pub subject: SubjectId,
    pub count: u64,
}

impl Weighed for Trusting {
    ghost weight_of = { λ t. t.count };

    /// How often it was.
    fn weight(&self) -> u64 {
        self.count
    }
}

/// The rows of groups, which have the numbers of subjects as keys.
fn of_groups(alloc: Global, groups: &[Group]) -> Result<Vec<Trusting>, AllocError> {
    let mut found = Vec::new(alloc);
    for group in groups {
        let subject = SubjectId::new((group.key % 65_536) as u16);
        found.push(Trusting {
            subject,
            count: group.count as u64,
        })?;
    }
    Ok(found)
}

/// The subjects of some grants, by number.
fn counted(alloc: Global, subjects: &[u64]) -> Result<Vec<Trusting>, AllocError> {
    let grouping = grouped(alloc, subjects)?;
    let found = of_groups(alloc, &grouping.groups);
    drop(grouping);
    found
}

/// The rows at some places, in this order.
fn ordered(
    alloc: Global,
    rows: &[Trusting],
    places: &[usize],
) -> Result<Vec<Trusting>, AllocError> {
    let mut found = Vec::new(alloc);
    for place in places {
        if let Some(row) = rows.get(*place) {
            found.push(*row)?;
        }
    }
    Ok(found)
}

/// Rows by how much each counts, the most first.
fn heaviest_first(alloc: Global, rows: &[Trusting]) -> Result<Vec<Trusting>, AllocError> {
    let places = in_order(alloc, rows)?;
    let found = ordered(alloc, rows, &places);
    drop(places);
    found
}

/// How often trust alone granted something to whom, by the subject of each such grant; the most often first.
///
/// # Errors
/// `AllocError` where an allocation failed.
pub fn trust_counts(alloc: Global, subjects: &[u64]) -> Result<Vec<Trusting>, AllocError> {
    let rows = counted(alloc, subjects)?;
    let found = heaviest_first(alloc, &rows);
    drop(rows);
    found
}

/// The greatest count of some rows.
fn most_of(rows: &[Trusting]) -> u64
    ensures { result ≡ most_of rows.now }
{
    rows.iter().fold(0, |most, row| row.count.max(most))
}

/// The row of a subject.
#[tactic(auto, unfolding(crate::specs::Trusted::trust_row, crate::specs::Tables::row))]
fn subject_row(page: &mut Page, names: &Names, units: u64, row: &Trusting) -> Result<(), AllocError>
    ensures { OnOk result (page.new ≡ added page.old (trust_row names.now units row.now)) }
{
    let cells = [
        Cell::Subject(names, row.subject),
        Cell::Share(Colour::Granted, units, row.count),
    ];
    add_row(page, &cells)
}

/// The rows of subjects.
fn add_rows(page: &mut Page, names: &Names, units: u64, rows: &[Trusting]) -> Result<(), AllocError>
    ensures { OnOk result (page.new ≡ added page.old (all_of (trust_row names.now units) rows.now)) }
{
    for row in rows {
        subject_row(page, names, units, row)?;
    }
    Ok(())
}

/// The table of subjects.
fn add_filled(page: &mut Page, names: &Names, rows: &[Trusting]) -> Result<(), AllocError>
    ensures { OnOk result (page.new ≡ added page.old (trust_filled names.now rows.now)) }
{
    let titles = ["Subject", "Granted by trust alone"];
    begin_table(page, "Denied, if the subject were not trusted", &titles)?;
    let units = most_of(rows);
    add_rows(page, names, units, rows)?;
    end_table(page)?;
    Ok(())
}

/// The table of subjects; without a row, that there is none.
fn add_table(page: &mut Page, names: &Names, rows: &[Trusting]) -> Result<(), AllocError>
    ensures { OnOk result (page.new ≡ added page.old (trust_table names.now rows.now)) }
{
    if rows.is_empty() {
        return add_paragraph(page, "No entry was granted by trust alone.");
    }
    add_filled(page, names, rows)
}

/// Appends who used trust, and how often.
///
/// # Errors
/// `AllocError` where an allocation failed.
#[tactic(auto, unfolding(crate::specs::Trusted::trust, crate::specs::Sections::listed))]
pub(crate) fn add_trust(page: &mut Page, names: &Names, rows: &[Trusting]) -> Result<(), AllocError>
    ensures { OnOk result (page.new ≡ added page.old (trust names.now rows.now)) }
{
    begin_listed(page, &TRUST)?;
    add_table(page, names, rows)?;
    end_line(page)
}
