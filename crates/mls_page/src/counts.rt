//! How many entries there are: granted and denied, by reason and by subject.
ghost use Rattle.std.specs.Prelude.{◌≡◌, ◌∷◌, [], codes, OnOk};
ghost use Rattle.mls_markup.specs.Drafts.{added, opened};
ghost use Rattle.mls_markup.specs.Trees.{Line, all_of};
ghost use Rattle.mls_markup.specs.declared.tag.Tag.TheVariants as tag;
ghost use Rattle.mls_page.specs.Bars.{class_of};
ghost use Rattle.mls_page.specs.Counts.{
  HasCounts,
  ShowsShares,
  counts,
  most_denied,
  reason_filled,
  reason_row,
  reason_table,
  share_row,
  share_table,
  share_tables,
  share_titles,
  share_where,
};
ghost use Rattle.mls_page.specs.Shown.{appendix, lighter, shown_at};
ghost use Rattle.mls_page.specs.Tables.{cell_of, column, table_head};

use crate::bar::Colour;
use crate::cell::{Cell, add_row};
use crate::gets::titled;
use crate::section::{COUNTS, begin_listed, end_line};
use crate::share::{Share, Sums, greatest_of, shares_of, sums_of};
use crate::shown::{begin_appendix, heaviest, lighter, rest_of};
use crate::table::{begin_table, end_table};
use crate::weight::in_order;
use mls_lines::Names;
use mls_listings::{ReasonCount, Summary};
use mls_markup::Page;
use std::alloc::AllocError;

/// The greatest count of some reasons.
fn most_denied(rows: &[ReasonCount]) -> u64
    ensures { result ≡ most_denied rows.now }
{
    rows.iter().fold(0, |most, row| row.entries.max(most))
}

/// The row of a reason.
#[tactic(auto, unfolding(crate::specs::Counts::reason_row, crate::specs::Tables::row))]
fn reason_row(page: &mut Page, units: u64, row: &ReasonCount) -> Result<(), AllocError>
    ensures { OnOk result (page.new ≡ added page.old (reason_row units row.now)) }
{
    let share = Cell::Share(Colour::Denied, units, row.entries);
    add_row(page, &[Cell::Title(row.reason.word()), share])
}

/// The rows of reasons.
fn reason_rows(page: &mut Page, units: u64, rows: &[ReasonCount]) -> Result<(), AllocError>
    ensures { OnOk result (page.new ≡ added page.old (all_of (reason_row units) rows.now)) }
{
    for row in rows {
        reason_row(page, units, row)?;
    }
    Ok(())
}

/// The table of reasons.
fn reason_filled(page: &mut Page, rows: &[ReasonCount]) -> Result<(), AllocError>
    ensures { OnOk result (page.new ≡ added page.old (reason_filled rows.now)) }
{
    let units = most_denied(rows);
    begin_table(page, "Denied, by reason", &["Reason", "Denied"])?;
    reason_rows(page, units, rows)?;
    end_table(page)?;
    Ok(())
}

/// The table of reasons, where there are such.
fn reason_table(page: &mut Page, rows: &[ReasonCount]) -> Result<(), AllocError>
    ensures { OnOk result (page.new ≡ added page.old (reason_table rows.now)) }
{
    if rows.is_empty() {
        return Ok(());
    }
    reason_filled(page, rows)
}

/// The cell of a number, where its column has something but zeros.
fn share_where(sum: u64, colour: Colour, units: u64, number: u64) -> Cell<'static>
    ensures { cell_of result ≡ share_where sum (class_of colour) units number }
{
    if sum == 0 {
        Cell::Nothing
    } else {
        Cell::Share(colour, units, number)
    }
}

/// The row of a subject.
#[tactic(auto, unfolding(crate::specs::Counts::share_row, crate::specs::Tables::row))]
fn share_row(
    page: &mut Page,
    names: &Names,
    sums: &Sums,
    units: u64,
    share: &Share,
) -> Result<(), AllocError>
    ensures { OnOk result (page.new ≡ added page.old (share_row names.now sums.now units share.now)) }
{
    let cells = [
        Cell::Subject(names, share.subject),
        share_where(sums.granted, Colour::Granted, units, share.granted),
        share_where(sums.denied, Colour::Denied, units, share.denied),
        share_where(sums.undefined, Colour::Undefined, units, share.undefined),
    ];
    add_row(page, &cells)
}

/// The row of the subject at a place.
fn share_at(
    page: &mut Page,
    names: &Names,
    sums: &Sums,
    units: u64,
    shares: &[Share],
    place: usize,
) -> Result<(), AllocError>
    ensures { OnOk result
        (page.new ≡ added page.old (shown_at (share_row names.now sums.now units) shares.now place)) }
{
    match shares.get(place) {
        Some(share) => share_row(page, names, sums, units, share),
        None => Ok(()),
    }
}

/// The rows of the subjects at some places.
fn share_rows(
    page: &mut Page,
    names: &Names,
    sums: &Sums,
    units: u64,
    shares: &[Share],
    places: &[usize],
) -> Result<(), AllocError>
    ensures { OnOk result (page.new
        ≡ added page.old (all_of (shown_at (share_row names.now sums.now units) shares.now) places.now)) }
{
    for place in places {
        share_at(page, names, sums, units, shares, *place)?;
    }
    Ok(())
}

/// Begins the table of subjects.
fn begin_shares(page: &mut Page, sums: &Sums) -> Result<(), AllocError>
    ensures { OnOk result (page.new ≡ added (opened (added (opened page.old tag.Table [])
        (table_head (codes "By the subject that asked") (all_of column (share_titles sums.now))))
        tag.TableBody []) Line) }
{
    let granted = titled("Granted", sums.granted);
    let denied = titled("Denied", sums.denied);
    let undefined = titled("Undefined", sums.undefined);
    let titles = ["Subject", granted, denied, undefined];
    begin_table(page, "By the subject that asked", &titles)
}

/// The table of some subjects, by their places.
fn share_table(
    page: &mut Page,
    names: &Names,
    shares: &[Share],
    places: &[usize],
) -> Result<(), AllocError>
    ensures { OnOk result (page.new ≡ added page.old (share_table names.now shares.now places.now)) }
{
    let units = greatest_of(shares);
    let sums = sums_of(shares);
    begin_shares(page, &sums)?;
    share_rows(page, names, &sums, units, shares, places)?;
    end_table(page)?;
    Ok(())
}

/// The appendix of so many subjects that the first table doesn't have.
#[tactic(auto, unfolding(crate::specs::Shown::folded))]
fn share_appendix(
    page: &mut Page,
    names: &Names,
    shares: &[Share],
    places: &[usize],
    rest: usize,
) -> Result<(), AllocError>
    ensures { OnOk result (page.new ≡ added page.old (appendix (codes "mls journal --summary START J") rest
        (share_table names.now shares.now (lighter places.now)))) }
{
    if rest == 0 {
        return Ok(());
    }
    begin_appendix(page, &COUNTS, rest)?;
    share_table(page, names, shares, lighter(places))?;
    end_line(page)
}

/// The tables of subjects in this order, where there are such.
fn share_tables(
    page: &mut Page,
    names: &Names,
    shares: &[Share],
    places: &[usize],
) -> Result<(), AllocError>
    ensures { OnOk result (page.new ≡ added page.old (share_tables names.now shares.now places.now)) }
{
    if shares.is_empty() {
        return Ok(());
    }
    share_table(page, names, shares, heaviest(places))?;
    share_appendix(page, names, shares, places, rest_of(places.len()))
}

/// The section, with subjects in this order.
#[tactic(auto, unfolding(crate::specs::Counts::counts, crate::specs::Sections::listed))]
fn counts_section(
    page: &mut Page,
    names: &Names,
    reasons: &[ReasonCount],
    shares: &[Share],
    places: &[usize],
) -> Result<(), AllocError>
    ensures { OnOk result
        (page.new ≡ added page.old (counts names.now reasons.now shares.now places.now)) }
{
    begin_listed(page, &COUNTS)?;
    reason_table(page, reasons)?;
    share_tables(page, names, shares, places)?;
    end_line(page)
}

/// The section, with these shares of subjects: those with most requests first.
fn add_shares(
    page: &mut Page,
    names: &Names,
    reasons: &[ReasonCount],
    shares: &[Share],
) -> Result<(), AllocError>
    ensures { OnOk result (ShowsShares names.now reasons.now shares.now page.old page.new) }
{
    let places = in_order(page.alloc(), shares)?;
    let done = counts_section(page, names, reasons, shares, &places);
    drop(places);
    done?;
    Ok(())
}

/// Appends how many entries there are, and which.
///
/// # Errors
/// `AllocError` where an allocation failed.
pub(crate) fn add_counts(
    page: &mut Page,
    names: &Names,
    summary: &Summary,
) -> Result<(), AllocError>
    ensures { OnOk result
        (HasCounts names.now summary.now.reasons.items summary.now.replies.items page.old page.new) }
{
    let shares = shares_of(page.alloc(), &summary.replies)?;
    let done = add_shares(page, names, &summary.reasons, &shares);
    drop(shares);
    done?;
    Ok(())
}
