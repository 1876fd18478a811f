//! How permissions were used, by subject, and each of them.
ghost use Rattle.std.specs.Prelude.{◌≡◌, ◌∷◌, [], codes, OnOk};
ghost use Rattle.mls_listings.specs.Stamps.{rows_lent};
ghost use Rattle.mls_markup.specs.Drafts.{added, opened};
ghost use Rattle.mls_markup.specs.Trees.{Line, all_of};
ghost use Rattle.mls_markup.specs.declared.tag.Tag.TheVariants as tag;
ghost use Rattle.mls_page.specs.Shown.{shown_at};
ghost use Rattle.mls_page.specs.Usage.{
  HasUsage,
  ShowsTotals,
  permissions_line,
  total_row,
  total_table,
  total_titles,
  usage,
  usage_tables,
};
ghost use Rattle.mls_page.specs.Tables.{column, table_head};
ghost use Rattle.mls_spans.specs.UsageLines.{permissions_words};

use crate::cell::{Cell, add_cells};
use crate::each::add_each;
use crate::gets::{Gets, gets_of, number_where, titled};
use crate::moment::last_cell;
use crate::parts::{Part, add_parts};
use crate::section::{USAGE, begin_listed, end_line};
use crate::shown::heaviest;
use crate::table::{begin_table, end_table};
use crate::usage::{Total, totals};
use crate::weight::in_order;
use mls_lines::Names;
use mls_marks::Marks;
use mls_markup::{Page, Tag};
use mls_spans::{Usage, count_unused};
use std::alloc::AllocError;

/// The row of a subject.
#[tactic(auto, unfolding(crate::specs::Usage::total_row, crate::specs::Tables::row))]
fn total_row(
    page: &mut Page,
    names: &Names,
    marks: Option<&Marks>,
    all: &Gets,
    total: &Total,
) -> Result<(), AllocError>
    ensures { OnOk result
        (page.new ≡ added page.old (total_row names.now (rows_lent marks.entry) all.now total.now)) }
{
    let cells = [
        Cell::Subject(names, total.subject),
        Cell::Number(total.permissions),
        Cell::Number(total.unused),
        number_where(all.granted, total.granted),
        number_where(all.denied, total.denied),
    ];
    page.open(Tag::TableRow)?;
    add_cells(page, &cells)?;
    last_cell(page, marks, total.last, "-")?;
    end_line(page)
}

/// The row of the subject at a place.
fn total_at(
    page: &mut Page,
    names: &Names,
    marks: Option<&Marks>,
    all: &Gets,
    totals: &[Total],
    place: usize,
) -> Result<(), AllocError>
    ensures { OnOk result (page.new
        ≡ added page.old (shown_at (total_row names.now (rows_lent marks.entry) all.now) totals.now place)) }
{
    match totals.get(place) {
        Some(total) => total_row(page, names, marks, all, total),
        None => Ok(()),
    }
}

/// The rows of the subjects at some places.
fn total_rows(
    page: &mut Page,
    names: &Names,
    marks: Option<&Marks>,
    all: &Gets,
    totals: &[Total],
    places: &[usize],
) -> Result<(), AllocError>
    ensures { OnOk result (page.new ≡ added page.old
        (all_of (shown_at (total_row names.now (rows_lent marks.entry) all.now) totals.now) places.now)) }
{
    for place in places {
        total_at(page, names, marks, all, totals, *place)?;
    }
    Ok(())
}

/// Begins the table of subjects.
fn begin_totals(page: &mut Page, all: &Gets) -> Result<(), AllocError>
    ensures { OnOk result (page.new ≡ added (opened (added (opened page.old tag.Table [])
        (table_head (codes "By subject, the most never granted first") (all_of column (total_titles all.now))))
        tag.TableBody []) Line) }
{
    let granted = titled("Granted", all.granted);
    let denied = titled("Denied", all.denied);
    let titles = [
        "Subject",
        "Permissions",
        "Never granted",
        granted,
        denied,
        "Last entry",
    ];
    begin_table(page, "By subject, the most never granted first", &titles)
}

/// The table of subjects, in this order.
#[tactic(auto, unfolding(crate::specs::Usage::total_table, crate::specs::Tables::table))]
fn total_table(
    page: &mut Page,
    names: &Names,
    marks: Option<&Marks>,
    all: &Gets,
    totals: &[Total],
    places: &[usize],
) -> Result<(), AllocError>
    ensures { OnOk result (page.new ≡ added page.old
        (total_table names.now (rows_lent marks.entry) all.now totals.now places.now)) }
{
    begin_totals(page, all)?;
    total_rows(page, names, marks, all, totals, heaviest(places))?;
    end_table(page)
}

/// The words behind a number of permissions.
fn permissions_words(count: u64) -> &'static str
    ensures { result.now ≡ permissions_words count }
{
    if count == 1 {
        " permission, "
    } else {
        " permissions, "
    }
}

/// How many permissions there are.
#[tactic(auto, unfolding(crate::specs::Usage::permissions_line))]
fn permissions_line(page: &mut Page, usages: &[Usage]) -> Result<(), AllocError>
    ensures { OnOk result (page.new ≡ added page.old (permissions_line usages.now)) }
{
    let count = usages.len() as u64;
    let parts = [
        Part::Begin(Tag::Paragraph),
        Part::Number(count),
        Part::Text(permissions_words(count)),
        Part::Number(count_unused(usages)),
        Part::Text(" never granted"),
        Part::End,
        Part::Line,
    ];
    add_parts(page, &parts)
}

/// The tables of permissions, where there are any.
fn usage_tables(
    page: &mut Page,
    names: &Names,
    marks: Option<&Marks>,
    usages: &[Usage],
    totals: &[Total],
    places: &[usize],
) -> Result<(), AllocError>
    ensures { OnOk result (page.new ≡ added page.old
        (usage_tables names.now (rows_lent marks.entry) usages.now totals.now places.now)) }
{
    if usages.is_empty() {
        return Ok(());
    }
    let all = gets_of(usages);
    total_table(page, names, marks, &all, totals, places)?;
    add_each(page, names, marks, &all, usages)?;
    Ok(())
}

/// The section, with subjects in this order.
#[tactic(auto, unfolding(crate::specs::Usage::usage, crate::specs::Sections::listed))]
fn usage_section(
    page: &mut Page,
    names: &Names,
    marks: Option<&Marks>,
    usages: &[Usage],
    totals: &[Total],
    places: &[usize],
) -> Result<(), AllocError>
    ensures { OnOk result (page.new ≡ added page.old
        (usage names.now (rows_lent marks.entry) usages.now totals.now places.now)) }
{
    begin_listed(page, &USAGE)?;
    permissions_line(page, usages)?;
    usage_tables(page, names, marks, usages, totals, places)?;
    end_line(page)
}

/// The section, with these totals of subjects.
fn add_totals(
    page: &mut Page,
    names: &Names,
    marks: Option<&Marks>,
    usages: &[Usage],
    totals: &[Total],
) -> Result<(), AllocError>
    ensures { OnOk result
        (ShowsTotals names.now (rows_lent marks.entry) usages.now totals.now page.old page.new) }
{
    let places = in_order(page.alloc(), totals)?;
    let done = usage_section(page, names, marks, usages, totals, &places);
    drop(places);
    done?;
    Ok(())
}

/// Appends how permissions were used: by subject, the most never granted first, and in the appendix each of them; where
/// there are marks, with the days of the last entries.
///
/// # Errors
/// `AllocError` where an allocation failed.
pub(crate) fn add_usage(
    page: &mut Page,
    names: &Names,
    marks: Option<&Marks>,
    usages: &[Usage],
) -> Result<(), AllocError>
    ensures { OnOk result (HasUsage names.now (rows_lent marks.entry) usages.now page.old page.new) }
{
    let totals = totals(page.alloc(), usages)?;
    let done = add_totals(page, names, marks, usages, &totals);
    drop(totals);
    done?;
    Ok(())
}
