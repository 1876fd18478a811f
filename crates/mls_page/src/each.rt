//! Each permission, in the appendix.
ghost use Rattle.std.specs.Prelude.{◌≡◌, ◌-◌, ◌∷◌, [], codes, filter, length, take, IfOk, OnOk};
ghost use Rattle.mls_listings.specs.Stamps.{rows_lent};
ghost use Rattle.mls_markup.specs.Drafts.{added, opened};
ghost use Rattle.mls_markup.specs.Trees.{Line, all_of};
ghost use Rattle.mls_markup.specs.declared.tag.Tag.TheVariants as tag;
ghost use Rattle.mls_page.specs.Tables.{column, table_head};
ghost use Rattle.mls_page.specs.Usage.{
  each_permission,
  is_wanted,
  never_first,
  never_text,
  permission_row,
  permission_table,
  permission_titles,
};
ghost use Rattle.mls_page.specs.declared.section.TheConstants.{LISTED};

use crate::cell::{Cell, add_cells};
use crate::gets::{Gets, number_where, titled};
use crate::moment::last_cell;
use crate::section::{LISTED, end_line};
use crate::shown::begin_folded;
use crate::table::{begin_table, end_table};
use mls_lines::Names;
use mls_marks::Marks;
use mls_markup::{Page, Tag};
use mls_spans::Usage;
use std::alloc::AllocError;

/// What is told of a permission that no entry got or was denied.
fn never_text(is_held: bool) -> &'static str
    ensures { result.now ≡ never_text is_held }
{
    if is_held { "start" } else { "never asked" }
}

/// The row of a permission.
#[tactic(auto, unfolding(crate::specs::Usage::permission_row, crate::specs::Tables::row))]
fn permission_row(
    page: &mut Page,
    names: &Names,
    marks: Option<&Marks>,
    all: &Gets,
    usage: &Usage,
) -> Result<(), AllocError>
    ensures { OnOk result
        (page.new ≡ added page.old (permission_row names.now (rows_lent marks.entry) all.now usage.now)) }
{
    let cells = [
        Cell::Access(names, usage.access),
        number_where(all.granted, usage.uses.granted),
        number_where(all.denied, usage.uses.denied),
    ];
    page.open(Tag::TableRow)?;
    add_cells(page, &cells)?;
    last_cell(page, marks, usage.uses.last, never_text(usage.is_held))?;
    end_line(page)
}

/// Whether a permission was granted, or never was.
fn is_wanted(is_granted: bool, usage: &Usage) -> bool
    ensures { result ≡ is_wanted is_granted usage.now }
{
    if is_granted {
        !usage.is_unused()
    } else {
        usage.is_unused()
    }
}

/// A permission, where it is to be listed and as many still are. The answer is how many still are behind it.
fn add_wanted(
    page: &mut Page,
    names: &Names,
    marks: Option<&Marks>,
    all: &Gets,
    usage: &Usage,
    is_granted: bool,
    left: usize,
) -> Result<usize, AllocError>
    ensures rows { OnOk result (page.new ≡ added page.old (all_of
        (permission_row names.now (rows_lent marks.entry) all.now)
        (take left (filter (is_wanted is_granted) (usage.now ∷ []))))) }
    ensures left { IfOk result (λ rest. rest ≡ left - length (filter (is_wanted is_granted) (usage.now ∷ []))) }
{
    let is_listed = is_wanted(is_granted, usage);
    if left == 0 || !is_listed {
        return Ok(left);
    }
    permission_row(page, names, marks, all, usage)?;
    Ok(left - 1)
}

/// The permissions that were granted, or never were, as many as are listed. The answer is how many still are.
fn add_where(
    page: &mut Page,
    names: &Names,
    marks: Option<&Marks>,
    all: &Gets,
    usages: &[Usage],
    is_granted: bool,
    most: usize,
) -> Result<usize, AllocError>
    ensures rows { OnOk result (page.new ≡ added page.old (all_of
        (permission_row names.now (rows_lent marks.entry) all.now)
        (take most (filter (is_wanted is_granted) usages.now)))) }
    ensures left { IfOk result (λ rest. rest ≡ most - length (filter (is_wanted is_granted) usages.now)) }
{
    let mut left = most;
    for usage in usages {
        left = add_wanted(page, names, marks, all, usage, is_granted, left)?;
    }
    Ok(left)
}

/// Begins the table of permissions.
fn begin_permissions(page: &mut Page, all: &Gets) -> Result<(), AllocError>
    ensures { OnOk result (page.new ≡ added (opened (added (opened page.old tag.Table [])
        (table_head (codes "Never granted ones first") (all_of column (permission_titles all.now))))
        tag.TableBody []) Line) }
{
    let granted = titled("Granted", all.granted);
    let denied = titled("Denied", all.denied);
    let titles = ["Permission", granted, denied, "Last entry"];
    begin_table(page, "Never granted ones first", &titles)
}

/// The rows of permissions, those that were never granted first, as many as are listed.
fn permission_rows(
    page: &mut Page,
    names: &Names,
    marks: Option<&Marks>,
    all: &Gets,
    usages: &[Usage],
) -> Result<(), AllocError>
    ensures { OnOk result (page.new ≡ added page.old (all_of
        (permission_row names.now (rows_lent marks.entry) all.now) (take LISTED (never_first usages.now)))) }
{
    let left = add_where(page, names, marks, all, usages, false, LISTED)?;
    add_where(page, names, marks, all, usages, true, left)?;
    Ok(())
}

/// The table of all permissions, those that were never granted first.
#[tactic(auto, unfolding(crate::specs::Usage::permission_table, crate::specs::Tables::table))]
fn permission_table(
    page: &mut Page,
    names: &Names,
    marks: Option<&Marks>,
    all: &Gets,
    usages: &[Usage],
) -> Result<(), AllocError>
    ensures { OnOk result
        (page.new ≡ added page.old (permission_table names.now (rows_lent marks.entry) all.now usages.now)) }
{
    begin_permissions(page, all)?;
    permission_rows(page, names, marks, all, usages)?;
    end_table(page)
}

/// The appendix, which has each permission.
#[tactic(auto, unfolding(crate::specs::Usage::each_permission, crate::specs::Shown::folded))]
pub(crate) fn add_each(
    page: &mut Page,
    names: &Names,
    marks: Option<&Marks>,
    all: &Gets,
    usages: &[Usage],
) -> Result<(), AllocError>
    ensures { OnOk result
        (page.new ≡ added page.old (each_permission names.now (rows_lent marks.entry) all.now usages.now)) }
{
    let count = usages.len().min(LISTED) as u64;
    begin_folded(page, "Permissions, the first ", count)?;
    permission_table(page, names, marks, all, usages)?;
    end_line(page)
}
