//! Tables, row by row.
ghost use Rattle.std.specs.Prelude.{◌≡◌, ◌∷◌, [], OnOk};
ghost use Rattle.mls_markup.specs.Drafts.{added, closed, lined, opened};
ghost use Rattle.mls_markup.specs.Trees.{Both, Line, all_of};
ghost use Rattle.mls_markup.specs.declared.tag.Tag.TheVariants as tag;
ghost use Rattle.mls_page.specs.Tables.{column, column_of, table_head};

use crate::parts::{Part, add_parts};
use mls_markup::{Attribute, Page, Tag};
use std::alloc::AllocError;

/// The heading of a column; one without a title isn't there.
#[tactic(auto)]
fn add_column(page: &mut Page, title: &str) -> Result<(), AllocError>
    ensures { OnOk result (page.new ≡ added page.old (column title.now)) }
{
    if title.is_empty() {
        return Ok(());
    }
    page.open_with(Tag::TableHeading, Attribute::Scope, "col")?;
    page.text(title)?;
    page.close()
}

/// The headings of columns.
fn add_columns(page: &mut Page, titles: &[&str]) -> Result<(), AllocError>
    ensures { OnOk result (page.new ≡ added page.old (all_of column_of titles.now)) }
{
    for title in titles {
        add_column(page, title)?;
    }
    Ok(())
}

/// Ends the row of the headings of columns, and begins the rows.
pub(crate) fn begin_body(page: &mut Page) -> Result<(), AllocError>
    ensures { OnOk result (page.new ≡ lined (opened (lined (closed (closed page.old))) tag.TableBody [])) }
{
    page.close()?;
    page.close()?;
    page.line()?;
    page.open(Tag::TableBody)?;
    page.line()
}

/// Begins a table with its caption and the headings of its columns; one without a title isn't there.
#[tactic(auto, unfolding(crate::specs::Tables::table_head))]
pub(crate) fn begin_table(page: &mut Page, caption: &str, titles: &[&str]) -> Result<(), AllocError>
    ensures { OnOk result (page.new ≡ added (opened (added (opened page.old tag.Table [])
        (table_head caption.now (all_of column_of titles.now))) tag.TableBody []) Line) }
{
    let parts = [
        Part::Begin(Tag::Table),
        Part::Leaf(Tag::Caption, caption),
        Part::Line,
        Part::Begin(Tag::TableHead),
        Part::Begin(Tag::TableRow),
    ];
    add_parts(page, &parts)?;
    add_columns(page, titles)?;
    begin_body(page)
}

/// Ends a table.
pub(crate) fn end_table(page: &mut Page) -> Result<(), AllocError>
    ensures { OnOk result (page.new ≡ lined (closed (closed page.old))) }
{
    page.close()?;
    page.close()?;
    page.line()
}
