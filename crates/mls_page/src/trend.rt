//! Denials over time, as inline SVG.
use crate::bar::path;
use crate::parts::{Part, add_parts};
use crate::section::end_line;
use mls_markup::{Attribute, Page, Tag};
use mls_overview::{Trend, push_week};
use std::alloc::AllocError;

/// The width of a column, with what is free beside it, and the height of the highest.
const WIDTH: u64 = 10;

const HEIGHT: u64 = 100;

/// The drawing's height: one unit more, so that the least column is seen.
const FULL: u64 = 102;

/// How wide a column is drawn at most, in pixels.
const BROAD: u64 = 60;

/// How many columns are compared with as many before them.
const COMPARED: usize = 4;

/// The sum of some columns.
fn sum_of(columns: &[u64]) -> u64 {
    columns
        .iter()
        .fold(0, |sum: u64, count| sum.saturating_add(*count))
}

/// How high a column is, of which the highest counts so many.
fn height_of(count: u64, greatest: u64) -> u64 {
    if count == 0 {
        return 0;
    }
    let height = count.saturating_mul(HEIGHT).checked_div(greatest);
    height.unwrap_or(0).saturating_add(2)
}

/// Appends a column at a place.
fn add_column(page: &mut Page, place: usize, count: u64, greatest: u64) -> Result<(), AllocError> {
    let height = height_of(count, greatest);
    if height == 0 {
        return Ok(());
    }
    let left = (place as u64).saturating_mul(WIDTH).saturating_add(1);
    let width = WIDTH - 2;
    let alloc = page.alloc();
    let shape = format!(in alloc; "M{left} {FULL}v-{height}h{width}v{height}z")?;
    path(page, shape)
}

/// Begins the drawing of so many columns: few aren't wide.
fn begin_drawing(page: &mut Page, count: u64) -> Result<(), AllocError> {
    let (width, most) = (count.saturating_mul(WIDTH), count.saturating_mul(BROAD));
    let alloc = page.alloc();
    let extent = format!(in alloc; "0 0 {width} {FULL}")?;
    let style = format!(in alloc; "max-width:{most}px")?;
    let attributes = [
        (Attribute::Class, "trend denied"),
        (Attribute::AriaHidden, "true"),
        (Attribute::Ratio, "none"),
        (Attribute::Extent, extent.as_str()),
        (Attribute::Style, style.as_str()),
    ];
    let done = page.open_all(Tag::Svg, &attributes);
    drop(style);
    drop(extent);
    done
}

/// The drawing of columns.
fn draw(page: &mut Page, columns: &[u64]) -> Result<(), AllocError> {
    let greatest = columns.iter().copied().max().unwrap_or(0);
    begin_drawing(page, columns.len() as u64)?;
    for (place, count) in columns.iter().enumerate() {
        add_column(page, place, *count, greatest)?;
    }
    page.close()
}

/// The day on which a week begins.
fn add_day(page: &mut Page, week: u64) -> Result<(), AllocError> {
    let mut day = String::new(page.alloc());
    push_week(&mut day, week)?;
    let done = page.text(&day);
    drop(day);
    done
}

/// What the columns are of.
fn add_unit(page: &mut Page, trend: &Trend) -> Result<(), AllocError> {
    let columns = trend.columns.len() as u64;
    let Some((first, width)) = trend.weeks else {
        let rest = Part::Text(" equal parts of the entries, from the first to the last");
        return add_parts(page, &[Part::Text("In "), Part::Number(columns), rest]);
    };
    match width {
        1 => page.text("By week, from ")?,
        _ => {
            let rest = Part::Text(" weeks, from ");
            add_parts(page, &[Part::Text("By "), Part::Number(width), rest])?;
        }
    }
    add_day(page, first)?;
    page.text(" to the one of ")?;
    add_day(
        page,
        first.saturating_add(columns.saturating_sub(1).saturating_mul(width)),
    )
}

/// How the last columns compare with those before them.
fn add_comparison(page: &mut Page, columns: &[u64], which: &str) -> Result<(), AllocError> {
    let count = columns.len();
    if count < 2 * COMPARED {
        return Ok(());
    }
    let (before, last) = columns.split_at(count.saturating_sub(COMPARED));
    let (_, before) = before.split_at(before.len().saturating_sub(COMPARED));
    let parts = [
        Part::Text(which),
        Part::Number(sum_of(last)),
        Part::Text(", in the four before "),
        Part::Number(sum_of(before)),
    ];
    add_parts(page, &parts)
}

/// The same of a trend, where each denied entry is in a column: the last week may go on, so it isn't compared.
fn compare_last(page: &mut Page, trend: &Trend) -> Result<(), AllocError> {
    if trend.unmarked > 0 {
        return Ok(());
    }
    let columns: &[u64] = &trend.columns;
    if trend.weeks.is_none() {
        return add_comparison(page, columns, "; in the last four ");
    }
    let (over, _) = columns.split_at(columns.len().saturating_sub(1));
    add_comparison(page, over, "; in the last four that are over ")
}

/// How many denied entries are in no column, where there are such.
fn add_unmarked(page: &mut Page, count: u64) -> Result<(), AllocError> {
    if count == 0 {
        return Ok(());
    }
    let rest = Part::Text(" more behind the last mark");
    add_parts(page, &[Part::Text("; "), Part::Number(count), rest])
}

/// What stands below the drawing.
fn add_note(page: &mut Page, trend: &Trend) -> Result<(), AllocError> {
    let greatest = trend.columns.iter().copied().max().unwrap_or(0);
    page.open_as(Tag::Span, "note")?;
    add_unit(page, trend)?;
    add_parts(page, &[Part::Text("; at most "), Part::Number(greatest)])?;
    compare_last(page, trend)?;
    add_unmarked(page, trend.unmarked)?;
    add_parts(page, &[Part::Text("."), Part::End])
}

/// Appends the drawing of columns, where there are two or more, and what stands below it.
fn add_columns(page: &mut Page, trend: &Trend) -> Result<(), AllocError> {
    if trend.columns.len() > 1 {
        draw(page, &trend.columns)?;
        page.line()?;
    }
    add_note(page, trend)
}

/// Appends the line of how many entries were denied, and when.
pub(crate) fn add_trend(page: &mut Page, denied: u64, trend: &Trend) -> Result<(), AllocError> {
    let parts = [
        Part::Begin(Tag::Item),
        Part::Begin(Tag::Bold),
        Part::Number(denied),
        Part::Text(" denied"),
        Part::End,
        Part::Line,
    ];
    add_parts(page, &parts)?;
    if denied > 0 {
        add_columns(page, trend)?;
    }
    end_line(page)
}
