//! What subjects may change.
ghost use Rattle.std.specs.Prelude.{◌≡◌, codes, length, map, IfOk, OnOk};
ghost use Rattle.mls_groups.specs.Weights.{IsByWeight};
ghost use Rattle.mls_markup.specs.Drafts.{added};
ghost use Rattle.mls_markup.specs.Trees.{all_of};
ghost use Rattle.mls_page.specs.Powers.{
  HasPowers,
  ShowsRuns,
  kind_items,
  kind_of,
  power_row,
  power_table,
  power_tables,
  powers,
};
ghost use Rattle.mls_page.specs.Runs.{runs_by};
ghost use Rattle.mls_page.specs.Shown.{appendix, lighter, shown_at};

use crate::cell::{Cell, add_cells};
use crate::changes::{ByKind, ByMaker, kind_items, maker_of};
use crate::cutting::cut;
use crate::parts::{Part, add_parts};
use crate::section::{POWERS, add_paragraph, begin_listed, end_line};
use crate::shown::{begin_appendix, heaviest, lighter, rest_of};
use crate::table::{begin_table, end_table};
use mls_groups::by_weight;
use mls_lines::Names;
use mls_markup::{Page, Tag};
use mls_review::Change;
use std::alloc::{AllocError, Global};

const TITLES: [&str; 2] = ["Subject", "May"];

/// The changes of some kinds.
fn all_kinds(page: &mut Page, names: &Names, runs: &[&[Change]]) -> Result<(), AllocError>
    ensures { OnOk result
        (page.new ≡ added page.old (all_of (kind_items names.now) (map (λ run. run.now) runs.now))) }
{
    for run in runs {
        kind_items(page, names, run)?;
    }
    Ok(())
}

/// The changes of a subject, kind by kind.
fn by_kind(page: &mut Page, names: &Names, changes: &[Change]) -> Result<(), AllocError>
    ensures { OnOk result
        (page.new ≡ added page.old (all_of (kind_items names.now) (runs_by kind_of changes.now))) }
{
    let runs = cut::<Change, ByKind>(page.alloc(), changes)?;
    let done = all_kinds(page, names, &runs);
    drop(runs);
    done
}

/// The row of a subject.
#[tactic(auto, unfolding(crate::specs::Powers::power_row, crate::specs::Tables::row))]
fn power_row(page: &mut Page, names: &Names, changes: &[Change]) -> Result<(), AllocError>
    ensures { OnOk result (page.new ≡ added page.old (power_row names.now changes.now)) }
{
    page.open(Tag::TableRow)?;
    add_cells(page, &[Cell::Subject(names, maker_of(changes))])?;
    page.open(Tag::TableCell)?;
    page.open(Tag::Items)?;
    by_kind(page, names, changes)?;
    add_parts(page, &[Part::End, Part::End, Part::End, Part::Line])
}

/// The row of the subject at a place.
fn power_at(
    page: &mut Page,
    names: &Names,
    runs: &[&[Change]],
    place: usize,
) -> Result<(), AllocError>
    ensures { OnOk result (page.new
        ≡ added page.old (shown_at (power_row names.now) (map (λ run. run.now) runs.now) place)) }
{
    match runs.get(place) {
        Some(run) => power_row(page, names, run),
        None => Ok(()),
    }
}

/// The rows of the subjects at some places.
fn power_rows(
    page: &mut Page,
    names: &Names,
    runs: &[&[Change]],
    places: &[usize],
) -> Result<(), AllocError>
    ensures { OnOk result (page.new ≡ added page.old
        (all_of (shown_at (power_row names.now) (map (λ run. run.now) runs.now)) places.now)) }
{
    for place in places {
        power_at(page, names, runs, *place)?;
    }
    Ok(())
}

/// The table of subjects, in this order.
#[tactic(auto, unfolding(crate::specs::Powers::power_table, crate::specs::Tables::table))]
fn power_table(
    page: &mut Page,
    names: &Names,
    runs: &[&[Change]],
    places: &[usize],
) -> Result<(), AllocError>
    ensures { OnOk result
        (page.new ≡ added page.old (power_table names.now (map (λ run. run.now) runs.now) places.now)) }
{
    begin_table(page, "After the last entry", &TITLES)?;
    power_rows(page, names, runs, places)?;
    end_table(page)
}

/// The appendix of so many subjects that the first table doesn't have.
#[tactic(auto, unfolding(crate::specs::Shown::folded))]
fn power_appendix(
    page: &mut Page,
    names: &Names,
    runs: &[&[Change]],
    places: &[usize],
    rest: usize,
) -> Result<(), AllocError>
    ensures { OnOk result (page.new ≡ added page.old (appendix (codes "mls powers --journal J START") rest
        (power_table names.now (map (λ run. run.now) runs.now) (lighter places.now)))) }
{
    if rest == 0 {
        return Ok(());
    }
    begin_appendix(page, &POWERS, rest)?;
    power_table(page, names, runs, lighter(places))?;
    end_line(page)
}

/// The tables of subjects; without one, that there is none.
fn power_tables(
    page: &mut Page,
    names: &Names,
    runs: &[&[Change]],
    places: &[usize],
) -> Result<(), AllocError>
    ensures { OnOk result
        (page.new ≡ added page.old (power_tables names.now (map (λ run. run.now) runs.now) places.now)) }
{
    if runs.is_empty() {
        return add_paragraph(page, "No subject may change anything.");
    }
    power_table(page, names, runs, heaviest(places))?;
    power_appendix(page, names, runs, places, rest_of(places.len()))
}

/// The section, with subjects in this order.
#[tactic(auto, unfolding(crate::specs::Powers::powers, crate::specs::Sections::listed))]
fn powers_section(
    page: &mut Page,
    names: &Names,
    runs: &[&[Change]],
    places: &[usize],
) -> Result<(), AllocError>
    ensures { OnOk result
        (page.new ≡ added page.old (powers names.now (map (λ run. run.now) runs.now) places.now)) }
{
    begin_listed(page, &POWERS)?;
    power_tables(page, names, runs, places)?;
    end_line(page)
}

/// How many changes runs have.
fn lengths_of(alloc: Global, runs: &[&[Change]]) -> Result<Vec<u64>, AllocError>
    ensures { IfOk result
        (λ lengths. lengths.items ≡ map (λ run. length run) (map (λ run. run.now) runs.now)) }
{
    let mut lengths = Vec::new(alloc);
    for run in runs {
        lengths.push(run.len() as u64)?;
    }
    Ok(lengths)
}

/// The places of runs, the longest first.
fn longest_first(alloc: Global, runs: &[&[Change]]) -> Result<Vec<usize>, AllocError>
    ensures { IfOk result (λ places.
        IsByWeight (map (λ run. length run) (map (λ run. run.now) runs.now)) places.items) }
{
    let lengths = lengths_of(alloc, runs)?;
    let places = by_weight(alloc, &lengths);
    drop(lengths);
    places
}

/// The section, with the changes of each subject: those that may change most first.
fn add_runs(page: &mut Page, names: &Names, runs: &[&[Change]]) -> Result<(), AllocError>
    ensures { OnOk result (ShowsRuns names.now (map (λ run. run.now) runs.now) page.old page.new) }
{
    let places = longest_first(page.alloc(), runs)?;
    let done = powers_section(page, names, runs, &places);
    drop(places);
    done?;
    Ok(())
}

/// Appends what subjects may change, those that may change most first.
///
/// # Errors
/// `AllocError` where an allocation failed.
pub(crate) fn add_powers(
    page: &mut Page,
    names: &Names,
    changes: &[Change],
) -> Result<(), AllocError>
    ensures { OnOk result (HasPowers names.now changes.now page.old page.new) }
{
    let runs = cut::<Change, ByMaker>(page.alloc(), changes)?;
    let done = add_runs(page, names, &runs);
    drop(runs);
    done?;
    Ok(())
}
