//! Changes that subjects may make, kind by kind.
ghost use Rattle.std.specs.Prelude.{◌≡◌, OnOk};
ghost use Rattle.mls_markup.specs.Drafts.{added};
ghost use Rattle.mls_markup.specs.Trees.{Words, all_of};
ghost use Rattle.mls_page.specs.Powers.{
  granted_words,
  kind_items,
  kind_of,
  maker,
  maker_of,
  more_of_kind,
  power_item,
  power_kind,
  relabeling_kind,
};
ghost use Rattle.mls_review.specs.Granted.{change_view, relabels};
ghost use Rattle.mls_review.specs.PowerRows.{granted_text};

use crate::cutting::Column;
use crate::parts::{Part, add_parts};
use crate::shown::first_of;
use mls_labels::SecLabel;
use mls_lines::Names;
use mls_markup::{Page, Tag};
use mls_review::{Change, Power, Relabeling, push_change};
use mls_tables::SubjectId;
use std::alloc::AllocError;

/// How many changes of one kind are told of a subject, at most.
const NAMED: usize = 3;

/// How many labels are told that a change may be to, at most.
const LABELS: usize = 3;

/// The kind of a power, as a number.
fn power_kind(power: Power) -> u64
    ensures { result ≡ power_kind power }
{
    match power {
        Power::Gives => 0,
        Power::Creates => 1,
        Power::Deletes => 2,
    }
}

/// The kind of a change of a label.
fn relabeling_kind(relabeling: Relabeling) -> u64
    ensures { result ≡ relabeling_kind relabeling }
{
    match relabeling {
        Relabeling::Level => 3,
        Relabeling::Down(_) | Relabeling::Aside(_) | Relabeling::Up(_) => 4,
    }
}

/// Changes by their kinds.
pub(crate) struct ByKind;

impl Column<Change> for ByKind {
    ghost number_of = { kind_of };

    fn of(row: &Change) -> u64 {
        match row {
            Change::Over(_, power, _) => power_kind(*power),
            Change::Labels(_, relabeling, _) => relabeling_kind(*relabeling),
        }
    }
}

/// Changes by who may make them.
pub(crate) struct ByMaker;

impl Column<Change> for ByMaker {
    ghost number_of = { maker };

    fn of(row: &Change) -> u64 {
        u64::from(row.subject().number())
    }
}

/// Who may make the changes of a run.
pub(crate) fn maker_of(changes: &[Change]) -> SubjectId
    ensures { result ≡ maker_of changes.now }
{
    match changes.first() {
        Some(change) => change.subject(),
        None => SubjectId::new(0),
    }
}

/// Appends a change, as `powers` tells it.
fn add_change(page: &mut Page, names: &Names, change: &Change) -> Result<(), AllocError>
    ensures { OnOk result
        (page.new ≡ added page.old (Words (granted_text names.now (change_view change.now)))) }
{
    let mut text = String::new(page.alloc());
    push_change(&mut text, names, change)?;
    let done = page.text(&text);
    drop(text);
    done
}

/// Appends a change to the first of many labels.
fn add_front(
    page: &mut Page,
    names: &Names,
    subject: SubjectId,
    relabeling: Relabeling,
    labels: &[SecLabel],
) -> Result<(), AllocError>
    ensures { OnOk result
        (page.new ≡ added page.old (Words (granted_text names.now (relabels subject relabeling labels.now)))) }
{
    let shown = Vec::from_slice(page.alloc(), labels)?;
    let front = Change::Labels(subject, relabeling, shown);
    let done = add_change(page, names, &front);
    drop(front);
    done
}

/// Appends a change to one of some labels: of many the first, and how many more there are.
fn add_labels(
    page: &mut Page,
    names: &Names,
    subject: SubjectId,
    relabeling: Relabeling,
    labels: &[SecLabel],
) -> Result<(), AllocError>
    ensures { OnOk result
        (page.new ≡ added page.old (granted_words names.now (relabels subject relabeling labels.now))) }
{
    if labels.len() <= LABELS {
        return add_front(page, names, subject, relabeling, labels);
    }
    add_front(page, names, subject, relabeling, &labels[..LABELS])?;
    let more = (labels.len() - LABELS) as u64;
    let rest = Part::Text(" more");
    add_parts(page, &[Part::Text(" and "), Part::Number(more), rest])
}

/// Appends what is told of a change.
fn add_words(page: &mut Page, names: &Names, change: &Change) -> Result<(), AllocError>
    ensures { OnOk result
        (page.new ≡ added page.old (granted_words names.now (change_view change.now))) }
{
    match change {
        Change::Over(..) => add_change(page, names, change),
        Change::Labels(subject, relabeling, labels) => {
            add_labels(page, names, *subject, *relabeling, labels)
        }
    }
}

/// What a subject may change.
#[tactic(auto, unfolding(crate::specs::Powers::power_item))]
fn power_item(page: &mut Page, names: &Names, change: &Change) -> Result<(), AllocError>
    ensures { OnOk result (page.new ≡ added page.old (power_item names.now change.now)) }
{
    page.open(Tag::Item)?;
    add_words(page, names, change)?;
    page.close()
}

/// Some changes.
fn power_items(page: &mut Page, names: &Names, changes: &[Change]) -> Result<(), AllocError>
    ensures { OnOk result (page.new ≡ added page.old (all_of (power_item names.now) changes.now)) }
{
    for change in changes {
        power_item(page, names, change)?;
    }
    Ok(())
}

/// How many more changes of a kind there are, where there are such.
fn more_of_kind(page: &mut Page, more: u64) -> Result<(), AllocError>
    ensures { OnOk result (page.new ≡ added page.old (more_of_kind more)) }
{
    if more == 0 {
        return Ok(());
    }
    let parts = [
        Part::Begin(Tag::Item),
        Part::Text("and "),
        Part::Number(more),
        Part::Text(" more of this kind"),
        Part::End,
    ];
    add_parts(page, &parts)
}

/// The changes of one kind: the first of them, and how many more there are.
pub(crate) fn kind_items(
    page: &mut Page,
    names: &Names,
    changes: &[Change],
) -> Result<(), AllocError>
    ensures { OnOk result (page.new ≡ added page.old (kind_items names.now changes.now)) }
{
    power_items(page, names, first_of(changes, NAMED))?;
    more_of_kind(page, changes.len().saturating_sub(NAMED) as u64)
}
