//! How the permissions over entries were used.
ghost use Rattle.std.specs.Prelude.{◌≡◌, drop as dropped, IfOk};
ghost use Rattle.mls_rows.specs.Times.{rows_lent};
ghost use Rattle.mls_spans.specs.Uses.{usages as usages_in};
ghost use Rattle.mls_spans.specs.UsageListings.{IsUsage, trust_seen, up_to, usages_seen};
ghost use Rattle.mls_spans.specs.UsageListings.{entries_between as between};

use crate::states::States;
use crate::tallying::tally_over;
use crate::trust::TrustUse;
use crate::trusting::trust_over;
use crate::usage::{Usage, usages_by};
use crate::usage_rows::{count_unused, usages_written};
use crate::walking::tally_in;
use mls_lines::Names;
use mls_marks::Marks;
use mls_monitor::Entry;
use mls_replay::TextReplay;
use mls_rows::{Form, Listing};
use mls_rules::State;
use std::alloc::{AllocError, Global};

/// The entries below a number, where one is told, or else all.
fn entries_up_to(entries: &[Entry], last: Option<u64>) -> &[Entry]
    ensures { result.now ≡ up_to last entries.now }
{
    match last {
        Some(last) if last < entries.len() as u64 => &entries[..last as usize],
        _ => entries,
    }
}

/// The entries from a number on.
fn entries_from(entries: &[Entry], first: u64) -> &[Entry]
    ensures { result.now ≡ dropped first entries.now }
{
    if first > entries.len() as u64 {
        return &entries[entries.len()..];
    }
    &entries[first as usize..]
}

/// The entries between the first and the last of some states.
pub fn entries_between(entries: &[Entry], states: States) -> &[Entry]
    ensures { result.now ≡ between states entries.now }
{
    entries_from(entries_up_to(entries, states.last), states.first)
}

/// How the permissions over entries were used, from a state: each permission of one of the states, by subject, object
/// and mode.
///
/// # Errors
/// `AllocError` where an allocation failed.
pub fn usages_over(
    alloc: Global,
    first: &State,
    entries: &[Entry],
) -> Result<Vec<Usage>, AllocError>
    ensures { IfOk result (λ usages. usages.items ≡ usages_in first.now entries.now) }
{
    let tally = tally_over(alloc, first, entries)?;
    let usages = usages_by(alloc, first, &tally);
    drop(tally);
    usages
}

/// How the permissions between some states of a replay were used, from the state that it looks at.
fn usages_walked(
    alloc: Global,
    replay: &TextReplay,
    states: States,
) -> Result<Vec<Usage>, AllocError>
    ensures { IfOk result
        (λ usages. usages.items ≡ usages_in replay.now.state (between states replay.now.entries)) }
{
    let tally = tally_in(alloc, replay, states)?;
    let usages = usages_by(alloc, replay.state(), &tally);
    drop(tally);
    usages
}

/// How the permissions of some states of a replay were used.
///
/// # Errors
/// `AllocError` where an allocation failed.
pub(crate) fn usages_of(
    alloc: Global,
    replay: &TextReplay,
    states: States,
) -> Result<Vec<Usage>, AllocError>
    ensures { IfOk result (λ usages. usages.items ≡ usages_seen replay.now states) }
{
    if !states.are_some() {
        return Ok(Vec::new(alloc));
    }
    usages_walked(alloc, replay, states)
}

/// How trust was used in some states of a replay.
fn trust_in(alloc: Global, replay: &TextReplay, states: States) -> Result<Vec<TrustUse>, AllocError>
    ensures { IfOk result (λ trust. trust.items ≡ trust_seen replay.now states) }
{
    if !states.are_some() {
        return Ok(Vec::new(alloc));
    }
    trust_over(alloc, replay, states)
}

/// The answer that lists permissions, and the uses of trust.
fn list_permissions(
    alloc: Global,
    form: Form,
    names: &Names,
    marks: Option<&Marks>,
    usages: &[Usage],
    trust: &[TrustUse],
) -> Result<Listing, AllocError>
    ensures { IfOk result
        (λ listing. IsUsage form names.now (rows_lent marks.entry) usages.now trust.now listing) }
{
    let unused = count_unused(usages);
    let bytes = usages_written(alloc, form, names, marks, usages, trust, unused)?;
    Ok(Listing {
        bytes,
        is_positive: unused == 0,
    })
}

/// How the permissions of some states of a replay were used, by these names, a row each in this form: of each
/// permission of one of the states, how many of its gets were granted and how many were denied while it was there,
/// which was the last, and whether the first of the states has it as a current access: it was granted before. Then of
/// each subject that is trusted, how many entries its trust granted, and which was the last. Where there are marks the
/// time of the last is told. The replay looks at the first of the states. The answer is a positive one where each
/// permission was granted, in the states or before, also where there is none.
///
/// # Errors
/// `AllocError` where an allocation failed.
pub fn list_usage(
    alloc: Global,
    form: Form,
    names: &Names,
    replay: &TextReplay,
    marks: Option<&Marks>,
    states: States,
) -> Result<Listing, AllocError>
    ensures { IfOk result (λ listing. IsUsage form names.now (rows_lent marks.entry) (usages_seen replay.now states)
        (trust_seen replay.now states) listing) }
{
    let usages = usages_of(alloc, replay, states)?;
    let trust = trust_in(alloc, replay, states)?;
    let listing = list_permissions(alloc, form, names, marks, &usages, &trust);
    drop(trust);
    drop(usages);
    listing
}
