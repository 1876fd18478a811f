//! Spans in which one access was held.
ghost use Rattle.std.specs.Prelude.{◌≡◌, ◌<◌, map, IfOk};
ghost use Rattle.mls_page.specs.Held.{
  IsByAccess,
  access_of,
  first_state,
  last_state,
  length_of,
  states_of,
};
ghost use Rattle.mls_spans.specs.Kept.{key_of};
ghost use Rattle.mls_tables.specs.Mode.{mode_number};

use crate::cutting::Column;
use mls_spans::{Ending, Span};
use mls_tables::{Mode, ObjectId, SubjectId};
use std::alloc::{AllocError, Global};

/// The number of a mode.
fn mode_key(x: Mode) -> u64
    ensures number { result ≡ mode_number x }
    ensures few { result < 4 }
{
    match x {
        Mode::Execute => 0,
        Mode::Read => 1,
        Mode::Append => 2,
        Mode::Write => 3,
    }
}

/// The number of an access: each has its own.
fn access_key(access: (SubjectId, ObjectId, Mode)) -> u64
    ensures { result ≡ key_of access }
{
    let (s, o, x) = access;
    u64::from(s.number()) * 262_144 + u64::from(o.number()) * 4 + mode_key(x)
}

/// Spans by their accesses.
pub(crate) struct ByAccess;

impl Column<Span> for ByAccess {
    ghost number_of = { access_of };

    fn of(row: &Span) -> u64 {
        access_key(row.access)
    }
}

/// Spans in the order of their accesses.
///
/// # Errors
/// `AllocError` where an allocation failed.
pub(crate) fn sorted_spans(alloc: Global, spans: &[Span]) -> Result<Vec<Span>, AllocError>
    ensures { IfOk result (λ sorted. IsByAccess spans.now sorted.items) }
{
    let mut sorted = Vec::from_slice(alloc, spans)?;
    sorted.sort_by_key(|span| access_key(span.access))?;
    Ok(sorted)
}

/// The first state of a span, counted from the one before entry 0.
pub(crate) fn first_state(span: &Span) -> u64
    ensures { result ≡ first_state span.now.made }
{
    match span.made {
        Some(number) => number.saturating_add(1),
        None => 0,
    }
}

/// Its last state, in a journal of so many entries.
fn last_state(entries: u64, ended: Option<Ending>) -> u64
    ensures { result ≡ last_state entries ended }
{
    match ended {
        Some(ending) => ending.number,
        None => entries,
    }
}

/// How many states a span has, in a journal of so many entries.
pub(crate) fn length_of(entries: u64, span: &Span) -> u64
    ensures { result ≡ length_of entries span.now }
{
    last_state(entries, span.ended)
        .saturating_add(1)
        .saturating_sub(first_state(span))
}

/// In how many states the access of some spans was held.
#[tactic(auto, using(crate::proofs::Counting::sum_next))]
fn states_of(entries: u64, spans: &[Span]) -> u64
    ensures { result ≡ states_of entries spans.now }
{
    let mut states = 0u64;
    for span in spans {
        states = states.saturating_add(length_of(entries, span));
    }
    states
}

/// The same of each access.
pub(crate) fn all_states(
    alloc: Global,
    entries: u64,
    runs: &[&[Span]],
) -> Result<Vec<u64>, AllocError>
    ensures { IfOk result (λ states. states.items ≡ map (states_of entries) (map (λ run. run.now) runs.now)) }
{
    let mut states = Vec::new(alloc);
    for run in runs {
        states.push(states_of(entries, run))?;
    }
    Ok(states)
}
