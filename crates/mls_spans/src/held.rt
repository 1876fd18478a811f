//! The spans of the accesses that are asked for.
ghost use Rattle.std.specs.Prelude.{◌≡◌, IfOk, IfErr};
ghost use Rattle.std.specs.List.{list_any};
ghost use Rattle.mls_replay.specs.declared.command.CommandFault.TheVariants.{Memory};
ghost use Rattle.mls_replay.specs.declared.question_fault.QuestionFault.TheVariants.{Files};
ghost use Rattle.mls_spans.specs.Asked.{is_asked as is_asked_for};
ghost use Rattle.mls_rows.specs.Times.{rows_lent};
ghost use Rattle.mls_spans.specs.Spans.{spans_over};
ghost use Rattle.mls_spans.specs.Listings.{IsListing, ListsFrom, ListsOver, RefusesFrom, RefusesNames};

use crate::choosing::{Choice, Words, choose, is_asked};
use crate::following::spans_from;
use crate::held_rows::spans_written;
use crate::span::Span;
use crate::walking::spans_in;
use mls_lines::Names;
use mls_marks::Marks;
use mls_monitor::{Entry, Start};
use mls_replay::{QuestionFault, TextReplay};
use mls_rows::{Form, Listing};
use std::alloc::{AllocError, Global};

/// Whether a span is asked for.
fn is_any_asked(choice: &Choice, spans: &[Span]) -> bool
    ensures { result ≡ list_any (is_asked_for choice.now) spans.now }
{
    for span in spans {
        if is_asked(choice, span) {
            return true;
        }
    }
    false
}

/// The spans over a start and its entries, in the order in which they begin.
///
/// # Errors
/// `AllocError` where an allocation failed.
pub fn spans_of(alloc: Global, start: &Start, entries: &[Entry]) -> Result<Vec<Span>, AllocError>
    ensures { IfOk result (λ spans. spans.items ≡ spans_over start.now entries.now) }
{
    let mut state = start.opening(alloc)?;
    let spans = spans_from(alloc, &mut state, entries);
    drop(state);
    spans
}

/// The answer that lists the spans over a replay that are asked for, by these names; where there are marks, with times.
/// It is a positive one where there is one.
///
/// # Errors
/// `Files` with `Memory` where an allocation failed.
pub fn list_spans(
    alloc: Global,
    form: Form,
    names: &Names,
    replay: &TextReplay,
    marks: Option<&Marks>,
    choice: &Choice,
) -> Result<Listing, QuestionFault>
    ensures ok { IfOk result (λ listing. IsListing form names.now (rows_lent marks.entry) replay.now.start
        replay.now.entries choice.now listing) }
    ensures fault { IfErr result (λ fault. fault ≡ Files Memory) }
{
    let spans = spans_in(alloc, replay)?;
    let bytes = spans_written(alloc, form, names, marks, choice, &spans);
    let is_positive = is_any_asked(choice, &spans);
    drop(spans);
    let bytes = bytes?;
    Ok(Listing { bytes, is_positive })
}

/// The spans of the accesses of a replay that a filter asks for.
#[tactic(auto, using(crate::proofs::Listed::lists_over, crate::proofs::Listed::refuses_memory))]
fn list_replay(
    alloc: Global,
    form: Form,
    replay: &TextReplay,
    marks: Option<&Marks>,
    words: &Words<'_>,
) -> Result<Listing, QuestionFault>
    ensures ok { IfOk result (λ listing. ListsOver form replay.now (rows_lent marks.entry) words.now listing) }
    ensures fault { IfErr result (λ fault. RefusesNames replay.now.names words.now fault) }
{
    match choose(replay.names(), words) {
        Ok(choice) => list_spans(alloc, form, replay.names(), replay, marks, &choice),
        Err(fault) => Err(fault),
    }
}

/// The spans of states in which an access is held over a replay, as long as they are, a row each in this form: those
/// that a filter asks for. Where there are marks the times of entries are told. The answer is a positive one where
/// there is such a span.
///
/// # Errors
/// - `AtMost` with the number of entries, where the number of the first state that is asked about is above it.
/// - `Subject` where the filter's word for a subject names none, else `Object` where that for an object names none.
/// - `Files` with `Memory` as soon as an allocation fails.
#[tactic(auto, using(crate::proofs::Listed::lists_from, crate::proofs::Listed::refuses_from))]
pub fn list_held(
    alloc: Global,
    form: Form,
    replay: &TextReplay,
    marks: Option<&Marks>,
    words: &Words<'_>,
) -> Result<Listing, QuestionFault>
    ensures ok { IfOk result (λ listing. ListsFrom form replay.now (rows_lent marks.entry) words.now listing) }
    ensures fault { IfErr result (λ fault. RefusesFrom replay.now words.now fault) }
{
    match words.states.begin_in(replay) {
        Ok(()) => list_replay(alloc, form, replay, marks, words),
        Err(fault) => Err(fault),
    }
}
