//! The spans that a state ends.
ghost use Rattle.std.specs.Prelude.{◌≡◌, ◌<◌, ◌&&◌, ◌∷◌, ℕ, List, map, length, get_or, nat_lt, Some, IsTrue, IfOk};
ghost use Rattle.std.specs.Prelude.{OnOk};
ghost use Rattle.mls_spans.specs.Sweeping.{closed, AreAmong, Sweeps};
ghost use Rattle.mls_spans.specs.Sweeping.{is_lost as is_lost_in};
ghost use Rattle.mls_spans.specs.declared.span.Span.{Span as SpanView};

use crate::span::{Ending, Span};
use mls_rules::State;
use std::alloc::{AllocError, Global};

/// Whether a span isn't ended yet, and its access is no longer held.
fn is_lost(state: &State, span: &Span) -> bool
    ensures { result ≡ is_lost_in state.now span.now }
{
    let (s, o, x) = span.access;
    span.ended.is_none() && !state.has_access(s, o, x)
}

/// Whether the span at a place isn't ended yet, and its access is no longer held.
fn is_lost_at(spans: &[Span], at: usize, state: &State) -> bool
    ensures within { IsTrue result → at < length spans.now }
    ensures lost { (d : SpanView) → result
        ≡ (nat_lt at (length spans.now) && is_lost_in state.now (get_or spans.now at d)) }
{
    if at >= spans.len() {
        return false;
    }
    is_lost(state, &spans[at])
}

/// A span that is ended.
fn ended(span: &Span, ending: Ending) -> Span
    ensures { result ≡ record span.now { ended = Some ending } }
{
    Span {
        access: span.access,
        made: span.made,
        ended: Some(ending),
    }
}

/// Ends the span at a place, where its access is no longer held, and else keeps the place.
fn settle(
    spans: &mut Vec<Span>,
    kept: &mut Vec<usize>,
    at: usize,
    state: &State,
    ending: Ending,
) -> Result<(), AllocError>
    ensures { (first : List SpanView) (rest : List ℕ)
        → Sweeps state.now ending first spans.old.items (at ∷ rest) kept.old.items
        → OnOk result (Sweeps state.now ending first spans.new.items rest kept.new.items) }
{
    if !is_lost_at(spans, at, state) {
        kept.push(at)?;
        return Ok(());
    }
    let span = ended(&spans[at], ending);
    spans[at] = span;
    Ok(())
}

/// Ends the spans whose accesses are no longer held. The places have those of all that aren't ended, and the
/// result those that then still aren't.
pub(crate) fn sweep(
    alloc: Global,
    spans: &mut Vec<Span>,
    places: &[usize],
    state: &State,
    ending: Ending,
) -> Result<Vec<usize>, AllocError>
    requires { AreAmong spans.old.items places.now }
    ensures spans { OnOk result (spans.new.items ≡ map (closed state.now ending) spans.old.items) }
    ensures places { IfOk result (λ kept. AreAmong spans.new.items kept.items) }
{
    let mut kept = Vec::with_capacity(alloc, places.len())?;
    for at in places {
        settle(spans, &mut kept, *at, state, ending)?;
    }
    Ok(kept)
}
