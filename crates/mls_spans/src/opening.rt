//! The spans that begin with a state.
ghost use Rattle.std.specs.Prelude.{◌≡◌, ◌++◌, [], map, None, OnOk, IfOk};
ghost use Rattle.mls_tables.specs.Once.{accesses_at};
ghost use Rattle.mls_spans.specs.Opening.{span_where, accesses_of};
ghost use Rattle.mls_spans.specs.Spans.{span_from};
ghost use Rattle.mls_spans.specs.Spans.{opened as opened_in};

use crate::span::Span;
use mls_rules::State;
use mls_tables::{MAX_SUBJECTS, Mode, ObjectId, SubjectId};
use std::alloc::{AllocError, Global};

/// Adds the span of an access, where it is held.
fn push_access(
    spans: &mut Vec<Span>,
    state: &State,
    access: (SubjectId, ObjectId, Mode),
) -> Result<(), AllocError>
    ensures { OnOk result (spans.new.items ≡ spans.old.items ++ span_where state.now access) }
{
    let (s, o, x) = access;
    if state.has_access(s, o, x) {
        spans.push(Span {
            access,
            made: None,
            ended: None,
        })?;
    }
    Ok(())
}

/// Adds the spans of a subject's accesses to an object, in the order of modes.
fn push_cell(
    spans: &mut Vec<Span>,
    state: &State,
    s: SubjectId,
    o: ObjectId,
) -> Result<(), AllocError>
    ensures { OnOk result (spans.new.items
        ≡ spans.old.items ++ map (span_from None state.now []) (accesses_at state.now.accesses s o)) }
{
    push_access(spans, state, (s, o, Mode::Execute))?;
    push_access(spans, state, (s, o, Mode::Read))?;
    push_access(spans, state, (s, o, Mode::Append))?;
    push_access(spans, state, (s, o, Mode::Write))?;
    Ok(())
}

/// Adds the spans of a subject's accesses, by object.
fn push_subject(spans: &mut Vec<Span>, state: &State, s: SubjectId) -> Result<(), AllocError>
    ensures { OnOk result (spans.new.items
        ≡ spans.old.items ++ map (span_from None state.now []) (accesses_of state.now.accesses s)) }
{
    // that accesses are those of known subjects
    state.agrees();
    if !state.is_subject(s) {
        return Ok(());
    }
    for o in state.objects_of(s) {
        push_cell(spans, state, s, *o)?;
    }
    Ok(())
}

/// The spans that begin with a state, none of them ended, by subject, object and mode.
pub(crate) fn opened(alloc: Global, state: &State) -> Result<Vec<Span>, AllocError>
    ensures { IfOk result (λ spans. spans.items ≡ opened_in state.now []) }
{
    let mut spans = Vec::new(alloc);
    for s in 0..MAX_SUBJECTS {
        push_subject(&mut spans, state, SubjectId(s))?;
    }
    Ok(spans)
}
