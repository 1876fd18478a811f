//! The spans of states in which a get would be granted, by where it turns.
ghost use Rattle.std.specs.Prelude.{◌≡◌, ◌++◌, ◌∷◌, [], filter, List, Option, IfOk, OnOk, ℕ};
ghost use Rattle.mls_spans.specs.Asked.{has_window};
ghost use Rattle.mls_spans.specs.Turning.{Pairs, found_seen, turns_of};
ghost use Rattle.mls_spans.specs.Windows.{between};
ghost use Rattle.mls_spans.specs.Windows.{is_any as is_any_in};

use crate::states::States;
use crate::turn::Turn;
use crate::window::Window;
use mls_tables::{Mode, ObjectId, SubjectId};
use std::alloc::{AllocError, Global};

/// Adds a span, where it has one of some states.
fn push_where(
    found: &mut Vec<Window>,
    states: &States,
    opened: Option<u64>,
    closed: Option<u64>,
) -> Result<(), AllocError>
    ensures { OnOk result (found.new.items
        ≡ found.old.items ++ filter (has_window states.now) ((record { opened = opened; closed = closed }) ∷ [])) }
{
    let window = Window { opened, closed };
    if states.have(&window) {
        found.push(window)?;
    }
    Ok(())
}

/// Adds the span that ends with a turn, where one is open; else the turn opens one, and is given back.
fn push_turn(
    found: &mut Vec<Window>,
    states: &States,
    opened: Option<Turn>,
    turn: Turn,
) -> Result<Option<Turn>, AllocError>
    ensures { (places : List (Option ℕ)) → Pairs states.now places found.old.items opened
        → IfOk result (λ next. Pairs states.now (places ++ turn.number ∷ []) found.new.items next) }
{
    let Some(first) = opened else {
        return Ok(Some(turn));
    };
    push_where(found, states, first.number, turn.number)?;
    Ok(None)
}

/// The same of a turn that may be one of another access, which adds nothing.
fn push_turn_where(
    found: &mut Vec<Window>,
    states: &States,
    opened: Option<Turn>,
    turn: &Turn,
    access: &(SubjectId, ObjectId, Mode),
) -> Result<Option<Turn>, AllocError>
    ensures { (places : List (Option ℕ)) → Pairs states.now places found.old.items opened
        → IfOk result (λ next. Pairs states.now (places ++ turns_of (turn.now ∷ []) access.now) found.new.items next) }
{
    if !turn.is_of(access) {
        return Ok(opened);
    }
    push_turn(found, states, opened, *turn)
}

/// Adds the span that no turn ends, where one is open.
fn push_last(
    found: &mut Vec<Window>,
    states: &States,
    opened: Option<Turn>,
) -> Result<(), AllocError>
    ensures { (places : List (Option ℕ)) → Pairs states.now places found.old.items opened
        → OnOk result (found.new.items ≡ filter (has_window states.now) (between places)) }
{
    match opened {
        Some(first) => push_where(found, states, first.number, None)?,
        None => {}
    }
    Ok(())
}

/// The spans in which the get of an access would be granted, by where gets turn: those that have one of some states.
pub(crate) fn windows_of(
    alloc: Global,
    turns: &[Turn],
    access: &(SubjectId, ObjectId, Mode),
    states: &States,
) -> Result<Vec<Window>, AllocError>
    ensures { IfOk result (λ windows. windows.items
        ≡ found_seen turns.now states.now access.now) }
{
    let mut found = Vec::new(alloc);
    let mut opened = None;
    for turn in turns {
        let next = push_turn_where(&mut found, states, opened, turn, access)?;
        opened = next;
    }
    push_last(&mut found, states, opened)?;
    Ok(found)
}

/// Whether there is a span.
pub(crate) fn is_any(windows: &[Window]) -> bool
    ensures { result ≡ is_any_in windows.now }
{
    windows.split_first().is_some()
}
