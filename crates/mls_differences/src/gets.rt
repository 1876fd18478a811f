//! The gets that two starts answer otherwise.
ghost use Rattle.std.specs.Prelude.{◌≡◌, ◌++◌, OnOk};
ghost use Rattle.std.specs.List.{flat_map};
ghost use Rattle.mls_rules.specs.Rules.{reply};
ghost use Rattle.mls_differences.specs.Gets.{cell_rows, get_of, get_rows, gets_rows, replied_rows};

use crate::get_row::GetRow;
use crate::replying::agree;
use crate::shared::Shared;
use mls_requests::{Action, Reply, Request};
use mls_rules::{State, decide};
use mls_tables::{Mode, ObjectId, SubjectId};
use std::alloc::AllocError;

/// The reply to a get.
fn get_reply(state: &State, s: u16, o: u16, x: Mode) -> Reply
    ensures { result ≡ reply state.now (get_of s o x) }
{
    let request = Request {
        subject: SubjectId(s),
        action: Action::Get(x, ObjectId(o)),
    };
    decide(state, &request)
}

/// Adds the row of a get with these replies, where they don't agree.
fn push_replied(
    rows: &mut Vec<GetRow>,
    at: (u16, u16),
    x: Mode,
    first: Reply,
    second: Reply,
) -> Result<(), AllocError>
    ensures { OnOk result (rows.new.items ≡ rows.old.items ++ replied_rows at.0 at.1 x first second) }
{
    if agree(&first, &second) {
        return Ok(());
    }
    rows.push(GetRow {
        subject: SubjectId(at.0),
        object: ObjectId(at.1),
        mode: x,
        first,
        second,
    })?;
    Ok(())
}

/// Adds the row of a get, where two states answer it otherwise.
fn push_get(
    rows: &mut Vec<GetRow>,
    states: (&State, &State),
    s: Shared,
    o: Shared,
    x: Mode,
) -> Result<(), AllocError>
    ensures { OnOk result (rows.new.items
        ≡ rows.old.items ++ get_rows states.entry.0.now states.entry.1.now s o x) }
{
    let first = get_reply(states.0, s.first, o.first, x);
    let second = get_reply(states.1, s.second, o.second, x);
    push_replied(rows, (s.first, o.first), x, first, second)
}

/// Adds the rows of the gets of an object by a subject.
fn push_cell(
    rows: &mut Vec<GetRow>,
    states: (&State, &State),
    s: Shared,
    o: Shared,
) -> Result<(), AllocError>
    ensures { OnOk result (rows.new.items
        ≡ rows.old.items ++ cell_rows states.entry.0.now states.entry.1.now s o) }
{
    push_get(rows, states, s, o, Mode::Execute)?;
    push_get(rows, states, s, o, Mode::Read)?;
    push_get(rows, states, s, o, Mode::Append)?;
    push_get(rows, states, s, o, Mode::Write)
}

/// Adds the rows of the gets of some objects by a subject.
fn push_row(
    rows: &mut Vec<GetRow>,
    states: (&State, &State),
    s: Shared,
    objects: &[Shared],
) -> Result<(), AllocError>
    ensures { OnOk result (rows.new.items ≡ rows.old.items
        ++ flat_map (cell_rows states.entry.0.now states.entry.1.now s) objects.now) }
{
    for o in objects {
        push_cell(rows, states, s, *o)?;
    }
    Ok(())
}

/// Adds the rows of the gets of some objects by some subjects, where two states answer them otherwise.
pub(crate) fn push_gets(
    rows: &mut Vec<GetRow>,
    states: (&State, &State),
    subjects: &[Shared],
    objects: &[Shared],
) -> Result<(), AllocError>
    ensures { OnOk result (rows.new.items ≡ rows.old.items
        ++ gets_rows states.entry.0.now states.entry.1.now subjects.now objects.now) }
{
    for s in subjects {
        push_row(rows, states, *s, objects)?;
    }
    Ok(())
}
