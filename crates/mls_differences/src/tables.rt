//! The permissions and the accesses that one of two starts alone has.
ghost use Rattle.std.specs.Prelude.{◌≡◌, ◌++◌, OnOk};
ghost use Rattle.std.specs.List.{flat_map};
ghost use Rattle.mls_differences.specs.Sides.{alone};
ghost use Rattle.mls_differences.specs.Singles.{modes_rows, table_rows, tables_rows, triple_rows};

use crate::shared::Shared;
use crate::side::alone;
use crate::single::Single;
use mls_rules::State;
use mls_state::Table;
use mls_tables::{Mode, ObjectId, SubjectId};
use std::alloc::AllocError;

/// Adds the row of a mode of a subject and an object, by whether the table of each start has it.
fn push_mode(
    rows: &mut Vec<Single>,
    table: Table,
    at: (u16, u16),
    x: Mode,
    held: (bool, bool),
) -> Result<(), AllocError>
    ensures { OnOk result (rows.new.items
        ≡ rows.old.items ++ triple_rows table at.0 at.1 x (alone held.0 held.1)) }
{
    let (s, o) = (SubjectId(at.0), ObjectId(at.1));
    if let Some(side) = alone(held.0, held.1) {
        rows.push(Single::Triple(table, side, s, o, x))?;
    }
    Ok(())
}

/// Adds the rows of the modes of a subject and an object that two starts share.
fn push_modes(
    rows: &mut Vec<Single>,
    table: Table,
    states: (&State, &State),
    s: Shared,
    o: Shared,
) -> Result<(), AllocError>
    ensures { OnOk result (rows.new.items
        ≡ rows.old.items ++ modes_rows table states.entry.0.now states.entry.1.now s o) }
{
    let at = (s.first, o.first);
    let here = table.modes(states.0, SubjectId(s.first), ObjectId(o.first));
    let there = table.modes(states.1, SubjectId(s.second), ObjectId(o.second));
    let execute = (here.has(Mode::Execute), there.has(Mode::Execute));
    let read = (here.has(Mode::Read), there.has(Mode::Read));
    let append = (here.has(Mode::Append), there.has(Mode::Append));
    let write = (here.has(Mode::Write), there.has(Mode::Write));
    push_mode(rows, table, at, Mode::Execute, execute)?;
    push_mode(rows, table, at, Mode::Read, read)?;
    push_mode(rows, table, at, Mode::Append, append)?;
    push_mode(rows, table, at, Mode::Write, write)
}

/// Adds the rows of a subject's modes with some objects.
fn push_row(
    rows: &mut Vec<Single>,
    table: Table,
    states: (&State, &State),
    s: Shared,
    objects: &[Shared],
) -> Result<(), AllocError>
    ensures { OnOk result (rows.new.items ≡ rows.old.items
        ++ flat_map (modes_rows table states.entry.0.now states.entry.1.now s) objects.now) }
{
    for o in objects {
        push_modes(rows, table, states, s, *o)?;
    }
    Ok(())
}

/// Adds the rows of a table.
fn push_table(
    rows: &mut Vec<Single>,
    table: Table,
    states: (&State, &State),
    subjects: &[Shared],
    objects: &[Shared],
) -> Result<(), AllocError>
    ensures { OnOk result (rows.new.items ≡ rows.old.items
        ++ table_rows table states.entry.0.now states.entry.1.now subjects.now objects.now) }
{
    for s in subjects {
        push_row(rows, table, states, *s, objects)?;
    }
    Ok(())
}

/// Adds the rows of the permissions, then of the accesses, that one of two starts alone has.
pub(crate) fn push_tables(
    rows: &mut Vec<Single>,
    states: (&State, &State),
    subjects: &[Shared],
    objects: &[Shared],
) -> Result<(), AllocError>
    ensures { OnOk result (rows.new.items ≡ rows.old.items
        ++ tables_rows states.entry.0.now states.entry.1.now subjects.now objects.now) }
{
    push_table(rows, Table::Matrix, states, subjects, objects)?;
    push_table(rows, Table::Accesses, states, subjects, objects)
}
