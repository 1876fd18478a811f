//! The accesses that untrusted subjects could get from one of two starts alone.
ghost use Rattle.std.specs.Prelude.{◌≡◌, ◌++◌, Bool, OnOk};
ghost use Rattle.std.specs.List.{flat_map};
ghost use Rattle.mls_tables.specs.Triples.{Triple};
ghost use Rattle.mls_could.specs.Outsets.{acts_of, Decides, IsOutset};
ghost use Rattle.mls_differences.specs.Coulds.{all_coulds, cell_coulds, could_rows, lone_rows};
ghost use Rattle.mls_differences.specs.Sides.{alone};

use crate::could_row::CouldRow;
use crate::shared::Shared;
use crate::side::alone;
use mls_could::Outset;
use mls_rules::State;
use mls_tables::{Mode, ObjectId, SubjectId};
use std::alloc::AllocError;

/// Adds the row of an access, by whether it could be got from each start.
fn push_lone(
    rows: &mut Vec<CouldRow>,
    at: (u16, u16),
    x: Mode,
    could: (bool, bool),
) -> Result<(), AllocError>
    ensures { OnOk result (rows.new.items ≡ rows.old.items ++ lone_rows at.0 at.1 x (alone could.0 could.1)) }
{
    if let Some(side) = alone(could.0, could.1) {
        rows.push(CouldRow {
            subject: SubjectId(at.0),
            object: ObjectId(at.1),
            mode: x,
            side,
        })?;
    }
    Ok(())
}

/// Adds the row of an access of a subject to an object, where it could be got from one of two starts alone.
fn push_could(
    rows: &mut Vec<CouldRow>,
    first: (&State, &Outset),
    second: (&State, &Outset),
    s: Shared,
    o: Shared,
    x: Mode,
) -> Result<(), AllocError>
    requires first { IsOutset first.0.now first.1.now }
    requires second { IsOutset second.0.now second.1.now }
    ensures { OnOk result ((here there : Triple → Bool) → Decides here first.entry.0.now (acts_of first.entry.1.now)
        → Decides there second.entry.0.now (acts_of second.entry.1.now)
        → rows.new.items ≡ rows.old.items ++ could_rows here there s o x) }
{
    let here = first
        .1
        .could(first.0, SubjectId(s.first), ObjectId(o.first), x);
    let there = second
        .1
        .could(second.0, SubjectId(s.second), ObjectId(o.second), x);
    push_lone(rows, (s.first, o.first), x, (here, there))
}

/// Adds the rows of the accesses of a subject to an object.
fn push_cell(
    rows: &mut Vec<CouldRow>,
    first: (&State, &Outset),
    second: (&State, &Outset),
    s: Shared,
    o: Shared,
) -> Result<(), AllocError>
    requires first { IsOutset first.0.now first.1.now }
    requires second { IsOutset second.0.now second.1.now }
    ensures { OnOk result ((here there : Triple → Bool) → Decides here first.entry.0.now (acts_of first.entry.1.now)
        → Decides there second.entry.0.now (acts_of second.entry.1.now)
        → rows.new.items ≡ rows.old.items ++ cell_coulds here there s o) }
{
    push_could(rows, first, second, s, o, Mode::Execute)?;
    push_could(rows, first, second, s, o, Mode::Read)?;
    push_could(rows, first, second, s, o, Mode::Append)?;
    push_could(rows, first, second, s, o, Mode::Write)
}

/// Adds the rows of the accesses of a subject to some objects.
fn push_row(
    rows: &mut Vec<CouldRow>,
    first: (&State, &Outset),
    second: (&State, &Outset),
    s: Shared,
    objects: &[Shared],
) -> Result<(), AllocError>
    requires first { IsOutset first.0.now first.1.now }
    requires second { IsOutset second.0.now second.1.now }
    ensures { OnOk result ((here there : Triple → Bool) → Decides here first.entry.0.now (acts_of first.entry.1.now)
        → Decides there second.entry.0.now (acts_of second.entry.1.now)
        → rows.new.items ≡ rows.old.items ++ flat_map (cell_coulds here there s) objects.now) }
{
    for o in objects {
        push_cell(rows, first, second, s, *o)?;
    }
    Ok(())
}

/// Adds the rows of the accesses of some subjects to some objects that actors could get from one of two states alone.
pub(crate) fn push_coulds(
    rows: &mut Vec<CouldRow>,
    first: (&State, &Outset),
    second: (&State, &Outset),
    subjects: &[Shared],
    objects: &[Shared],
) -> Result<(), AllocError>
    requires first { IsOutset first.0.now first.1.now }
    requires second { IsOutset second.0.now second.1.now }
    ensures { OnOk result ((here there : Triple → Bool) → Decides here first.entry.0.now (acts_of first.entry.1.now)
        → Decides there second.entry.0.now (acts_of second.entry.1.now)
        → rows.new.items ≡ rows.old.items ++ all_coulds here there subjects.now objects.now) }
{
    for s in subjects {
        push_row(rows, first, second, *s, objects)?;
    }
    Ok(())
}
