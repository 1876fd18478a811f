//! What two starts have otherwise of the subjects that they share.
ghost use Rattle.std.specs.Prelude.{◌≡◌, ◌++◌, IsTrue, OnOk};
ghost use Rattle.std.specs.FinMap as map;
ghost use Rattle.std.specs.FinSet as set;
ghost use Rattle.std.specs.List.{flat_map};
ghost use Rattle.mls_state.specs.State.{is_subject};
ghost use Rattle.mls_differences.specs.Changes.{integrity_rows, same_truth, security_rows, subject_changes};
ghost use Rattle.mls_differences.specs.Changes.{subject_rows, trusted_rows};

use crate::alike::{push_integrity, push_security};
use crate::change::{Change, push_change};
use crate::shared::Shared;
use mls_lines::Names;
use mls_rules::State;
use mls_tables::SubjectId;
use std::alloc::{AllocError, Global};

/// Whether something is so in both, or in neither.
fn is_same_truth(here: bool, there: bool) -> bool
    ensures { result ≡ same_truth here there }
{
    if here { there } else { !there }
}

/// Adds the row of the maximum label of a subject of one state and a subject of another.
fn push_maximum(
    alloc: Global,
    rows: &mut Vec<Change>,
    names: (&Names, &Names),
    states: (&State, &State),
    s: SubjectId,
    t: SubjectId,
) -> Result<(), AllocError>
    requires first { IsTrue (is_subject states.0.now s) }
    requires second { IsTrue (is_subject states.1.now t) }
    ensures { OnOk result (rows.new.items ≡ rows.old.items
        ++ security_rows names.entry.0.now names.entry.1.now (Change.Maximum s)
        (map.get states.entry.0.now.maximum s) (map.get states.entry.1.now.maximum t)) }
{
    let here = states.0.maximum(s);
    let there = states.1.maximum(t);
    push_security(
        alloc,
        rows,
        names,
        &here,
        &there,
        Change::Maximum(s, here, there),
    )
}

/// Adds the row of the current label of a subject of one state and a subject of another.
fn push_current(
    alloc: Global,
    rows: &mut Vec<Change>,
    names: (&Names, &Names),
    states: (&State, &State),
    s: SubjectId,
    t: SubjectId,
) -> Result<(), AllocError>
    requires first { IsTrue (is_subject states.0.now s) }
    requires second { IsTrue (is_subject states.1.now t) }
    ensures { OnOk result (rows.new.items ≡ rows.old.items
        ++ security_rows names.entry.0.now names.entry.1.now (Change.Current s)
        (map.get states.entry.0.now.current s) (map.get states.entry.1.now.current t)) }
{
    let here = states.0.current(s);
    let there = states.1.current(t);
    push_security(
        alloc,
        rows,
        names,
        &here,
        &there,
        Change::Current(s, here, there),
    )
}

/// Adds the row of the integrity label of a subject of one state and a subject of another.
fn push_own(
    alloc: Global,
    rows: &mut Vec<Change>,
    names: (&Names, &Names),
    states: (&State, &State),
    s: SubjectId,
    t: SubjectId,
) -> Result<(), AllocError>
    requires first { IsTrue (is_subject states.0.now s) }
    requires second { IsTrue (is_subject states.1.now t) }
    ensures { OnOk result (rows.new.items ≡ rows.old.items
        ++ integrity_rows names.entry.0.now names.entry.1.now (Change.Own s)
        (map.get states.entry.0.now.subject_integrity s) (map.get states.entry.1.now.subject_integrity t)) }
{
    let here = states.0.subject_integrity(s);
    let there = states.1.subject_integrity(t);
    push_integrity(
        alloc,
        rows,
        names,
        &here,
        &there,
        Change::Own(s, here, there),
    )
}

/// Adds the row of whether a subject is trusted, where it is in one start alone.
fn push_trust(
    rows: &mut Vec<Change>,
    s: SubjectId,
    here: bool,
    there: bool,
) -> Result<(), AllocError>
    ensures { OnOk result (rows.new.items ≡ rows.old.items ++ trusted_rows s here there) }
{
    if is_same_truth(here, there) {
        return Ok(());
    }
    push_change(rows, Change::Trusted(s, here, there))
}

/// Adds the row of whether a subject of one state and a subject of another are trusted, where only one of them is.
fn push_trusted(
    rows: &mut Vec<Change>,
    states: (&State, &State),
    s: SubjectId,
    t: SubjectId,
) -> Result<(), AllocError>
    requires first { IsTrue (is_subject states.0.now s) }
    requires second { IsTrue (is_subject states.1.now t) }
    ensures { OnOk result (rows.new.items ≡ rows.old.items ++ trusted_rows s
        (set.contains states.entry.0.now.trusted s) (set.contains states.entry.1.now.trusted t)) }
{
    let here = states.0.is_trusted(s);
    let there = states.1.is_trusted(t);
    push_trust(rows, s, here, there)
}

/// Adds the rows of a subject of one state and a subject of another.
fn push_changes(
    alloc: Global,
    rows: &mut Vec<Change>,
    names: (&Names, &Names),
    states: (&State, &State),
    s: SubjectId,
    t: SubjectId,
) -> Result<(), AllocError>
    requires first { IsTrue (is_subject states.0.now s) }
    requires second { IsTrue (is_subject states.1.now t) }
    ensures { OnOk result (rows.new.items ≡ rows.old.items
        ++ subject_changes names.entry.0.now names.entry.1.now states.entry.0.now states.entry.1.now s t) }
{
    push_maximum(alloc, rows, names, states, s, t)?;
    push_current(alloc, rows, names, states, s, t)?;
    push_own(alloc, rows, names, states, s, t)?;
    push_trusted(rows, states, s, t)
}

/// Adds the rows of a subject that two starts share.
fn push_subject(
    alloc: Global,
    rows: &mut Vec<Change>,
    names: (&Names, &Names),
    states: (&State, &State),
    shared: Shared,
) -> Result<(), AllocError>
    ensures { OnOk result (rows.new.items ≡ rows.old.items
        ++ subject_rows names.entry.0.now names.entry.1.now states.entry.0.now states.entry.1.now shared) }
{
    let (s, t) = (SubjectId(shared.first), SubjectId(shared.second));
    if states.0.is_subject(s) && states.1.is_subject(t) {
        push_changes(alloc, rows, names, states, s, t)?;
    }
    Ok(())
}

/// Adds the rows of the subjects that two starts share.
pub(crate) fn push_subjects(
    alloc: Global,
    rows: &mut Vec<Change>,
    names: (&Names, &Names),
    states: (&State, &State),
    subjects: &[Shared],
) -> Result<(), AllocError>
    ensures { OnOk result (rows.new.items ≡ rows.old.items
        ++ flat_map (subject_rows names.entry.0.now names.entry.1.now states.entry.0.now states.entry.1.now)
        subjects.now) }
{
    for s in subjects {
        push_subject(alloc, rows, names, states, *s)?;
    }
    Ok(())
}
