//! What two starts have otherwise of the objects that they share.
ghost use Rattle.std.specs.Prelude.{◌≡◌, ◌++◌, IsTrue, OnOk};
ghost use Rattle.std.specs.FinMap as map;
ghost use Rattle.std.specs.List.{flat_map};
ghost use Rattle.mls_state.specs.State.{is_active};
ghost use Rattle.mls_differences.specs.Changes.{integrity_rows, object_changes, moved_rows, object_rows, parent_rows};
ghost use Rattle.mls_differences.specs.Changes.{same_parent, security_rows};

use crate::alike::{push_integrity, push_security};
use crate::change::{Change, push_change};
use crate::change_lines::parent_text;
use crate::name_lists::is_same;
use crate::shared::Shared;
use mls_lines::Names;
use mls_rules::State;
use mls_tables::ObjectId;
use std::alloc::{AllocError, Global};

/// Whether two parents have the same name, or both are none.
fn is_same_parent(
    names: (&Names, &Names),
    here: &Option<ObjectId>,
    there: &Option<ObjectId>,
) -> bool
    ensures { result ≡ same_parent names.entry.0.now names.entry.1.now here.now there.now }
{
    let first = parent_text(names.0, *here);
    let second = parent_text(names.1, *there);
    is_same(first, second)
}

/// Adds the row of two parents of an object.
fn push_moved(
    rows: &mut Vec<Change>,
    o: ObjectId,
    here: Option<ObjectId>,
    there: Option<ObjectId>,
) -> Result<(), AllocError>
    ensures { OnOk result (rows.new.items ≡ rows.old.items ++ moved_rows o here there) }
{
    match (here, there) {
        (Some(p), Some(q)) => push_change(rows, Change::Parent(o, p, q)),
        (None, Some(q)) => push_change(rows, Change::Placed(o, q)),
        (Some(p), None) => push_change(rows, Change::Freed(o, p)),
        (None, None) => Ok(()),
    }
}

/// Adds the row of the parents of an object, where they don't have the same name.
fn push_parents(
    rows: &mut Vec<Change>,
    names: (&Names, &Names),
    o: ObjectId,
    here: Option<ObjectId>,
    there: Option<ObjectId>,
) -> Result<(), AllocError>
    ensures { OnOk result (rows.new.items
        ≡ rows.old.items ++ parent_rows names.entry.0.now names.entry.1.now o here there) }
{
    if is_same_parent(names, &here, &there) {
        return Ok(());
    }
    push_moved(rows, o, here, there)
}

/// Adds the row of the parents of an object of one state and an object of another, where they don't have the same name.
fn push_parent(
    rows: &mut Vec<Change>,
    names: (&Names, &Names),
    states: (&State, &State),
    o: ObjectId,
    p: ObjectId,
) -> Result<(), AllocError>
    requires first { IsTrue (is_active states.0.now o) }
    requires second { IsTrue (is_active states.1.now p) }
    ensures { OnOk result (rows.new.items ≡ rows.old.items ++ parent_rows names.entry.0.now names.entry.1.now o
        (map.get states.entry.0.now.parent o) (map.get states.entry.1.now.parent p)) }
{
    let here = states.0.parent(o);
    let there = states.1.parent(p);
    push_parents(rows, names, o, here, there)
}

/// Adds the row of the security labels of an object of one state and an object of another.
fn push_label(
    alloc: Global,
    rows: &mut Vec<Change>,
    names: (&Names, &Names),
    states: (&State, &State),
    o: ObjectId,
    p: ObjectId,
) -> Result<(), AllocError>
    requires first { IsTrue (is_active states.0.now o) }
    requires second { IsTrue (is_active states.1.now p) }
    ensures { OnOk result (rows.new.items ≡ rows.old.items
        ++ security_rows names.entry.0.now names.entry.1.now (Change.Security o)
        (map.get states.entry.0.now.object_label o) (map.get states.entry.1.now.object_label p)) }
{
    let here = states.0.object_label(o);
    let there = states.1.object_label(p);
    push_security(
        alloc,
        rows,
        names,
        &here,
        &there,
        Change::Security(o, here, there),
    )
}

/// Adds the row of the integrity labels of an object of one state and an object of another.
fn push_own(
    alloc: Global,
    rows: &mut Vec<Change>,
    names: (&Names, &Names),
    states: (&State, &State),
    o: ObjectId,
    p: ObjectId,
) -> Result<(), AllocError>
    requires first { IsTrue (is_active states.0.now o) }
    requires second { IsTrue (is_active states.1.now p) }
    ensures { OnOk result (rows.new.items ≡ rows.old.items
        ++ integrity_rows names.entry.0.now names.entry.1.now (Change.Integrity o)
        (map.get states.entry.0.now.object_integrity o) (map.get states.entry.1.now.object_integrity p)) }
{
    let here = states.0.object_integrity(o);
    let there = states.1.object_integrity(p);
    push_integrity(
        alloc,
        rows,
        names,
        &here,
        &there,
        Change::Integrity(o, here, there),
    )
}

/// Adds the rows of an object of one state and an object of another.
fn push_changes(
    alloc: Global,
    rows: &mut Vec<Change>,
    names: (&Names, &Names),
    states: (&State, &State),
    o: ObjectId,
    p: ObjectId,
) -> Result<(), AllocError>
    requires first { IsTrue (is_active states.0.now o) }
    requires second { IsTrue (is_active states.1.now p) }
    ensures { OnOk result (rows.new.items ≡ rows.old.items
        ++ object_changes names.entry.0.now names.entry.1.now states.entry.0.now states.entry.1.now o p) }
{
    push_parent(rows, names, states, o, p)?;
    push_label(alloc, rows, names, states, o, p)?;
    push_own(alloc, rows, names, states, o, p)
}

/// Adds the rows of an object that two starts share.
fn push_object(
    alloc: Global,
    rows: &mut Vec<Change>,
    names: (&Names, &Names),
    states: (&State, &State),
    shared: Shared,
) -> Result<(), AllocError>
    ensures { OnOk result (rows.new.items ≡ rows.old.items
        ++ object_rows names.entry.0.now names.entry.1.now states.entry.0.now states.entry.1.now shared) }
{
    let (o, p) = (ObjectId(shared.first), ObjectId(shared.second));
    if states.0.is_active(o) && states.1.is_active(p) {
        push_changes(alloc, rows, names, states, o, p)?;
    }
    Ok(())
}

/// Adds the rows of the objects that two starts share.
pub(crate) fn push_objects(
    alloc: Global,
    rows: &mut Vec<Change>,
    names: (&Names, &Names),
    states: (&State, &State),
    objects: &[Shared],
) -> Result<(), AllocError>
    ensures { OnOk result (rows.new.items ≡ rows.old.items
        ++ flat_map (object_rows names.entry.0.now names.entry.1.now states.entry.0.now states.entry.1.now)
        objects.now) }
{
    for o in objects {
        push_object(alloc, rows, names, states, *o)?;
    }
    Ok(())
}
