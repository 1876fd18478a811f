//! Lists of objects in one piece of memory.
ghost use Rattle.std.specs.Prelude.{◌<◌, ◌≡◌, [], ◌∷◌, OnOk, length, slice_index_or};

use crate::values::seen::sees;
use mls_tables::{Lists, ObjectId};
use std::alloc::{AllocError, Global};
use std::process::Abort;
use std::test::Fail;

/// Asserts what a list has, and so whether it is empty.
fn list_is(rt: &impl Abort, lists: &Lists<ObjectId>, i: usize, wanted: &[ObjectId])
    requires { i < length lists.now.lists }
{
    let list = lists.list(i);
    sees(
        rt,
        list == wanted && list.is_empty() == wanted.is_empty(),
        "a list",
    );
}

/// Takes an object out of the second list, and one that isn't there, and empties the first.
fn leave(rt: &impl Abort, lists: &mut Lists<ObjectId>)
    requires two { 1 < length lists.old.lists }
    requires second { slice_index_or lists.old.lists 1 [] ≡ 2 ∷ 3 ∷ 5 ∷ [] }
{
    list_is(rt, lists, 0, &[ObjectId(7)]);
    list_is(rt, lists, 1, &[ObjectId(2), ObjectId(3), ObjectId(5)]);
    lists.discard(1, ObjectId(3));
    list_is(rt, lists, 1, &[ObjectId(2), ObjectId(5)]);
    lists.discard(1, ObjectId(4));
    list_is(rt, lists, 1, &[ObjectId(2), ObjectId(5)]);
    lists.clear(0);
    list_is(rt, lists, 0, &[]);
}

/// Puts four objects into two lists that are new.
fn enter(lists: &mut Lists<ObjectId>) -> Result<(), AllocError>
    requires { lists.old.lists ≡ [] }
    ensures two { OnOk result (1 < length lists.new.lists) }
    ensures second { OnOk result (slice_index_or lists.new.lists 1 [] ≡ 2 ∷ 3 ∷ 5 ∷ []) }
{
    lists.ensure_list(0)?;
    lists.ensure_list(1)?;
    lists.push(1, ObjectId(2))?;
    lists.push(0, ObjectId(7))?;
    lists.push(1, ObjectId(3))?;
    lists.push(1, ObjectId(5))?;
    Ok(())
}

/// Takes objects out of two lists, which their copy keeps.
fn leave_copied(
    rt: &impl Abort,
    lists: &mut Lists<ObjectId>,
    alloc: Global,
) -> Result<(), AllocError>
    requires two { 1 < length lists.old.lists }
    requires second { slice_index_or lists.old.lists 1 [] ≡ 2 ∷ 3 ∷ 5 ∷ [] }
{
    let copy = lists.duplicate(alloc)?;
    leave(rt, lists);
    list_is(rt, &copy, 1, &[ObjectId(2), ObjectId(3), ObjectId(5)]);
    drop(copy);
    Ok(())
}

#[test]
fn lists_lie_side_by_side(rt: HostRuntime) -> Result<(), Fail> {
    let mut lists = Lists::new(rt.alloc())?;
    let mut done = enter(&mut lists);
    if done.is_ok() {
        done = leave_copied(&rt, &mut lists, rt.alloc());
    }
    drop(lists);
    done?;
    Ok(())
}
