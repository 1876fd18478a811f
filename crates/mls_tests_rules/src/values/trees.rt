//! An object of a tree with all below it, which only a call lists: also where a number is given again below a larger
//! one.
ghost use Rattle.std.specs.Prelude.{IsTrue};
ghost use Rattle.mls_tree.specs.Tree.{is_active};

use crate::values::seen::{are, sees};
use mls_tables::ObjectId;
use mls_tree::{Profile, Tree, TreeFault};
use std::alloc::{AllocError, Allocator};
use std::process::Abort;
use std::test::Fail;

/// Asserts that an object is active.
fn is_there<A: Allocator>(rt: &impl Abort, tree: &Tree<A>, o: u16)
    ensures { IsTrue (is_active tree.now.parent o) }
{
    sees(rt, tree.is_active(ObjectId(o)), "an active object");
}

/// Adds an object below another, with the number that is wanted.
fn add<A: Allocator>(
    rt: &impl Abort,
    tree: &mut Tree<A>,
    parent: u16,
    wanted: u16,
) -> Result<(), AllocError> {
    is_there(rt, tree, parent);
    match tree.add(ObjectId(parent)) {
        Ok(added) => sees(rt, added.number() == wanted, "a number"),
        Err(TreeFault::Memory) => return Err(AllocError),
        Err(TreeFault::Full) => sees(rt, false, "room"),
    }
    Ok(())
}

/// Takes out an active object that isn't the root, with all below it.
fn remove<A: Allocator>(
    rt: &impl Abort,
    tree: &mut Tree<A>,
    alloc: A,
    top: u16,
) -> Result<(), AllocError> {
    let is_root = top == 0;
    sees(rt, !is_root, "not the root");
    is_there(rt, tree, top);
    let group = tree.inferiors(alloc, ObjectId(top))?;
    tree.remove_group(&group);
    drop(group);
    Ok(())
}

/// Asserts what an object and all below it are.
fn lists<A: Allocator>(
    rt: &impl Abort,
    tree: &Tree<A>,
    alloc: A,
    top: u16,
    wanted: &[u16],
) -> Result<(), AllocError> {
    is_there(rt, tree, top);
    let group = tree.inferiors(alloc, ObjectId(top))?;
    sees(rt, are(&group, wanted), "a group");
    drop(group);
    Ok(())
}

/// Adds objects, each below the first of a pair and with the second as its number.
fn add_all<A: Allocator>(
    rt: &impl Abort,
    tree: &mut Tree<A>,
    pairs: &[(u16, u16)],
) -> Result<(), AllocError> {
    for (parent, wanted) in pairs {
        add(rt, tree, *parent, *wanted)?;
    }
    Ok(())
}

/// What a tree has at first: the parent and the number of each object.
const FIRST: [(u16, u16); 4] = [(0, 1), (1, 2), (2, 3), (0, 4)];

/// What is added to it once object 1 and all below it are taken out.
const THEN: [(u16, u16); 4] = [(4, 1), (0, 2), (0, 3), (0, 5)];

/// Adds objects to a tree of the root alone, takes a branch of three out, and adds others.
fn grow<A: Allocator + Copy>(
    rt: &impl Abort,
    tree: &mut Tree<A>,
    alloc: A,
) -> Result<(), AllocError> {
    add_all(rt, tree, &FIRST)?;
    lists(rt, tree, alloc, 1, &[1, 2, 3])?;
    remove(rt, tree, alloc, 1)?;
    lists(rt, tree, alloc, 0, &[0, 4])?;
    add_all(rt, tree, &THEN)?;
    lists(rt, tree, alloc, 4, &[1, 4])
}

#[test]
fn an_object_is_listed_with_all_below_it(rt: HostRuntime) -> Result<(), Fail> {
    let mut tree = Tree::new(rt.alloc(), Profile::Two)?;
    let grown = grow(&rt, &mut tree, rt.alloc());
    drop(tree);
    grown?;
    Ok(())
}
