//! Steps on what a tree is kept as: a list of parents, and a list of children for each object.
ghost use Rattle.std.specs.Prelude.{◌≡◌, ℕ, ◌<◌, ◌≤◌, ◌==◌, ◌++◌, [], ◌∷◌, not, Some, None, IfSome, IfNone};
ghost use Rattle.std.specs.Prelude.{if◌then◌else◌, All, length, filter, slice_index, slice_index_or, slice_set};
ghost use Rattle.std.specs.Prelude.{vec_len, max, take, IfOk, OnOk, OnErr};
ghost use Rattle.std.specs.FinSet as set;
ghost use Rattle.std.specs.List.{list_any};
ghost use Rattle.std.specs.List.Sorted.{IsStrictlyIncreasing};
ghost use Rattle.mls_tables.specs.declared.limits.TheConstants.{MAX_OBJECTS};
ghost use Rattle.mls_facts.specs.Places.{placed};
ghost use Rattle.mls_tables.specs.Rows.{Entered};
ghost use Rattle.mls_tree.specs.Kept.{stays_listed, without_numbers};

use crate::numbers::Numbers;
use mls_tables::{Lists, ObjectId, put_at};
use std::alloc::{AllocError, Allocator};

/// The parents in the tree of the root alone: the root has none.
///
/// # Errors
/// Where allocation fails.
pub(crate) fn root_alone<A: Allocator>(alloc: A) -> Result<Vec<Option<ObjectId>, A>, AllocError>
    ensures { IfOk result (λ parents. parents.items ≡ None ∷ []) }
{
    let mut parents = Vec::new(alloc);
    parents.push(None)?;
    Ok(parents)
}

/// The active numbers in the tree of the root alone.
///
/// # Errors
/// Where allocation fails.
pub(crate) fn root_active<A: Allocator>(alloc: A) -> Result<Numbers<A>, AllocError>
    ensures { IfOk result (λ numbers. numbers ≡ set.insert set.empty 0) }
{
    let mut numbers = Numbers::new(alloc)?;
    numbers.insert(0);
    Ok(numbers)
}

/// Adds an object below its parent: to the parents, and in its place to the parent's list of children.
///
/// # Errors
/// Where allocation fails. Parents and lists are then unchanged.
pub(crate) fn enter<A: Allocator>(
    parents: &mut Vec<Option<ObjectId>, A>,
    lists: &mut Lists<ObjectId, A>,
    parent: ObjectId,
    next: u16,
) -> Result<(), AllocError>
    requires place { next ≤ vec_len parents.old }
    requires list { parent < length lists.old.lists }
    requires few { length (slice_index_or lists.old.lists parent []) ≤ MAX_OBJECTS }
    ensures parents { OnOk result (parents.new.items ≡ placed parents.old.items next (Some parent)) }
    ensures many { length lists.new.lists ≡ length lists.old.lists }
    ensures lists { OnOk result (Entered parent next lists.old.lists lists.new.lists) }
    ensures same_parents { OnErr result (parents.new.items ≡ parents.old.items) }
    ensures same_lists { OnErr result (lists.new.lists ≡ lists.old.lists) }
{
    parents.reserve(1)?;
    lists.insert(parent.number() as usize, ObjectId::new(next))?;
    put_at(parents, next as usize, Some(parent));
    Ok(())
}

/// Makes sure that there is a list at each place below one, where there are as many as begin. What is added is empty.
///
/// # Errors
/// Where allocation fails. Some empty lists may then be there more.
fn make_lists<A: Allocator>(
    lists: &mut Lists<ObjectId, A>,
    begin: usize,
    end: usize,
) -> Result<(), AllocError>
    requires { begin ≤ length lists.old.lists }
    ensures room { OnOk result (end ≤ length lists.new.lists) }
    ensures longer { length lists.old.lists ≤ length lists.new.lists }
    ensures same { (q : ℕ) → slice_index_or lists.new.lists q [] ≡ slice_index_or lists.old.lists q [] }
{
    for i in begin..end {
        lists.ensure_list(i)?;
    }
    Ok(())
}

/// Makes sure that each number below one has a place, and a list. None of those that are added has a parent or a child.
///
/// # Errors
/// Where allocation fails. The parents are then unchanged.
pub(crate) fn make_places<A: Allocator>(
    parents: &mut Vec<Option<ObjectId>, A>,
    lists: &mut Lists<ObjectId, A>,
    end: u16,
) -> Result<(), AllocError>
    requires { length parents.old.items ≤ length lists.old.lists }
    ensures many { OnOk result (length parents.new.items ≡ max (length parents.old.items) end) }
    ensures unchanged { OnErr result (parents.new.items ≡ parents.old.items) }
    ensures front { take (length parents.old.items) parents.new.items ≡ parents.old.items }
    ensures parents { (q : ℕ) → slice_index_or parents.new.items q None ≡ slice_index_or parents.old.items q None }
    ensures room { length parents.new.items ≤ length lists.new.lists }
    ensures longer { length lists.old.lists ≤ length lists.new.lists }
    ensures same { (q : ℕ) → slice_index_or lists.new.lists q [] ≡ slice_index_or lists.old.lists q [] }
{
    let (count, wanted) = (parents.len(), end as usize);
    if wanted <= count {
        return Ok(());
    }
    make_lists(lists, count, wanted)?;
    parents.resize(wanted, None)?;
    Ok(())
}

/// Adds the children of the object at a place of a list to the end of that list.
///
/// # Errors
/// Where allocation fails.
pub(crate) fn add_children<A: Allocator, B: Allocator>(
    lists: &Lists<ObjectId, A>,
    group: &mut Vec<ObjectId, B>,
    at: usize,
) -> Result<(), AllocError>
    requires place { at < vec_len group.old }
    requires listed { slice_index group.old.items at < length lists.now.lists }
    ensures { OnOk result
        (group.new.items ≡ group.old.items ++ slice_index_or lists.now.lists (slice_index group.old.items at) []) }
{
    let below = lists.list(group[at].number() as usize);
    group.extend_from_slice(below)?;
    Ok(())
}

/// Empties the lists of the objects.
pub(crate) fn clear_each<A: Allocator>(lists: &mut Lists<ObjectId, A>, group: &[ObjectId])
    requires { All (λ x. x < length lists.old.lists) group.now }
    ensures many { length lists.new.lists ≡ length lists.old.lists }
    ensures cleared { (q : ℕ) → slice_index_or lists.new.lists q [] ≡
        (if list_any (λ x. q == x) group.now then [] else slice_index_or lists.old.lists q []) }
{
    for o in group {
        lists.clear(o.number() as usize);
    }
}

/// Takes an object out of the list of its parent, if it has one. The list ascends.
pub(crate) fn discard_one<A: Allocator>(
    lists: &mut Lists<ObjectId, A>,
    parent: Option<ObjectId>,
    o: ObjectId,
)
    requires list { IfSome parent (λ p. p < length lists.old.lists) }
    requires ascends { IfSome parent (λ p. IsStrictlyIncreasing (slice_index_or lists.old.lists p [])) }
    ensures listed { IfSome parent
        (λ p. lists.new.lists
        ≡ slice_set lists.old.lists p (filter (λ y. not (y == o)) (slice_index_or lists.old.lists p []))) }
    ensures root { IfNone parent (lists.new.lists ≡ lists.old.lists) }
{
    match parent {
        Some(p) => lists.discard(p.number() as usize, o),
        None => {}
    }
}

/// Takes each of the objects out of its parent's list. The lists ascend.
pub(crate) fn discard_each<A: Allocator>(
    lists: &mut Lists<ObjectId, A>,
    parents: &[Option<ObjectId>],
    group: &[ObjectId],
)
    requires numbers { All (λ x. x < length parents.now) group.now }
    requires listed { (x p : ℕ) → slice_index_or parents.now x None ≡ Some p → p < length lists.old.lists }
    requires ascend { (q : ℕ) → IsStrictlyIncreasing (slice_index_or lists.old.lists q []) }
    ensures many { length lists.new.lists ≡ length lists.old.lists }
    ensures left { (q : ℕ)
        → slice_index_or lists.new.lists q []
        ≡ filter (stays_listed parents.now group.now q) (slice_index_or lists.old.lists q []) }
{
    for o in group {
        let parent = parents[o.number() as usize];
        discard_one(lists, parent, *o);
    }
}

/// Takes the parents of the objects away.
pub(crate) fn forget_each(parents: &mut [Option<ObjectId>], group: &[ObjectId])
    requires { All (λ x. x < length parents.old) group.now }
    ensures { (q : ℕ) → slice_index_or parents.new q None ≡
        (if list_any (λ x. q == x) group.now then None else slice_index_or parents.old q None) }
{
    for o in group {
        parents[o.number() as usize] = None;
    }
}

/// Takes the objects out of a set of numbers.
pub(crate) fn free_each<A: Allocator>(numbers: &mut Numbers<A>, group: &[ObjectId])
    requires { All (λ x. x < MAX_OBJECTS) group.now }
    ensures { numbers.new ≡ without_numbers numbers.old group.now }
{
    for o in group {
        numbers.remove(o.number());
    }
}
