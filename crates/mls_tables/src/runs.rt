//! Taking objects whose numbers follow one another out of the lists of those who access them.
ghost use Rattle.std.specs.Prelude.{◌≡◌, ℕ, ◌<◌, ◌≤◌, ◌+◌, ◌==◌, ◌&&◌, Bool, not, [], List, All, length};
ghost use Rattle.std.specs.Prelude.{slice_index_or, slice_index, slice_set, true, false, IsTrue, if◌then◌else◌};
ghost use Rattle.std.specs.List.{list_any};
ghost use Rattle.std.specs.List.Sorted.{IsStrictlyIncreasing};
ghost use Rattle.mls_tables.specs.declared.limits.TheConstants.{MAX_SUBJECTS, MAX_OBJECTS};
ghost use Rattle.mls_tables.specs.Rows.{IsRows, PartsAt, TakenOut, is_in_run};
ghost use Rattle.mls_tables.specs.Held.{Indexes};

use crate::ids::{ObjectId, SubjectId};
use crate::limits::MAX_SUBJECTS;
use crate::lists::Lists;
use crate::objects::searched;
use crate::subjects::{clear_subjects, subjects_of};
use std::alloc::Allocator;

/// Whether an object has this number, and it is less than a bound.
fn is_next(o: ObjectId, next: usize, bound: u16) -> bool
    ensures next { IsTrue result → o ≡ next }
    ensures known { IsTrue result → o < bound }
{
    o.number() < bound && usize::from(o.number()) == next
}

/// How many objects at the head of a group have numbers that follow one another, all of them less than a bound.
pub(crate) fn run_len(group: &[ObjectId], bound: u16) -> usize
    requires some { 0 < length group.now }
    requires known { slice_index group.now 0 < bound }
    ensures least { 1 ≤ result }
    ensures most { result ≤ length group.now }
    ensures run { (k : ℕ) → k < result → slice_index group.now k ≡ slice_index group.now 0 + k }
    ensures below { slice_index group.now 0 + result ≤ bound }
{
    let first = group[0].number();
    let mut len = 1;
    while len < group.len() {
        let next = is_next(group[len], usize::from(first) + len, bound);
        if !next {
            return len;
        }
        len += 1;
    }
    len
}

/// Where in a list the numbers begin that aren't less than a bound, by binary search.
fn place_of_first(list: &[ObjectId], first: u16) -> usize
    ensures within { result ≤ length list.now }
    ensures parts { IsStrictlyIncreasing list.now → PartsAt list.now first result }
{
    match searched(list, ObjectId(first)) {
        Ok(k) => k,
        Err(k) => k,
    }
}

/// Where in a list the numbers begin that aren't less than a bound, looked for one by one from a place on.
fn place_of_end(list: &[ObjectId], from: usize, end: u16) -> usize
    requires { from ≤ length list.now }
    ensures least { from ≤ result }
    ensures most { result ≤ length list.now }
    ensures parts { IsStrictlyIncreasing list.now → ((j : ℕ) → j < from → slice_index list.now j < end)
        → PartsAt list.now end result }
{
    let mut at = from;
    while at < list.len() {
        if end <= list[at].number() {
            return at;
        }
        at += 1;
    }
    at
}

/// Takes the objects from a first number to that before an end out of the list of a subject.
fn take_run<A: Allocator>(objects: &mut Lists<ObjectId, A>, s: SubjectId, first: u16, end: u16)
    requires row { s < length objects.old.lists }
    requires order { first ≤ end }
    ensures many { length objects.new.lists ≡ length objects.old.lists }
    ensures taken { (p : ℕ → ℕ → Bool) (n : ℕ) → IsRows p n objects.old.lists
        → IsRows (λ a b. p a b && not (a == s && is_in_run first end b)) n objects.new.lists }
{
    let row = usize::from(s.0);
    let from = place_of_first(objects.list(row), first);
    let to = place_of_end(objects.list(row), from, end);
    objects.cut(row, from, to - from);
}

/// Takes the objects of a run out of the list of a subject that isn't marked, and marks it.
fn take_once<A: Allocator>(
    objects: &mut Lists<ObjectId, A>,
    marked: &mut [bool],
    s: SubjectId,
    first: u16,
    end: u16,
)
    requires row { s < length objects.old.lists }
    requires marks { s < length marked.old }
    requires order { first ≤ end }
    ensures many { length objects.new.lists ≡ length objects.old.lists }
    ensures marked { marked.new ≡ slice_set marked.old s true }
    ensures taken { (before : List (List ℕ)) → TakenOut marked.old first end before objects.old.lists
        → TakenOut marked.new first end before objects.new.lists }
{
    let row = usize::from(s.0);
    if marked[row] {
        return;
    }
    marked[row] = true;
    take_run(objects, s, first, end);
}

/// Takes the objects of a run out of the lists of those subjects that aren't marked, and marks them.
fn take_from_each<A: Allocator>(
    objects: &mut Lists<ObjectId, A>,
    marked: &mut [bool],
    holders: &[SubjectId],
    first: u16,
    end: u16,
)
    requires rows { All (λ s. s < length objects.old.lists) holders.now }
    requires marks { length objects.old.lists ≤ length marked.old }
    requires order { first ≤ end }
    ensures many { length objects.new.lists ≡ length objects.old.lists }
    ensures kept { (a : ℕ) → IsTrue (slice_index_or marked.old a false)
        → IsTrue (slice_index_or marked.new a false) }
    ensures all { (a : ℕ) → IsTrue (list_any (λ s. a == s) holders.now)
        → IsTrue (slice_index_or marked.new a false) }
    ensures taken { (before : List (List ℕ)) → TakenOut marked.old first end before objects.old.lists
        → TakenOut marked.new first end before objects.new.lists }
{
    for s in holders {
        take_once(objects, marked, *s, first, end);
    }
}

/// Takes the objects of a run out of the lists of all who access one of them.
pub(crate) fn take_from_holders<A: Allocator>(
    objects: &mut Lists<ObjectId, A>,
    subjects: &Lists<SubjectId, A>,
    first: u16,
    end: u16,
)
    requires few { length objects.old.lists ≤ MAX_SUBJECTS }
    requires rows { (o : ℕ) → All (λ s. s < length objects.old.lists) (slice_index_or subjects.now.lists o []) }
    requires columns { end ≤ length subjects.now.lists }
    requires order { first ≤ end }
    ensures many { length objects.new.lists ≡ length objects.old.lists }
    ensures taken { (p : ℕ → ℕ → Bool) → Indexes p objects.old.lists subjects.now.lists
        → IsRows (λ a b. p a b && not (is_in_run first end b)) MAX_OBJECTS objects.new.lists }
{
    let mut marked = [false; MAX_SUBJECTS as usize];
    for o in first..end {
        take_from_each(
            objects,
            &mut marked,
            subjects_of(subjects, ObjectId(o)),
            first,
            end,
        );
    }
}

/// Empties the lists of the objects of a run.
pub(crate) fn clear_run<A: Allocator>(subjects: &mut Lists<SubjectId, A>, first: u16, end: u16)
    requires columns { end ≤ length subjects.old.lists }
    requires order { first ≤ end }
    ensures many { length subjects.new.lists ≡ length subjects.old.lists }
    ensures cleared { (o : ℕ) → slice_index_or subjects.new.lists o []
        ≡ (if is_in_run first end o then [] else slice_index_or subjects.old.lists o []) }
{
    for o in first..end {
        clear_subjects(subjects, ObjectId(o));
    }
}
