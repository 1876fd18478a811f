//! Lists of subjects, which ascend.
ghost use Rattle.std.specs.Prelude.{◌≡◌, ℕ, ◌<◌, ◌==◌, ◌&&◌, ◌||◌, Bool, not, [], length, slice_index_or, slice_set};
ghost use Rattle.std.specs.List.Sorted.{IsStrictlyIncreasing};
ghost use Rattle.mls_tables.specs.Rows.{IsInRange, FoundAt, IsRows};

use crate::ids::{ObjectId, SubjectId};
use crate::lists::Lists;
use std::alloc::Allocator;

/// Where a subject stands in a list, or else where it would, by binary search.
fn place_of_subject(list: &[SubjectId], s: SubjectId) -> Result<usize, usize>
    ensures range { IsInRange result (length list.now) }
    ensures place { IsStrictlyIncreasing list.now → FoundAt list.now s result }
{
    list.binary_search_by_key(&s.number(), |x| x.number())
}

/// The list of an object.
pub(crate) fn subjects_of<A: Allocator>(subjects: &Lists<SubjectId, A>, o: ObjectId) -> &[SubjectId]
    requires { o < length subjects.now.lists }
    ensures { result.now ≡ slice_index_or subjects.now.lists o [] }
{
    subjects.list(usize::from(o.0))
}

/// Takes a subject out of the list of an object.
pub(crate) fn take_subject<A: Allocator>(
    subjects: &mut Lists<SubjectId, A>,
    o: ObjectId,
    s: SubjectId,
)
    requires { o < length subjects.old.lists }
    ensures many { length subjects.new.lists ≡ length subjects.old.lists }
    ensures taken { (p : ℕ → ℕ → Bool) (n : ℕ) → IsRows p n subjects.old.lists
        → IsRows (λ a b. p a b && not (a == o && b == s)) n subjects.new.lists }
{
    let column = usize::from(o.0);
    let place = place_of_subject(subjects.list(column), s);
    subjects.leave(column, place);
}

/// Empties the list of an object.
pub(crate) fn clear_subjects<A: Allocator>(subjects: &mut Lists<SubjectId, A>, o: ObjectId)
    requires { o < length subjects.old.lists }
    ensures { subjects.new.lists ≡ slice_set subjects.old.lists o [] }
{
    subjects.clear(usize::from(o.0));
}

/// Enters a subject into the list of an object, which has room for it.
pub(crate) fn enter_subject<A: Allocator>(
    subjects: &mut Lists<SubjectId, A>,
    o: ObjectId,
    s: SubjectId,
)
    requires column { o < length subjects.old.lists }
    requires room { length (slice_index_or subjects.old.lists o []) < slice_index_or subjects.old.rooms o 0 }
    ensures many { length subjects.new.lists ≡ length subjects.old.lists }
    ensures entered { (p : ℕ → ℕ → Bool) (n : ℕ) → s < n → IsRows p n subjects.old.lists
        → IsRows (λ a b. (a == o && b == s) || p a b) n subjects.new.lists }
{
    let column = usize::from(o.0);
    let place = place_of_subject(subjects.list(column), s);
    subjects.enter(column, place, s);
}
