//! Lists of objects, which ascend.
ghost use Rattle.std.specs.Prelude.{◌≡◌, ℕ, ◌<◌, ◌≤◌, ◌==◌, ◌&&◌, Bool, not, [], length, filter, slice_index_or};
ghost use Rattle.std.specs.Prelude.{slice_set, OnOk, OnErr};
ghost use Rattle.std.specs.List.Sorted.{IsStrictlyIncreasing};
ghost use Rattle.mls_tables.specs.declared.limits.TheConstants.{MAX_OBJECTS};
ghost use Rattle.mls_tables.specs.Rows.{IsInRange, FoundAt, IsRows, Entered, TellRelation};

use crate::ids::{ObjectId, SubjectId};
use crate::lists::Lists;
use std::alloc::{AllocError, Allocator};
use std::cmp::Ordering;

/// Where an object stands in a list, or else where it would, by binary search.
pub(crate) fn searched(list: &[ObjectId], o: ObjectId) -> Result<usize, usize>
    ensures range { IsInRange result (length list.now) }
    ensures place { IsStrictlyIncreasing list.now → FoundAt list.now o result }
{
    list.binary_search_by_key(&o.number(), |x| x.number())
}

/// Where an object stands in a list, or else where it would. The end is looked at first: objects are often created in
/// ascending order.
#[tactic(auto, using(crate::proofs::Ordered::behind_last))]
fn place_of_object(list: &[ObjectId], o: ObjectId) -> Result<usize, usize>
    ensures range { IsInRange result (length list.now) }
    ensures place { IsStrictlyIncreasing list.now → FoundAt list.now o result }
{
    let Some(last) = list.last() else {
        return Err(0);
    };
    match o.number().cmp(&last.number()) {
        Ordering::Less => searched(list, o),
        Ordering::Equal => Ok(list.len() - 1),
        Ordering::Greater => Err(list.len()),
    }
}

impl<A: Allocator> Lists<ObjectId, A> {
    /// Enters an object into a list that ascends and has room for it, in its place; nothing changes where it is there.
    fn enter_in_place(&mut self, i: usize, o: ObjectId)
        requires list { i < length self.old.lists }
        requires room { length (slice_index_or self.old.lists i []) < slice_index_or self.old.rooms i 0 }
        ensures many { length self.new.lists ≡ length self.old.lists }
        ensures entered { Entered i o self.old.lists self.new.lists }
    {
        let place = place_of_object(self.list(i), o);
        self.enter(i, place, o);
    }

    /// Enters an object into a list of at most 4,096 that ascends, in its place; nothing changes where it is there.
    /// The end is looked at first, then it is a binary search.
    ///
    /// # Errors
    /// Where allocation fails. The lists are then unchanged.
    pub fn insert(&mut self, i: usize, o: ObjectId) -> Result<(), AllocError>
        requires list { i < length self.old.lists }
        requires few { length (slice_index_or self.old.lists i []) ≤ MAX_OBJECTS }
        ensures many { length self.new.lists ≡ length self.old.lists }
        ensures ok { OnOk result (Entered i o self.old.lists self.new.lists) }
        ensures err { OnErr result (self.new.lists ≡ self.old.lists) }
    {
        self.make_room(i, o)?;
        self.enter_in_place(i, o);
        Ok(())
    }

    /// Takes an object out of a list that ascends, if it is there. It is looked for by binary search.
    pub fn discard(&mut self, i: usize, o: ObjectId)
        requires list { i < length self.old.lists }
        requires ascending { IsStrictlyIncreasing (slice_index_or self.old.lists i []) }
        ensures many { length self.new.lists ≡ length self.old.lists }
        ensures gone { self.new.lists ≡
            slice_set self.old.lists i (filter (λ y. not (y == o)) (slice_index_or self.old.lists i [])) }
    {
        let place = searched(self.list(i), o);
        self.leave(i, place);
    }
}

/// Takes an object out of the list of a subject.
pub(crate) fn take_object<A: Allocator>(objects: &mut Lists<ObjectId, A>, s: SubjectId, o: ObjectId)
    requires row { s < length objects.old.lists }
    requires told { TellRelation objects.old.lists }
    ensures many { length objects.new.lists ≡ length objects.old.lists }
    ensures taken { (p : ℕ → ℕ → Bool) (n : ℕ) → IsRows p n objects.old.lists
        → IsRows (λ a b. p a b && not (a == s && b == o)) n objects.new.lists }
{
    objects.discard(usize::from(s.0), o);
}

/// Enters an object into the list of a subject, which has room for it.
pub(crate) fn enter_object<A: Allocator>(
    objects: &mut Lists<ObjectId, A>,
    s: SubjectId,
    o: ObjectId,
)
    requires row { s < length objects.old.lists }
    requires room { length (slice_index_or objects.old.lists s []) < slice_index_or objects.old.rooms s 0 }
    ensures many { length objects.new.lists ≡ length objects.old.lists }
    ensures entered { Entered s o objects.old.lists objects.new.lists }
{
    objects.enter_in_place(usize::from(s.0), o);
}
