//! Who accesses what: for each subject its objects, and for each object its subjects.
ghost use Rattle.std.specs.Prelude.{◌≡◌, ℕ, ◌<◌, ◌≤◌, ◌==◌, ◌&&◌, ◌||◌, Bool, not, [], All, length, slice_index_or};
ghost use Rattle.std.specs.Prelude.{replicate, IfOk, OnOk, OnErr};
ghost use Rattle.mls_tables.specs.declared.limits.TheConstants.{MAX_SUBJECTS, MAX_OBJECTS};
ghost use Rattle.mls_tables.specs.Held.{Indexes, Unlisted};
ghost use Rattle.mls_tables.specs.Rows.{TellRelation, is_in_run};

use crate::ids::{ObjectId, SubjectId};
use crate::lists::Lists;
use crate::objects::{enter_object, take_object};
use crate::runs::{clear_run, take_from_holders};
use crate::subjects::{enter_subject, subjects_of, take_subject};
use std::alloc::{AllocError, Allocator, Global};

/// For each subject the objects that it accesses, and for each object the subjects that access it, both ascending.
#[derive(Drop)]
pub struct Index<A: Allocator = Global> {
    objects: Lists<ObjectId, A>,
    subjects: Lists<SubjectId, A>,
}

/// So many empty lists.
///
/// # Errors
/// Where allocation fails.
fn empty_lists<A: Allocator + Clone>(alloc: A, count: u16) -> Result<Lists<ObjectId, A>, AllocError>
    ensures { IfOk result (λ b. b.lists ≡ replicate count []) }
{
    let mut lists = Lists::new(alloc)?;
    let mut made = 0;
    while made < count {
        lists.add_list()?;
        made += 1;
    }
    Ok(lists)
}

impl<A: Allocator> Index<A> {
    /// The objects of a subject.
    pub(crate) fn objects_of(&self, s: SubjectId) -> &[ObjectId]
        requires { s < length self.now.objects.lists }
        ensures { result.now ≡ slice_index_or self.now.objects.lists s [] }
    {
        self.objects.list(usize::from(s.number()))
    }

    /// The subjects of an object.
    pub(crate) fn subjects_of(&self, o: ObjectId) -> &[SubjectId]
        requires { o < length self.now.subjects.lists }
        ensures { result.now ≡ slice_index_or self.now.subjects.lists o [] }
    {
        subjects_of(&self.subjects, o)
    }

    /// Makes sure that there is a list for the next object.
    ///
    /// # Errors
    /// Where allocation fails. The lists are then unchanged.
    pub(crate) fn ensure_column(&mut self, next: u16) -> Result<(), AllocError>
        requires { next ≤ length self.old.subjects.lists }
        ensures room { OnOk result (next < length self.new.subjects.lists) }
        ensures longer { length self.old.subjects.lists ≤ length self.new.subjects.lists }
        ensures objects { self.new.objects.lists ≡ self.old.objects.lists }
        ensures subjects { (o : ℕ)
            → slice_index_or self.new.subjects.lists o [] ≡ slice_index_or self.old.subjects.lists o [] }
    {
        self.subjects.ensure_list(usize::from(next))?;
        Ok(())
    }

    /// Enters an object into the list of a subject, and the subject into that of the object. Both lists have room
    /// before either changes.
    ///
    /// # Errors
    /// Where allocation fails. The lists are then unchanged.
    pub(crate) fn link(&mut self, s: SubjectId, o: ObjectId) -> Result<(), AllocError>
        requires row { s < length self.old.objects.lists }
        requires column { o < length self.old.subjects.lists }
        requires subject { s < MAX_SUBJECTS }
        requires object { o < MAX_OBJECTS }
        requires few_objects { length (slice_index_or self.old.objects.lists s []) ≤ MAX_OBJECTS }
        requires few_subjects { length (slice_index_or self.old.subjects.lists o []) ≤ MAX_OBJECTS }
        ensures rows { length self.new.objects.lists ≡ length self.old.objects.lists }
        ensures columns { length self.new.subjects.lists ≡ length self.old.subjects.lists }
        ensures ok { OnOk result
            ((p : ℕ → ℕ → Bool) → Indexes p self.old.objects.lists self.old.subjects.lists
            → Indexes (λ a b. (a == s && b == o) || p a b) self.new.objects.lists self.new.subjects.lists) }
        ensures err_objects { OnErr result (self.new.objects.lists ≡ self.old.objects.lists) }
        ensures err_subjects { OnErr result (self.new.subjects.lists ≡ self.old.subjects.lists) }
    {
        self.objects.make_room(usize::from(s.number()), o)?;
        self.subjects.make_room(usize::from(o.number()), s)?;
        enter_object(&mut self.objects, s, o);
        enter_subject(&mut self.subjects, o, s);
        Ok(())
    }

    /// Takes an object out of the list of a subject, and the subject out of that of the object.
    pub(crate) fn unlink(&mut self, s: SubjectId, o: ObjectId)
        requires row { s < length self.old.objects.lists }
        requires column { o < length self.old.subjects.lists }
        requires told { TellRelation self.old.objects.lists }
        ensures rows { length self.new.objects.lists ≡ length self.old.objects.lists }
        ensures columns { length self.new.subjects.lists ≡ length self.old.subjects.lists }
        ensures gone { Unlisted
            (λ a b. a == s
            && b == o) self.old.objects.lists self.old.subjects.lists self.new.objects.lists self.new.subjects.lists }
    {
        take_object(&mut self.objects, s, o);
        take_subject(&mut self.subjects, o, s);
    }

    /// Takes the objects from a first number to that before an end out of the lists of their subjects, and these out
    /// of theirs. The list of a subject is searched once.
    pub(crate) fn unlink_run(&mut self, first: u16, end: u16)
        requires order { first ≤ end }
        requires columns { end ≤ length self.old.subjects.lists }
        requires few { length self.old.objects.lists ≤ MAX_SUBJECTS }
        requires subjects { (o : ℕ)
            → All (λ s. s < length self.old.objects.lists) (slice_index_or self.old.subjects.lists o []) }
        ensures rows { length self.new.objects.lists ≡ length self.old.objects.lists }
        ensures columns { length self.new.subjects.lists ≡ length self.old.subjects.lists }
        ensures gone { Unlisted (λ a b. is_in_run first end b) self.old.objects.lists self.old.subjects.lists
            self.new.objects.lists self.new.subjects.lists }
    {
        take_from_holders(&mut self.objects, &self.subjects, first, end);
        clear_run(&mut self.subjects, first, end);
    }
}

impl<A: Allocator + Clone> Index<A> {
    /// The index of so many subjects and no object.
    ///
    /// # Errors
    /// Where allocation fails.
    pub(crate) fn new(alloc: A, subjects: u16) -> Result<Index<A>, AllocError>
        ensures objects { IfOk result (λ b. b.objects.lists ≡ replicate subjects []) }
        ensures subjects { IfOk result (λ b. b.subjects.lists ≡ []) }
    {
        let objects = empty_lists(alloc.clone()?, subjects)?;
        Ok(Index {
            objects,
            subjects: Lists::new(alloc)?,
        })
    }

    /// A copy.
    ///
    /// # Errors
    /// Where allocation fails.
    pub(crate) fn duplicate(&self, alloc: A) -> Result<Index<A>, AllocError>
        ensures objects { IfOk result (λ b. b.objects.lists ≡ self.now.objects.lists) }
        ensures subjects { IfOk result (λ b. b.subjects.lists ≡ self.now.subjects.lists) }
    {
        let objects = self.objects.duplicate(alloc.clone()?)?;
        Ok(Index {
            objects,
            subjects: self.subjects.duplicate(alloc)?,
        })
    }
}
