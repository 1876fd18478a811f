//! The current accesses.
ghost use Rattle.std.specs.Prelude.{◌≡◌, ℕ, ◌<◌, ◌≤◌, ◌+◌, ◌==◌, IfOk, OnOk, OnErr, not};
ghost use Rattle.std.specs.Prelude.{length, slice_index, take};
ghost use Rattle.std.specs.FinSet as set;
ghost use Rattle.std.specs.List.{list_any};
ghost use Rattle.mls_tables.specs.declared.limits.TheConstants.{MAX_SUBJECTS, MAX_OBJECTS};
ghost use Rattle.mls_tables.specs.declared.mode.Mode.{Mode as ModeName};
ghost use Rattle.mls_tables.specs.Table.{IsWithin, empty_table, without_object, without_objects};
ghost use Rattle.mls_tables.specs.Held.{is_held, objects_of, subjects_of};

use crate::ids::{ObjectId, SubjectId};
use crate::index::Index;
use crate::listing::{list_pair, unlist_pair};
use crate::matrix::Matrix;
use crate::mode::Mode;
use crate::modes::Modes;
use crate::runs::run_len;
use std::alloc::{AllocError, Allocator, Global};
use std::marker::Model;

/// The current accesses: a set of triples of a subject, an object and a mode, with rows for 1 to `MAX_SUBJECTS`
/// subjects and columns for up to `MAX_OBJECTS` object numbers. It is kept as cells, with the objects of each subject
/// and the subjects of each object listed beside them.
#[derive(Drop)]
pub struct AccessSet<A: Allocator = Global> {
    matrix: Matrix<A>,
    index: Index<A>,
}

impl<A: Allocator> Model for AccessSet<A> {
    ghost use Rattle.mls_tables.specs.Table.{Table, table_code};
    ghost use Rattle.mls_tables.specs.Held.{IsIndexed};

    ghost Value = { Table };

    ghost coded = { table_code };

    ghost view = { λ b. b.matrix };

    ghost invariant = { λ b. IsIndexed b.matrix b.index.objects.lists b.index.subjects.lists };
}

impl<A: Allocator> AccessSet<A> {
    /// How many subjects there are rows for.
    pub fn subjects(&self) -> u16
        ensures reply { result ≡ self.now.subjects }
        ensures least { 1 ≤ result }
        ensures most { result ≤ MAX_SUBJECTS }
    {
        self.matrix.subjects()
    }

    /// How many object numbers there are columns for. Each triple names a subject and an object within the two.
    pub fn columns(&self) -> u16
        ensures reply { result ≡ self.now.columns }
        ensures most { result ≤ MAX_OBJECTS }
        ensures within { IsWithin self.now.subjects self.now.columns self.now.triples }
    {
        self.matrix.columns()
    }

    /// Adds an empty column for the next object number.
    ///
    /// # Errors
    /// `AllocError` where an allocation fails. Then nothing has changed.
    pub fn add_object(&mut self) -> Result<(), AllocError>
        requires { self.old.columns < MAX_OBJECTS }
        ensures ok { OnOk result (self.new ≡ record self.old { columns = self.old.columns + 1 }) }
        ensures err { OnErr result (self.new ≡ self.old) }
    {
        self.index.ensure_column(self.matrix.columns())?;
        self.matrix.add_object()?;
        Ok(())
    }

    /// The modes in which a subject accesses an object.
    pub fn modes(&self, s: SubjectId, o: ObjectId) -> Modes
        requires subject { s < self.now.subjects }
        requires object { o < self.now.columns }
        ensures cell { (x : ModeName) → set.contains result x ≡ set.contains self.now.triples (s, o, x) }
    {
        self.matrix.modes(s, o)
    }

    /// Whether the subject accesses the object in the mode.
    pub fn contains(&self, s: SubjectId, o: ObjectId, x: Mode) -> bool
        requires subject { s < self.now.subjects }
        requires object { o < self.now.columns }
        ensures { result ≡ set.contains self.now.triples (s, o, x) }
    {
        self.modes(s, o).has(x)
    }

    /// The objects that a subject accesses, in whatever mode: ascending, each once.
    pub fn objects_of(&self, s: SubjectId) -> &[ObjectId]
        requires { s < self.now.subjects }
        ensures list { result.now ≡ objects_of self.now.triples s }
        ensures each { (o : ℕ) → list_any (λ a. o == a) result.now ≡ is_held self.now.triples s o }
    {
        self.index.objects_of(s)
    }

    /// The subjects that access an object, in whatever mode: ascending, each once.
    pub fn subjects_of(&self, o: ObjectId) -> &[SubjectId]
        requires { o < self.now.columns }
        ensures list { result.now ≡ subjects_of self.now.triples o }
        ensures each { (s : ℕ) → list_any (λ a. s == a) result.now ≡ is_held self.now.triples s o }
    {
        self.index.subjects_of(o)
    }

    /// Adds a triple, and returns whether it is new.
    ///
    /// # Errors
    /// `AllocError` where the allocation fails. Then nothing has changed.
    pub fn insert(&mut self, s: SubjectId, o: ObjectId, x: Mode) -> Result<bool, AllocError>
        requires subject { s < self.old.subjects }
        requires object { o < self.old.columns }
        ensures new { IfOk result (λ new. new ≡ not (set.contains self.old.triples (s, o, x))) }
        ensures ok { OnOk result (self.new ≡ record self.old { triples = set.insert self.old.triples (s, o, x) }) }
        ensures err { OnErr result (self.new ≡ self.old) }
    {
        if self.contains(s, o, x) {
            return Ok(false);
        }
        list_pair(&self.matrix, &mut self.index, s, o)?;
        self.matrix.give(s, o, x);
        Ok(true)
    }

    /// Removes a triple, and returns whether it was there.
    pub fn remove(&mut self, s: SubjectId, o: ObjectId, x: Mode) -> bool
        requires subject { s < self.old.subjects }
        requires object { o < self.old.columns }
        ensures there { result ≡ set.contains self.old.triples (s, o, x) }
        ensures removed { self.new ≡ record self.old { triples = set.remove self.old.triples (s, o, x) } }
    {
        if !self.contains(s, o, x) {
            return false;
        }
        self.matrix.rescind(s, o, x);
        unlist_pair(&self.matrix, &mut self.index, s, o);
        true
    }

    /// Removes the triples of objects whose numbers follow one another.
    fn drop_run(&mut self, run: &[ObjectId])
        requires some { 0 < length run.now }
        requires run { (k : ℕ) → k < length run.now → slice_index run.now k ≡ slice_index run.now 0 + k }
        requires known { slice_index run.now 0 + length run.now ≤ self.old.columns }
        ensures { self.new ≡ record self.old { triples = without_objects self.old.triples run.now } }
    {
        let first = run[0].number();
        let last = run[run.len() - 1].number();
        self.index.unlink_run(first, last + 1);
        self.matrix.clear_objects(run);
    }

    /// Removes the triples of an object.
    pub fn drop_object(&mut self, o: ObjectId)
        requires { o < self.old.columns }
        ensures { self.new ≡ record self.old { triples = without_object self.old.triples o } }
    {
        self.drop_run(&[o]);
    }

    /// Removes the triples of the first objects of a group, and returns how many these are. An object without a column
    /// has none.
    fn drop_head(&mut self, group: &[ObjectId]) -> usize
        requires { 0 < length group.now }
        ensures least { 1 ≤ result }
        ensures most { result ≤ length group.now }
        ensures removed { self.new
            ≡ record self.old { triples = without_objects self.old.triples (take result group.now) } }
    {
        let columns = self.columns();
        if columns <= group[0].number() {
            return 1;
        }
        let len = run_len(group, columns);
        self.drop_run(&group[..len]);
        len
    }

    /// Removes the triples of the objects of a group. It touches only the lists of those who access them; where numbers
    /// of the group follow one another, each of these lists once.
    pub fn drop_objects(&mut self, group: &[ObjectId])
        ensures { self.new ≡ record self.old { triples = without_objects self.old.triples group.now } }
    {
        let mut at = 0;
        while at < group.len() {
            at += self.drop_head(&group[at..]);
        }
    }
}

impl<A: Allocator + Clone> AccessSet<A> {
    /// A set with rows for 1 to `MAX_SUBJECTS` subjects, no column and no triple.
    ///
    /// # Errors
    /// `AllocError` where an allocation fails.
    pub fn new(alloc: A, subjects: u16) -> Result<AccessSet<A>, AllocError>
        requires least { 1 ≤ subjects }
        requires most { subjects ≤ MAX_SUBJECTS }
        ensures { IfOk result (λ b. b ≡ empty_table subjects) }
    {
        let matrix = Matrix::new(alloc.clone()?, subjects);
        Ok(AccessSet {
            matrix,
            index: Index::new(alloc, subjects)?,
        })
    }

    /// A copy: the same rows, columns and triples.
    ///
    /// # Errors
    /// `AllocError` where the allocation fails.
    pub fn duplicate(&self, alloc: A) -> Result<AccessSet<A>, AllocError>
        ensures { IfOk result (λ b. b ≡ self.now) }
    {
        let matrix = self.matrix.duplicate(alloc.clone()?)?;
        Ok(AccessSet {
            matrix,
            index: self.index.duplicate(alloc)?,
        })
    }
}
