//! The access matrix.
ghost use Rattle.std.specs.Prelude.{◌≡◌, ◌<◌, ◌≤◌, ◌+◌, ◌*◌, ◌/◌, ℕ, IfOk, OnOk, OnErr, All, length, replicate};
ghost use Rattle.std.specs.FinSet as set;
ghost use Rattle.mls_tables.specs.declared.limits.TheConstants.{MAX_SUBJECTS, MAX_OBJECTS};
ghost use Rattle.mls_tables.specs.declared.mode.Mode.{Mode as ModeName};
ghost use Rattle.mls_tables.specs.Table.{IsWithin, empty_table, without_object, without_objects};
ghost use Rattle.mls_tables.specs.Cells.{width, is_odd, no_pair};

use crate::ids::{ObjectId, SubjectId};
use crate::mode::Mode;
use crate::modes::Modes;
use crate::pair::Pair;
use std::alloc::{AllocError, Allocator, Global};
use std::marker::Model;

/// The access matrix: a set of triples of a subject, an object and a mode, with a row for each subject and a column for
/// each object number. There are 1 to `MAX_SUBJECTS` rows and up to `MAX_OBJECTS` columns.
#[derive(Drop)]
pub struct Matrix<A: Allocator = Global> {
    subjects: u16,
    columns: u16,
    /// Column by column; in each column a byte for each two subjects, and one for the last where their number is odd.
    cells: Vec<Pair, A>,
}

impl<A: Allocator> Model for Matrix<A> {
    ghost use Rattle.std.specs.Prelude.{◌≡◌, ◌≤◌, ◌*◌, length};
    ghost use Rattle.mls_tables.specs.declared.limits.TheConstants.{MAX_SUBJECTS, MAX_OBJECTS};
    ghost use Rattle.mls_tables.specs.Table.{Table, table_code};
    ghost use Rattle.mls_tables.specs.Cells.{width, triples_of};

    ghost Value = { Table };

    ghost coded = { table_code };

    ghost view = { λ m. record {
      subjects = m.subjects;
      columns = m.columns;
      triples = triples_of m.cells.items m.subjects m.columns;
    } };

    ghost invariant = { λ m. record {
      least : 1 ≤ m.subjects;
      most : m.subjects ≤ MAX_SUBJECTS;
      columns : m.columns ≤ MAX_OBJECTS;
      cells : length m.cells.items ≡ m.columns * width m.subjects;
    } };
}

/// How many bytes a column has.
fn width(subjects: u16) -> usize
    ensures { result ≡ width subjects }
{
    (usize::from(subjects) + 1) / 2
}

/// The index of the byte that the cell of a subject and an object is in.
fn place(subjects: u16, s: SubjectId, o: ObjectId) -> usize
    ensures { result ≡ o * width subjects + s / 2 }
{
    usize::from(o.0) * width(subjects) + usize::from(s.0) / 2
}

/// Whether the number of a subject is odd.
fn is_odd(s: SubjectId) -> bool
    ensures { result ≡ is_odd s }
{
    s.0 % 2 == 1
}

/// Empties each of the cells.
fn clear(cells: &mut [Pair])
    ensures { cells.new ≡ replicate (length cells.old) no_pair }
{
    cells.fill(Pair::empty());
}

impl<A: Allocator> Matrix<A> {
    /// A matrix with rows for 1 to `MAX_SUBJECTS` subjects, no column and no triple. It doesn't allocate.
    pub fn new(alloc: A, subjects: u16) -> Matrix<A>
        requires least { 1 ≤ subjects }
        requires most { subjects ≤ MAX_SUBJECTS }
        ensures { result ≡ empty_table subjects }
    {
        Matrix {
            subjects,
            columns: 0,
            cells: Vec::new(alloc),
        }
    }

    /// How many subjects there are rows for.
    pub fn subjects(&self) -> u16
        ensures reply { result ≡ self.now.subjects }
        ensures least { 1 ≤ result }
        ensures most { result ≤ MAX_SUBJECTS }
    {
        self.subjects
    }

    /// How many object numbers there are columns for. Each triple names a subject and an object within the two.
    pub fn columns(&self) -> u16
        ensures reply { result ≡ self.now.columns }
        ensures most { result ≤ MAX_OBJECTS }
        ensures within { IsWithin self.now.subjects self.now.columns self.now.triples }
    {
        self.columns
    }

    /// Adds an empty column for the next object number.
    ///
    /// # Errors
    /// `AllocError` where the allocation fails. Then nothing has changed.
    pub fn add_object(&mut self) -> Result<(), AllocError>
        requires { self.old.columns < MAX_OBJECTS }
        ensures ok { OnOk result (self.new ≡ record self.old { columns = self.old.columns + 1 }) }
        ensures err { OnErr result (self.new ≡ self.old) }
    {
        let size = self.cells.len() + width(self.subjects);
        self.cells.resize(size, Pair::empty())?;
        self.columns += 1;
        Ok(())
    }

    /// The modes in the cell of a subject and an object.
    pub fn modes(&self, s: SubjectId, o: ObjectId) -> Modes
        requires subject { s < self.now.subjects }
        requires object { o < self.now.columns }
        ensures cell { (x : ModeName) → set.contains result x ≡ set.contains self.now.triples (s, o, x) }
    {
        self.cells[place(self.subjects, s, o)].half(is_odd(s))
    }

    /// Adds a mode to the cell of a subject and an object.
    pub fn give(&mut self, s: SubjectId, o: ObjectId, x: Mode)
        requires subject { s < self.old.subjects }
        requires object { o < self.old.columns }
        ensures { self.new ≡ record self.old { triples = set.insert self.old.triples (s, o, x) } }
    {
        let at = place(self.subjects, s, o);
        self.cells[at] = self.cells[at].with(is_odd(s), x);
    }

    /// Removes a mode from the cell of a subject and an object.
    pub fn rescind(&mut self, s: SubjectId, o: ObjectId, x: Mode)
        requires subject { s < self.old.subjects }
        requires object { o < self.old.columns }
        ensures { self.new ≡ record self.old { triples = set.remove self.old.triples (s, o, x) } }
    {
        let at = place(self.subjects, s, o);
        self.cells[at] = self.cells[at].without(is_odd(s), x);
    }

    /// Empties the column of an object.
    pub fn clear_object(&mut self, o: ObjectId)
        requires { o < self.old.columns }
        ensures { self.new ≡ record self.old { triples = without_object self.old.triples o } }
    {
        let from = place(self.subjects, SubjectId(0), o);
        let to = from + width(self.subjects);
        clear(&mut self.cells[from..to]);
    }

    /// Empties the columns of the objects of a group.
    pub fn clear_objects(&mut self, group: &[ObjectId])
        requires { All (λ o. o < self.old.columns) group.now }
        ensures { self.new ≡ record self.old { triples = without_objects self.old.triples group.now } }
    {
        for o in group {
            self.clear_object(*o);
        }
    }

    /// A copy: the same rows, columns and triples.
    ///
    /// # Errors
    /// `AllocError` where the allocation fails.
    pub fn duplicate(&self, alloc: A) -> Result<Matrix<A>, AllocError>
        ensures { IfOk result (λ m. m ≡ self.now) }
    {
        Ok(Matrix {
            subjects: self.subjects,
            columns: self.columns,
            cells: Vec::from_slice(alloc, &self.cells)?,
        })
    }
}
