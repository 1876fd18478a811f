//! Objects and cells that join a state.
ghost use Rattle.std.specs.Prelude.{◌≡◌, ◌<◌, ◌≤◌, ◌+◌, IsTrue, OnOk, OnErr, All};
ghost use Rattle.std.specs.FinSet as set;
ghost use Rattle.mls_tables.specs.declared.limits.TheConstants.{MAX_OBJECTS};
ghost use Rattle.mls_state.specs.State.{is_subject, is_active};
ghost use Rattle.mls_state.specs.Properties.{is_known};
ghost use Rattle.mls_state.specs.Changes.{with_object};
ghost use Rattle.mls_state.specs.First.{with_triples, SameCells};

use crate::state::State;
use crate::subject::ObjectLabels;
use mls_labels::{IntLabel, SecLabel};
use mls_tables::{AccessSet, Matrix, Mode, ObjectId, SubjectId, put_at};
use std::alloc::{AllocError, Allocator};

/// Sees that the matrix has a column for the next object.
pub(crate) fn widen_matrix<A: Allocator>(
    matrix: &mut Matrix<A>,
    next: u16,
) -> Result<(), AllocError>
    requires room { next < MAX_OBJECTS }
    requires near { next ≤ matrix.old.columns }
    ensures ok { OnOk result (next < matrix.new.columns) }
    ensures kept { SameCells matrix.old matrix.new }
{
    if matrix.columns() <= next {
        matrix.add_object()?;
    }
    Ok(())
}

/// Sees that the current accesses have a column for the next object.
pub(crate) fn widen_accesses<A: Allocator>(
    accesses: &mut AccessSet<A>,
    next: u16,
) -> Result<(), AllocError>
    requires room { next < MAX_OBJECTS }
    requires near { next ≤ accesses.old.columns }
    ensures ok { OnOk result (next < accesses.new.columns) }
    ensures kept { SameCells accesses.old accesses.new }
{
    if accesses.columns() <= next {
        accesses.add_object()?;
    }
    Ok(())
}

impl<A: Allocator> State<A> {
    /// Adds an object with the next number below an active parent: what a creation changes. Where the number was used
    /// before, nothing of the old object is left. It doesn't ask whether the
    /// labels fit, nor whether they are within the bounds.
    ///
    /// # Errors
    /// `AllocError` where an allocation failed; no read then tells the state from what it was.
    #[tactic(auto, using(crate::proofs::Tables::in_the_tree))]
    pub fn add_object(
        &mut self,
        parent: ObjectId,
        security: &SecLabel,
        integrity: &IntLabel,
    ) -> Result<(), AllocError>
        requires room { self.old.next < MAX_OBJECTS }
        requires parent { IsTrue (is_active self.old parent) }
        ensures ok { OnOk result (self.new ≡ with_object self.old parent security.now integrity.now) }
        ensures err { OnErr result (self.new ≡ self.old) }
    {
        let next = self.next();
        widen_matrix(&mut self.matrix, next)?;
        widen_accesses(&mut self.accesses, next)?;
        self.objects.reserve(1)?;
        let Ok(_) = self.tree.add(parent) else {
            return Err(AllocError);
        };
        let labels = ObjectLabels {
            security: *security,
            integrity: *integrity,
        };
        put_at(&mut self.objects, next as usize, labels);
        self.tree.agrees();
        Ok(())
    }

    /// Puts a triple into the matrix: what a give changes. It doesn't ask who controls the object.
    #[tactic(auto, using(crate::proofs::Tables::matrix_place, crate::proofs::Changes::agrees_given))]
    pub fn give(&mut self, s: SubjectId, o: ObjectId, x: Mode)
        requires subject { IsTrue (is_subject self.old s) }
        requires object { IsTrue (is_active self.old o) }
        ensures { self.new ≡ record self.old { matrix = set.insert self.old.matrix (s, o, x) } }
    {
        self.matrix.give(s, o, x);
    }

    /// Puts some triples into the matrix. It doesn't ask who controls their objects.
    pub fn give_all(&mut self, cells: &[(SubjectId, ObjectId, Mode)])
        requires { All (λ t. IsTrue (is_known self.old t)) cells.now }
        ensures { self.new ≡ record self.old { matrix = with_triples self.old.matrix cells.now } }
    {
        for cell in cells {
            self.give(cell.0, cell.1, cell.2);
        }
    }

    /// Adds some current accesses. It doesn't ask whether they may be had.
    ///
    /// # Errors
    /// `AllocError` where an allocation failed; some of the accesses may then be there, and all else is as before.
    pub fn access_all(&mut self, triples: &[(SubjectId, ObjectId, Mode)]) -> Result<(), AllocError>
        requires { All (λ t. IsTrue (is_known self.old t)) triples.now }
        ensures ok { OnOk result (self.new.accesses ≡ with_triples self.old.accesses triples.now) }
        ensures rest { self.new ≡ record self.old { accesses = self.new.accesses } }
    {
        for triple in triples {
            self.put_access(triple.0, triple.1, triple.2)?;
        }
        Ok(())
    }
}
