//! Objects that are added with numbers of the caller's choice: what makes a state of its rows.
ghost use Rattle.std.specs.Prelude.{◌≡◌, ◌<◌, ◌≤◌, ℕ, false, max, length, slice_index_or, slice_set, IsTrue, OnOk};
ghost use Rattle.std.specs.Prelude.{OnErr};
ghost use Rattle.mls_tables.specs.declared.limits.TheConstants.{MAX_OBJECTS};
ghost use Rattle.mls_state.specs.State.{is_active};
ghost use Rattle.mls_state.specs.Changes.{with_object_at, renumbered};
ghost use Rattle.mls_state.specs.First.{SameCells};
ghost use Rattle.mls_state.specs.declared.subject.ObjectLabels.{ObjectLabels as LabelsView};

use crate::state::State;
use crate::state::making::{widen_accesses, widen_matrix};
use crate::subject::ObjectLabels;
use mls_labels::{IntLabel, SecLabel};
use mls_tables::{AccessSet, Matrix, ObjectId};
use std::alloc::{AllocError, Allocator};

/// Sees that the matrix has a column for each number below one.
fn widen_matrix_to<A: Allocator>(matrix: &mut Matrix<A>, end: u16) -> Result<(), AllocError>
    requires { end ≤ MAX_OBJECTS }
    ensures ok { OnOk result (end ≤ matrix.new.columns) }
    ensures kept { SameCells matrix.old matrix.new }
{
    let begin = matrix.columns();
    for next in begin..end {
        widen_matrix(matrix, next)?;
    }
    Ok(())
}

/// Sees that the current accesses have a column for each number below one.
fn widen_accesses_to<A: Allocator>(accesses: &mut AccessSet<A>, end: u16) -> Result<(), AllocError>
    requires { end ≤ MAX_OBJECTS }
    ensures ok { OnOk result (end ≤ accesses.new.columns) }
    ensures kept { SameCells accesses.old accesses.new }
{
    let begin = accesses.columns();
    for next in begin..end {
        widen_accesses(accesses, next)?;
    }
    Ok(())
}

/// Sees that there are labels for each number below one. Those that are added are nobody's.
fn fill_labels<A: Allocator>(
    objects: &mut Vec<ObjectLabels, A>,
    end: u16,
    filler: &ObjectLabels,
) -> Result<(), AllocError>
    ensures many { OnOk result (length objects.new.items ≡ max (length objects.old.items) end) }
    ensures unchanged { OnErr result (objects.new.items ≡ objects.old.items) }
    ensures labels { (k : ℕ) (d : LabelsView) → k < length objects.old.items
        → slice_index_or objects.new.items k d ≡ slice_index_or objects.old.items k d }
{
    let wanted = end as usize;
    if wanted <= objects.len() {
        return Ok(());
    }
    objects.resize(wanted, *filler)?;
    Ok(())
}

/// Puts labels in place of those of a number.
fn replace<A: Allocator>(objects: &mut Vec<ObjectLabels, A>, at: usize, labels: ObjectLabels)
    requires { at < length objects.old.items }
    ensures { objects.new.items ≡ slice_set objects.old.items at labels }
{
    objects[at] = labels;
}

/// Sees that there are labels for each number below one, and columns for all labels. What is added is nobody's.
fn make_places<A: Allocator>(
    matrix: &mut Matrix<A>,
    accesses: &mut AccessSet<A>,
    objects: &mut Vec<ObjectLabels, A>,
    end: u16,
    filler: &ObjectLabels,
) -> Result<(), AllocError>
    requires room { end ≤ MAX_OBJECTS }
    requires matrix { length objects.old.items ≤ matrix.old.columns }
    requires accesses { length objects.old.items ≤ accesses.old.columns }
    ensures many { OnOk result (length objects.new.items ≡ max (length objects.old.items) end) }
    ensures unchanged { OnErr result (objects.new.items ≡ objects.old.items) }
    ensures labels { (k : ℕ) (d : LabelsView) → k < length objects.old.items
        → slice_index_or objects.new.items k d ≡ slice_index_or objects.old.items k d }
    ensures permitted { SameCells matrix.old matrix.new }
    ensures accessed { SameCells accesses.old accesses.new }
    ensures matrix_columns { length objects.new.items ≤ matrix.new.columns }
    ensures access_columns { length objects.new.items ≤ accesses.new.columns }
{
    widen_matrix_to(matrix, end)?;
    widen_accesses_to(accesses, end)?;
    fill_labels(objects, end, filler)?;
    Ok(())
}

impl<A: Allocator> State<A> {
    /// Takes the object numbers below one as used. In profile 1 none of them is given out any more; in profile 2
    /// nothing is seen of it.
    ///
    /// # Errors
    /// `AllocError` where an allocation failed; no read then tells the state from what it was.
    pub fn skip_to(&mut self, end: u16) -> Result<(), AllocError>
        requires { end ≤ MAX_OBJECTS }
        ensures ok { OnOk result (self.new ≡ renumbered self.old (max self.old.next end)) }
        ensures err { OnErr result (self.new ≡ self.old) }
    {
        self.agrees();
        let filler = *self.labels(ObjectId(0));
        make_places(
            &mut self.matrix,
            &mut self.accesses,
            &mut self.objects,
            end,
            &filler,
        )?;
        self.tree.skip_to(end)?;
        self.tree.agrees();
        Ok(())
    }

    /// Adds an object of a number that isn't active below an active parent. In profile 1 the next number is then above
    /// its own. It doesn't ask whether the labels fit, nor whether they are within the bounds.
    ///
    /// # Errors
    /// `AllocError` where an allocation failed; no read then tells the state from what it was.
    #[tactic(auto, using(crate::proofs::Tables::in_the_tree))]
    pub fn add_object_at(
        &mut self,
        o: ObjectId,
        parent: ObjectId,
        security: &SecLabel,
        integrity: &IntLabel,
    ) -> Result<(), AllocError>
        requires room { o < MAX_OBJECTS }
        requires free { is_active self.old o ≡ false }
        requires parent { IsTrue (is_active self.old parent) }
        ensures ok { OnOk result (self.new ≡ with_object_at self.old o parent security.now integrity.now) }
        ensures err { OnErr result (self.new ≡ self.old) }
    {
        let (security, integrity) = (*security, *integrity);
        let labels = ObjectLabels {
            security,
            integrity,
        };
        let number = o.number();
        let end = number + 1;
        make_places(
            &mut self.matrix,
            &mut self.accesses,
            &mut self.objects,
            end,
            &labels,
        )?;
        self.tree.add_at(o, parent)?;
        replace(&mut self.objects, number as usize, labels);
        self.tree.agrees();
        Ok(())
    }
}
