//! The state of the rows of a start.
ghost use Rattle.std.specs.Prelude.{◌≡◌, ℕ, nat_lt, ◌≤◌, ◌+◌, IsTrue, None, IfOk, OnOk, All, length};
ghost use Rattle.mls_tables.specs.declared.limits.TheConstants.{MAX_SUBJECTS, MAX_OBJECTS};
ghost use Rattle.mls_state.specs.State.{is_active};
ghost use Rattle.mls_state.specs.First.{first_state};
ghost use Rattle.mls_state.specs.Properties.{is_known};
ghost use Rattle.mls_start.specs.Growing.{with_rows, with_cells_and_accesses};
ghost use Rattle.mls_start.specs.Rows.{opening, object_count};
ghost use Rattle.mls_start.specs.StartFaults.{parents_before, start_fault};

use crate::object_row::ObjectRow;
use crate::start_builder::StartBuilder;
use mls_labels::Bounds;
use mls_state::State;
use mls_tables::{Mode, ObjectId, SubjectId};
use mls_tree::Profile;
use std::alloc::{AllocError, Allocator};

/// Adds some objects, each below one that is there when its turn comes.
#[tactic(auto, using(crate::proofs::Opening::rows_left, crate::proofs::Opening::parents_left))]
fn add_objects<A: Allocator>(state: &mut State<A>, objects: &[ObjectRow]) -> Result<(), AllocError>
    requires room { state.old.next + length objects.now ≤ MAX_OBJECTS }
    requires active { (o : ℕ) → is_active state.old o ≡ nat_lt o state.old.next }
    requires parents { IsTrue (parents_before state.old.next objects.now) }
    ensures { OnOk result (state.new ≡ with_rows state.old objects.now) }
{
    for object in objects {
        let labels = &object.labels;
        state.add_object(object.parent, &labels.security, &labels.integrity)?;
    }
    Ok(())
}

/// Puts some triples into the matrix and some into the current accesses.
fn put_triples<A: Allocator>(
    state: &mut State<A>,
    cells: &[(SubjectId, ObjectId, Mode)],
    accesses: &[(SubjectId, ObjectId, Mode)],
) -> Result<(), AllocError>
    requires cells { All (λ t. IsTrue (is_known state.old t)) cells.now }
    requires accesses { All (λ t. IsTrue (is_known state.old t)) accesses.now }
    ensures { OnOk result (state.new ≡ with_cells_and_accesses state.old cells.now accesses.now) }
{
    state.give_all(cells);
    state.access_all(accesses)?;
    Ok(())
}

impl<A: Allocator> StartBuilder<A> {
    /// How many subjects there are, where these aren't too many.
    pub(crate) fn subject_count(&self) -> u16
        requires { length self.now.subjects ≤ MAX_SUBJECTS }
        ensures { result ≡ length self.now.subjects }
    {
        self.subjects.len() as u16
    }

    /// How many objects there are, with the root, where these aren't too many.
    pub(crate) fn object_count(&self) -> u16
        requires { object_count self.now ≤ MAX_OBJECTS }
        ensures { result ≡ object_count self.now }
    {
        self.objects.len() as u16 + 1
    }

    /// Whether object numbers are used again.
    pub(crate) fn profile(&self) -> Profile
        ensures { result ≡ self.now.profile }
    {
        self.profile
    }

    /// The bounds of the security labels.
    pub(crate) fn security(&self) -> Bounds
        ensures { result ≡ self.now.security }
    {
        self.security
    }

    /// The bounds of the integrity labels.
    pub(crate) fn integrity(&self) -> Bounds
        ensures { result ≡ self.now.integrity }
    {
        self.integrity
    }

    /// Adds the objects of the rows, with which nothing is wrong, to their first state, and puts in their triples.
    fn fill(&self, state: &mut State<A>) -> Result<(), AllocError>
        requires faultless { start_fault self.now ≡ None }
        requires first { state.old
            ≡ first_state self.now.subjects self.now.root self.now.security self.now.integrity self.now.profile }
        ensures { OnOk result (state.new ≡ opening self.now) }
    {
        add_objects(state, &self.objects)?;
        put_triples(state, &self.cells, &self.accesses)?;
        Ok(())
    }
}

impl<A: Allocator + Clone> StartBuilder<A> {
    /// The state of the rows, with which nothing is wrong.
    pub(crate) fn opening(&self, alloc: A) -> Result<State<A>, AllocError>
        requires { start_fault self.now ≡ None }
        ensures { IfOk result (λ state. state ≡ opening self.now) }
    {
        let mut state = State::first(
            alloc,
            &self.subjects,
            self.root,
            self.security,
            self.integrity,
            self.profile,
        )?;
        self.fill(&mut state)?;
        Ok(state)
    }
}
