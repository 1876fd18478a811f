//! The first state of some subjects and the root, and copies of states.
ghost use Rattle.std.specs.Prelude.{◌≡◌, ◌≤◌, IfOk, length, [], ◌∷◌};
ghost use Rattle.std.specs.FinMap as map;
ghost use Rattle.std.specs.FinSet as set;
ghost use Rattle.mls_tables.specs.declared.limits.TheConstants.{MAX_SUBJECTS};
ghost use Rattle.mls_state.specs.First.{first_state};

use crate::state::State;
use crate::subject::{ObjectLabels, Subject};
use mls_labels::Bounds;
use mls_tables::{AccessSet, Matrix};
use mls_tree::{Profile, Tree};
use std::alloc::{AllocError, Allocator};

/// What is known of some subjects and the labels of some objects, copied.
fn copy_rows<A: Allocator + Clone>(
    alloc: &A,
    subjects: &[Subject],
    objects: &[ObjectLabels],
) -> Result<(Vec<Subject, A>, Vec<ObjectLabels, A>), AllocError>
    ensures subjects { IfOk result (λ rows. rows.0.items ≡ subjects.now) }
    ensures objects { IfOk result (λ rows. rows.1.items ≡ objects.now) }
{
    let known = Vec::from_slice(alloc.clone()?, subjects)?;
    Ok((known, Vec::from_slice(alloc.clone()?, objects)?))
}

/// Both tables, copied.
fn copy_tables<A: Allocator + Clone>(
    alloc: &A,
    matrix: &Matrix<A>,
    accesses: &AccessSet<A>,
) -> Result<(Matrix<A>, AccessSet<A>), AllocError>
    ensures matrix { IfOk result (λ tables. tables.0 ≡ matrix.now) }
    ensures accesses { IfOk result (λ tables. tables.1 ≡ accesses.now) }
{
    let permitted = matrix.duplicate(alloc.clone()?)?;
    Ok((permitted, accesses.duplicate(alloc.clone()?)?))
}

/// A tree, copied.
fn copy_tree<A: Allocator + Clone>(alloc: &A, tree: &Tree<A>) -> Result<Tree<A>, AllocError>
    ensures { IfOk result (λ copy. copy ≡ tree.now) }
{
    tree.duplicate(alloc.clone()?)
}

/// Both tables of so many subjects and the root, empty.
fn first_tables<A: Allocator + Clone>(
    alloc: &A,
    count: u16,
) -> Result<(Matrix<A>, AccessSet<A>), AllocError>
    requires some { 1 ≤ count }
    requires few { count ≤ MAX_SUBJECTS }
    ensures matrix { IfOk result (λ tables. tables.0 ≡ record { subjects = count; columns = 1; triples = set.empty }) }
    ensures accesses { IfOk result
        (λ tables. tables.1 ≡ record { subjects = count; columns = 1; triples = set.empty }) }
{
    let mut matrix = Matrix::new(alloc.clone()?, count);
    matrix.add_object()?;
    let mut accesses = AccessSet::new(alloc.clone()?, count)?;
    accesses.add_object()?;
    Ok((matrix, accesses))
}

/// The tree of the root alone.
fn first_tree<A: Allocator + Clone>(alloc: &A, profile: Profile) -> Result<Tree<A>, AllocError>
    ensures { IfOk result (λ t. t ≡ record { profile = profile; parent = map.empty; next = 1 }) }
{
    Tree::new(alloc.clone()?, profile)
}

/// What is known of some subjects, copied, and the labels of the root alone.
fn first_rows<A: Allocator + Clone>(
    alloc: &A,
    subjects: &[Subject],
    root: ObjectLabels,
) -> Result<(Vec<Subject, A>, Vec<ObjectLabels, A>), AllocError>
    ensures subjects { IfOk result (λ rows. rows.0.items ≡ subjects.now) }
    ensures objects { IfOk result (λ rows. rows.1.items ≡ root ∷ []) }
{
    copy_rows(alloc, subjects, &[root])
}

impl<A: Allocator + Clone> State<A> {
    /// A state of these subjects and the root, in which nothing is permitted and nothing accessed: the subjects have
    /// their places as numbers, from 0. It doesn't ask whether the labels are within the bounds. The profile says
    /// whether object numbers are used again.
    ///
    /// # Errors
    /// `AllocError` where an allocation failed.
    pub fn first(
        alloc: A,
        subjects: &[Subject],
        root: ObjectLabels,
        security: Bounds,
        integrity: Bounds,
        profile: Profile,
    ) -> Result<State<A>, AllocError>
        requires some { 1 ≤ length subjects.now }
        requires few { length subjects.now ≤ MAX_SUBJECTS }
        ensures { IfOk result (λ v. v ≡ first_state subjects.now root security integrity profile) }
    {
        let tree = first_tree(&alloc, profile)?;
        let rows = first_rows(&alloc, subjects, root)?;
        let tables = first_tables(&alloc, subjects.len() as u16)?;
        let group = Vec::new(alloc);
        Ok(State {
            subjects: rows.0,
            objects: rows.1,
            tree,
            matrix: tables.0,
            accesses: tables.1,
            group,
            security,
            integrity,
        })
    }

    /// A copy of the state, which takes no room to spare.
    ///
    /// # Errors
    /// `AllocError` where an allocation failed.
    pub fn duplicate(&self, alloc: A) -> Result<State<A>, AllocError>
        ensures { IfOk result (λ v. v ≡ self.now) }
    {
        let tree = copy_tree(&alloc, &self.tree)?;
        let rows = copy_rows(&alloc, &self.subjects, &self.objects)?;
        let tables = copy_tables(&alloc, &self.matrix, &self.accesses)?;
        Ok(State {
            subjects: rows.0,
            objects: rows.1,
            tree,
            matrix: tables.0,
            accesses: tables.1,
            group: Vec::new(alloc),
            security: self.security,
            integrity: self.integrity,
        })
    }
}
