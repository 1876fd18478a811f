//! What is looked at of the rows of a start to tell what is wrong with them.
ghost use Rattle.std.specs.Prelude.{◌≡◌, IsTrue, IfSome, IfNone, Some, length, slice_get};
ghost use Rattle.std.specs.FinSet as set;
ghost use Rattle.std.specs.List.{list_all};
ghost use Rattle.mls_facts.specs.Each.{each};
ghost use Rattle.mls_tables.specs.Triples.{triple_cmp};
ghost use Rattle.mls_start.specs.Rows.{all_labels};
ghost use Rattle.mls_start.specs.StartFaults.{start_fault, subject_within, labels_within, labels_fit, parents_before};
ghost use Rattle.mls_start.specs.StartFaults.{current_fits, security_fits, integrity_fits, is_cell};
ghost use Rattle.mls_start.specs.StartFaults.{access_fault, has_known_accesses};

use crate::object_row::ObjectRow;
use crate::start_builder::StartBuilder;
use mls_labels::Bounds;
use mls_state::{ObjectLabels, StartFault, Subject};
use mls_tables::{MAX_OBJECTS, MAX_SUBJECTS, Mode, ObjectId, SubjectId};
use std::alloc::Allocator;

/// Whether a subject's labels are within the bounds.
fn is_subject_within(security: Bounds, integrity: Bounds, s: &Subject) -> bool
    ensures { result ≡ subject_within security integrity s.now }
{
    security.has(s.maximum.label())
        && security.has(s.current.label())
        && integrity.has(s.integrity.label())
}

/// Whether an object's labels are within the bounds.
fn are_labels_within(security: Bounds, integrity: Bounds, o: &ObjectLabels) -> bool
    ensures { result ≡ labels_within security integrity o.now }
{
    security.has(o.security.label()) && integrity.has(o.integrity.label())
}

/// Whether the labels of all subjects are within the bounds.
fn are_subjects_within(security: Bounds, integrity: Bounds, subjects: &[Subject]) -> bool
    ensures { result ≡ list_all (subject_within security integrity) subjects.now }
{
    subjects
        .iter()
        .all(|s| is_subject_within(security, integrity, s))
}

/// Whether the labels of all objects below the root are within the bounds.
fn are_objects_within(security: Bounds, integrity: Bounds, objects: &[ObjectRow]) -> bool
    ensures { result ≡ list_all (λ o. labels_within security integrity o.labels) objects.now }
{
    objects
        .iter()
        .all(|o| are_labels_within(security, integrity, &o.labels))
}

/// Whether the parent of each object is a smaller number than its own.
fn are_parents_before(objects: &[ObjectRow]) -> bool
    ensures { result ≡ parents_before 1 objects.now }
{
    let mut number = 1;
    for o in objects {
        if o.parent.number() as usize >= number {
            return false;
        }
        number += 1;
    }
    true
}

/// Whether a subject's maximum label dominates its current label.
fn is_current_below(s: &Subject) -> bool
    ensures { result ≡ current_fits s.now }
{
    s.maximum.dominates(&s.current)
}

/// Whether each subject's maximum label dominates its current label.
fn are_currents_below(subjects: &[Subject]) -> bool
    ensures { result ≡ list_all current_fits subjects.now }
{
    subjects.iter().all(|s| is_current_below(s))
}

/// The labels of an object, where it is the root or one of those below it.
pub(crate) fn labels_at(
    root: ObjectLabels,
    objects: &[ObjectRow],
    o: ObjectId,
) -> Option<ObjectLabels>
    ensures { result ≡ slice_get (all_labels root objects.now) o }
{
    match o.number().checked_sub(1) {
        None => Some(root),
        Some(at) => match objects.get(at as usize) {
            Some(row) => Some(row.labels),
            None => None,
        },
    }
}

/// Whether an object's security label dominates its parent's.
fn is_compatible(root: ObjectLabels, objects: &[ObjectRow], o: &ObjectRow) -> bool
    ensures { result ≡ security_fits (all_labels root objects.now) o.now }
{
    match labels_at(root, objects, o.parent) {
        Some(parent) => o.labels.security.dominates(&parent.security),
        None => false,
    }
}

/// Whether the integrity label of an object's parent dominates the object's.
fn is_integrity_below(root: ObjectLabels, objects: &[ObjectRow], o: &ObjectRow) -> bool
    ensures { result ≡ integrity_fits (all_labels root objects.now) o.now }
{
    match labels_at(root, objects, o.parent) {
        Some(parent) => parent.integrity.dominates(&o.labels.integrity),
        None => false,
    }
}

/// Whether each object's security label dominates its parent's.
fn are_compatible(root: ObjectLabels, objects: &[ObjectRow]) -> bool
    ensures { result ≡ list_all (security_fits (all_labels root objects.now)) objects.now }
{
    objects.iter().all(|o| is_compatible(root, objects, o))
}

/// Whether the integrity label of each object's parent dominates the object's.
fn are_integrities_below(root: ObjectLabels, objects: &[ObjectRow]) -> bool
    ensures { result ≡ list_all (integrity_fits (all_labels root objects.now)) objects.now }
{
    objects.iter().all(|o| is_integrity_below(root, objects, o))
}

/// Whether a triple names one of so many subjects and one of so many objects.
fn names_both(subjects: usize, objects: usize, cell: &(SubjectId, ObjectId, Mode)) -> bool
    ensures { result ≡ is_cell subjects objects cell.now }
{
    (cell.0.number() as usize) < subjects && (cell.1.number() as usize) < objects
}

/// Whether each triple of a list names one of so many subjects and one of so many objects.
fn are_all_cells(subjects: usize, objects: usize, cells: &[(SubjectId, ObjectId, Mode)]) -> bool
    ensures { result ≡ list_all (is_cell subjects objects) cells.now }
{
    cells.iter().all(|cell| names_both(subjects, objects, cell))
}

/// Whether each triple of the list's set does.
#[tactic(auto, using(crate::proofs::Cells::each_listed))]
fn are_cells(subjects: usize, objects: usize, cells: &[(SubjectId, ObjectId, Mode)]) -> bool
    ensures { result ≡ each (set.from_list {R = triple_cmp} cells.now) (is_cell subjects objects) }
{
    are_all_cells(subjects, objects, cells)
}

impl<A: Allocator> StartBuilder<A> {
    /// Whether each label is within its bounds.
    fn has_good_labels(&self) -> bool
        ensures { result ≡ labels_fit self.now }
    {
        let (security, integrity) = (self.security, self.integrity);
        are_subjects_within(security, integrity, &self.subjects)
            && are_labels_within(security, integrity, &self.root)
            && are_objects_within(security, integrity, &self.objects)
    }

    /// The first fault that applies to what was given, except that accesses aren't secure.
    pub(crate) fn fault(&self) -> Option<StartFault>
        ensures fault { IfSome result (λ fault. start_fault self.now ≡ Some fault) }
        ensures cells { IfNone result (IsTrue (has_known_accesses self.now)) }
        ensures none { IfNone result (start_fault self.now ≡ access_fault self.now) }
    {
        let (subjects, objects) = (self.subjects.len(), self.objects.len());
        if subjects == 0 {
            Some(StartFault::NoSubjects)
        } else if subjects > MAX_SUBJECTS as usize {
            Some(StartFault::TooManySubjects)
        } else if objects >= MAX_OBJECTS as usize {
            Some(StartFault::TooManyObjects)
        } else if !self.has_good_labels() {
            Some(StartFault::BadLabel)
        } else if !are_parents_before(&self.objects) {
            Some(StartFault::BadParent)
        } else if !are_currents_below(&self.subjects) {
            Some(StartFault::CurrentAboveMaximum)
        } else if !are_compatible(self.root, &self.objects) {
            Some(StartFault::NotCompatible)
        } else if !are_integrities_below(self.root, &self.objects) {
            Some(StartFault::IntegrityAboveParent)
        } else if !are_cells(subjects, objects + 1, &self.cells) {
            Some(StartFault::NoSuchCell)
        } else if !are_cells(subjects, objects + 1, &self.accesses) {
            Some(StartFault::NoSuchCell)
        } else {
            None
        }
    }
}
