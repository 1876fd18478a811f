//! Whether the current accesses of a start are secure, by its rows.
ghost use Rattle.std.specs.Prelude.{◌≡◌};
ghost use Rattle.std.specs.List.Sorted.{IsStrictlySortedBy};
ghost use Rattle.mls_tables.specs.Triples.{triple_cmp};
ghost use Rattle.mls_start.specs.RowAccesses.{labels_permit, rows_permit, all_permitted};
ghost use Rattle.mls_start.specs.Rows.{all_labels};

use crate::object_row::ObjectRow;
use crate::start_builder::cells::has_triple;
use crate::start_builder::faults::labels_at;
use mls_state::{ObjectLabels, Subject, integrity_between, simple_between, star_between};
use mls_tables::{Mode, ObjectId, SubjectId};

/// Whether a subject may access an object of these labels by simple security, star and integrity.
fn do_labels_permit(subject: &Subject, object: &ObjectLabels, x: Mode) -> bool
    ensures { result ≡ labels_permit subject.now object.now x }
{
    simple_between(&subject.maximum, &object.security, x)
        && (subject.trusted || star_between(&subject.current, &object.security, x))
        && integrity_between(&subject.integrity, &object.integrity, x)
}

/// Whether the labels of a triple's subject and object permit it, and both are there.
fn do_rows_permit(
    subjects: &[Subject],
    root: &ObjectLabels,
    objects: &[ObjectRow],
    triple: &(SubjectId, ObjectId, Mode),
) -> bool
    ensures { result ≡ rows_permit subjects.now (all_labels root.now objects.now) triple.now }
{
    let Some(subject) = subjects.get(triple.0.number() as usize) else {
        return false;
    };
    match labels_at(*root, objects, triple.1) {
        Some(object) => do_labels_permit(subject, &object, triple.2),
        None => false,
    }
}

/// Whether each access is among the cells, which ascend, and its labels permit it.
pub(crate) fn are_secure(
    subjects: &[Subject],
    root: &ObjectLabels,
    objects: &[ObjectRow],
    cells: &[(SubjectId, ObjectId, Mode)],
    accesses: &[(SubjectId, ObjectId, Mode)],
) -> bool
    requires { IsStrictlySortedBy triple_cmp cells.now }
    ensures { result ≡ all_permitted cells.now subjects.now (all_labels root.now objects.now) accesses.now }
{
    for access in accesses {
        if !has_triple(cells, access) {
            return false;
        }
        if !do_rows_permit(subjects, root, objects, access) {
            return false;
        }
    }
    true
}
