//! The security labels of a state, each once.
ghost use Rattle.std.specs.Prelude.{◌≡◌, ◌++◌, [], IfOk, OnOk};
ghost use Rattle.std.specs.List.{fold, list_any};
ghost use Rattle.mls_labels.specs.Same.{same_label};
ghost use Rattle.mls_review.specs.Distinct.{with_one, labels_of_subject, labels_of_object, subject_labels};
ghost use Rattle.mls_review.specs.Distinct.{object_labels, distinct};

use mls_labels::SecLabel;
use mls_state::State;
use mls_tables::{MAX_OBJECTS, MAX_SUBJECTS, ObjectId, SubjectId};
use std::alloc::{AllocError, Allocator, Global};

/// Whether two labels are equal.
pub(crate) fn is_same(m: &SecLabel, l: &SecLabel) -> bool
    ensures { result ≡ same_label m.now l.now }
{
    *m == *l
}

/// Whether a label is one of these.
fn is_there(labels: &[SecLabel], l: &SecLabel) -> bool
    ensures { result ≡ list_any (λ m. same_label m l.now) labels.now }
{
    for m in labels {
        if is_same(m, l) {
            return true;
        }
    }
    false
}

/// Adds a label where it isn't there yet.
fn add(labels: &mut Vec<SecLabel>, l: SecLabel) -> Result<(), AllocError>
    ensures { OnOk result (labels.new.items ≡ with_one labels.old.items l) }
{
    if !is_there(labels, &l) {
        labels.push(l)?;
    }
    Ok(())
}

/// Adds the labels of a subject that aren't there yet.
fn add_subject<A: Allocator>(
    labels: &mut Vec<SecLabel>,
    state: &State<A>,
    s: SubjectId,
) -> Result<(), AllocError>
    ensures { OnOk result (labels.new.items ≡ fold with_one labels.old.items (labels_of_subject state.now s)) }
{
    state.agrees();
    if state.is_subject(s) {
        add(labels, state.maximum(s))?;
        add(labels, state.current(s))?;
    }
    Ok(())
}

/// Adds the label of an object where it isn't there yet.
fn add_object<A: Allocator>(
    labels: &mut Vec<SecLabel>,
    state: &State<A>,
    o: ObjectId,
) -> Result<(), AllocError>
    ensures { OnOk result (labels.new.items ≡ fold with_one labels.old.items (labels_of_object state.now o)) }
{
    if state.is_active(o) {
        add(labels, state.object_label(o))?;
    }
    Ok(())
}

/// The labels of subjects, each once.
#[tactic(auto, using(crate::proofs::Lists::below_none))]
fn of_subjects<A: Allocator>(alloc: Global, state: &State<A>) -> Result<Vec<SecLabel>, AllocError>
    ensures { IfOk result (λ labels. labels.items ≡ fold with_one [] (subject_labels state.now)) }
{
    let mut labels = Vec::new(alloc);
    for n in 0..MAX_SUBJECTS {
        add_subject(&mut labels, state, SubjectId::new(n))?;
    }
    Ok(labels)
}

/// Adds the labels of objects that aren't there yet.
#[tactic(auto, using(crate::proofs::Lists::below_none))]
fn add_objects<A: Allocator>(labels: &mut Vec<SecLabel>, state: &State<A>) -> Result<(), AllocError>
    ensures { OnOk result (labels.new.items ≡ fold with_one labels.old.items (object_labels state.now)) }
{
    for n in 0..MAX_OBJECTS {
        add_object(labels, state, ObjectId::new(n))?;
    }
    Ok(())
}

/// Just the security labels that subjects have as maximum or current one and objects have, each once. Those of subjects
/// come first, by number, of each the maximum and then the current one, then those of objects, by number: a label
/// stands where it is met first.
///
/// # Errors
/// `AllocError` where an allocation failed.
pub fn distinct_labels<A: Allocator>(
    alloc: Global,
    state: &State<A>,
) -> Result<Vec<SecLabel>, AllocError>
    ensures { IfOk result (λ labels. labels.items ≡ distinct state.now) }
{
    let mut labels = of_subjects(alloc, state)?;
    add_objects(&mut labels, state)?;
    Ok(labels)
}
