//! The rows of a state's subjects and objects.
ghost use Rattle.std.specs.Prelude.{◌≡◌, ◌++◌, IfOk};
ghost use Rattle.mls_rows.specs.Rows.{bytes_of, form_of};
ghost use Rattle.mls_shared_rows.specs.StateRows.{object_bytes, objects_bytes, subject_bytes, subjects_bytes};
ghost use Rattle.mls_tables.specs.declared.limits.TheConstants.{MAX_SUBJECTS, MAX_OBJECTS};

use crate::kinds::with_kind;
use crate::object_row::ObjectRow;
use crate::subject_row::SubjectRow;
use mls_lines::Names;
use mls_rows::Output;
use mls_state::State;
use mls_tables::{MAX_OBJECTS, MAX_SUBJECTS, ObjectId, SubjectId};
use std::alloc::{AllocError, Global};

/// Adds the row of a subject, where it is known.
///
/// # Errors
/// `AllocError` where an allocation failed.
#[tactic(auto, using(crate::proofs::States::subject_is, crate::proofs::States::no_subject))]
pub fn with_subject(
    alloc: Global,
    output: Output,
    names: &Names,
    state: &State,
    s: SubjectId,
) -> Result<Output, AllocError>
    ensures form { IfOk result (λ new. form_of new ≡ form_of output) }
    ensures bytes { IfOk result (λ new. bytes_of new
        ≡ bytes_of output ++ subject_bytes (form_of output) names.now state.now s) }
{
    if !state.is_subject(s) {
        return Ok(output);
    }
    let row = SubjectRow {
        alloc,
        subject: s,
        labels: *state.subject(s),
    };
    with_kind(output, names, None, "subject", &row)
}

/// Adds the row of an object, where it is active.
///
/// # Errors
/// `AllocError` where an allocation failed.
#[tactic(auto, using(crate::proofs::States::object_is, crate::proofs::States::no_object))]
pub fn with_object(
    alloc: Global,
    output: Output,
    names: &Names,
    state: &State,
    o: ObjectId,
) -> Result<Output, AllocError>
    ensures form { IfOk result (λ new. form_of new ≡ form_of output) }
    ensures bytes { IfOk result (λ new. bytes_of new
        ≡ bytes_of output ++ object_bytes (form_of output) names.now state.now o) }
{
    if !state.is_active(o) {
        return Ok(output);
    }
    let row = ObjectRow {
        alloc,
        object: o,
        labels: *state.labels(o),
        parent: state.parent(o),
    };
    with_kind(output, names, None, "object", &row)
}

/// Adds the rows of the subjects, by number.
pub(crate) fn with_subjects(
    alloc: Global,
    output: Output,
    names: &Names,
    state: &State,
) -> Result<Output, AllocError>
    ensures form { IfOk result (λ new. form_of new ≡ form_of output) }
    ensures bytes { IfOk result (λ new. bytes_of new
        ≡ bytes_of output ++ subjects_bytes (form_of output) names.now state.now MAX_SUBJECTS) }
{
    let mut written = output;
    for s in 0..MAX_SUBJECTS {
        written = with_subject(alloc, written, names, state, SubjectId(s))?;
    }
    Ok(written)
}

/// Adds the rows of the active objects, by number.
pub(crate) fn with_objects(
    alloc: Global,
    output: Output,
    names: &Names,
    state: &State,
) -> Result<Output, AllocError>
    ensures form { IfOk result (λ new. form_of new ≡ form_of output) }
    ensures bytes { IfOk result (λ new. bytes_of new
        ≡ bytes_of output ++ objects_bytes (form_of output) names.now state.now MAX_OBJECTS) }
{
    let mut written = output;
    for o in 0..MAX_OBJECTS {
        written = with_object(alloc, written, names, state, ObjectId(o))?;
    }
    Ok(written)
}
