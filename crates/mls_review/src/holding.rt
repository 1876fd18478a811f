//! Who and what has a label.
ghost use Rattle.std.specs.Prelude.{◌≡◌, ◌++◌, IfOk, OnOk};
ghost use Rattle.std.specs.List.{flat_map};
ghost use Rattle.mls_tables.specs.declared.limits.TheConstants.{MAX_SUBJECTS, MAX_OBJECTS};
ghost use Rattle.mls_review.specs.Distinct.{below};
ghost use Rattle.mls_review.specs.Drawing.{holder_of, subject_holders, object_holders, holders};

use crate::distinct::is_same;
use crate::holder::Holder;
use mls_labels::SecLabel;
use mls_state::State;
use mls_tables::{MAX_OBJECTS, MAX_SUBJECTS, ObjectId, SubjectId};
use std::alloc::{AllocError, Global};

/// Adds what a subject has a label as.
fn push_holder(
    found: &mut Vec<Holder>,
    s: SubjectId,
    maximum: bool,
    current: bool,
) -> Result<(), AllocError>
    ensures { OnOk result (found.new.items ≡ found.old.items ++ holder_of s maximum current) }
{
    if maximum {
        if current {
            found.push(Holder::Both(s))?;
        } else {
            found.push(Holder::Maximum(s))?;
        }
    } else if current {
        found.push(Holder::Current(s))?;
    }
    Ok(())
}

/// Adds what a subject has the label as.
fn push_subject(
    found: &mut Vec<Holder>,
    state: &State,
    label: &SecLabel,
    s: SubjectId,
) -> Result<(), AllocError>
    ensures { OnOk result (found.new.items ≡ found.old.items ++ subject_holders state.now label.now s) }
{
    state.agrees();
    if !state.is_subject(s) {
        return Ok(());
    }
    let maximum = is_same(&state.maximum(s), label);
    let current = is_same(&state.current(s), label);
    push_holder(found, s, maximum, current)
}

/// Adds an object, where it has the label.
fn push_object(
    found: &mut Vec<Holder>,
    state: &State,
    label: &SecLabel,
    o: ObjectId,
) -> Result<(), AllocError>
    ensures { OnOk result (found.new.items ≡ found.old.items ++ object_holders state.now label.now o) }
{
    if !state.is_active(o) {
        return Ok(());
    }
    if is_same(&state.object_label(o), label) {
        found.push(Holder::Object(o))?;
    }
    Ok(())
}

/// Adds what the subjects have the label as.
fn push_subjects(found: &mut Vec<Holder>, state: &State, label: &SecLabel) -> Result<(), AllocError>
    ensures { OnOk result (found.new.items
        ≡ found.old.items ++ flat_map (subject_holders state.now label.now) (below MAX_SUBJECTS)) }
{
    for n in 0..MAX_SUBJECTS {
        push_subject(found, state, label, SubjectId::new(n))?;
    }
    Ok(())
}

/// Adds the objects that have the label.
fn push_objects(found: &mut Vec<Holder>, state: &State, label: &SecLabel) -> Result<(), AllocError>
    ensures { OnOk result (found.new.items
        ≡ found.old.items ++ flat_map (object_holders state.now label.now) (below MAX_OBJECTS)) }
{
    for n in 0..MAX_OBJECTS {
        push_object(found, state, label, ObjectId::new(n))?;
    }
    Ok(())
}

/// Who and what has the label: subjects, by number, and then objects, by number.
pub fn holders(alloc: Global, state: &State, label: &SecLabel) -> Result<Vec<Holder>, AllocError>
    ensures { IfOk result (λ found. found.items ≡ holders state.now label.now) }
{
    let mut found = Vec::new(alloc);
    push_subjects(&mut found, state, label)?;
    push_objects(&mut found, state, label)?;
    Ok(found)
}
