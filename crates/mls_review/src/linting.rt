//! What is suspicious in a start.
ghost use Rattle.std.specs.Prelude.{◌≡◌, ◌++◌, ◌==◌, length, map, IfOk, OnOk};
ghost use Rattle.std.specs.List.{flat_map};
ghost use Rattle.mls_review.specs.Findings.{dead, unused, idle};
ghost use Rattle.mls_review.specs.Flows.{downflows};
ghost use Rattle.mls_review.specs.LintRows.{finding_row, findings as findings_in, lint_bytes};
ghost use Rattle.mls_review.specs.declared.finding.Finding.TheVariants as finding;

use crate::dead::{Dead, dead_permissions};
use crate::downflow::Downflow;
use crate::finding::Finding;
use crate::flows::downflows;
use crate::unused::{idle_subjects, unused_objects};
use mls_lines::Names;
use mls_rows::{Form, Listing, written};
use mls_start::Start;
use mls_state::State;
use mls_tables::{ObjectId, SubjectId};
use std::alloc::{AllocError, Global};

/// Adds dead permissions.
fn push_all_dead(found: &mut Vec<Finding>, dead: &[Dead]) -> Result<(), AllocError>
    ensures { OnOk result (found.new.items ≡ found.old.items ++ map finding.Dead dead.now) }
{
    for d in dead {
        found.push(Finding::Dead(*d))?;
    }
    Ok(())
}

/// Adds unused objects.
fn push_all_unused(found: &mut Vec<Finding>, objects: &[ObjectId]) -> Result<(), AllocError>
    ensures { OnOk result (found.new.items ≡ found.old.items ++ map finding.Unused objects.now) }
{
    for o in objects {
        found.push(Finding::Unused(*o))?;
    }
    Ok(())
}

/// Adds idle subjects.
fn push_all_idle(found: &mut Vec<Finding>, subjects: &[SubjectId]) -> Result<(), AllocError>
    ensures { OnOk result (found.new.items ≡ found.old.items ++ map finding.Idle subjects.now) }
{
    for s in subjects {
        found.push(Finding::Idle(*s))?;
    }
    Ok(())
}

/// Adds flows downwards.
fn push_all_downflows(found: &mut Vec<Finding>, flows: &[Downflow]) -> Result<(), AllocError>
    ensures { OnOk result (found.new.items ≡ found.old.items ++ map finding.Downflow flows.now) }
{
    for f in flows {
        found.push(Finding::Downflow(*f))?;
    }
    Ok(())
}

/// Adds the dead permissions of a state.
fn push_dead(alloc: Global, found: &mut Vec<Finding>, state: &State) -> Result<(), AllocError>
    ensures { OnOk result (found.new.items ≡ found.old.items ++ map finding.Dead (dead state.now)) }
{
    let dead = dead_permissions(alloc, state)?;
    push_all_dead(found, &dead)
}

/// Adds the unused objects of a state.
fn push_unused(alloc: Global, found: &mut Vec<Finding>, state: &State) -> Result<(), AllocError>
    ensures { OnOk result (found.new.items ≡ found.old.items ++ map finding.Unused (unused state.now)) }
{
    let objects = unused_objects(alloc, state)?;
    push_all_unused(found, &objects)
}

/// Adds the idle subjects of a state.
fn push_idle(alloc: Global, found: &mut Vec<Finding>, state: &State) -> Result<(), AllocError>
    ensures { OnOk result (found.new.items ≡ found.old.items ++ map finding.Idle (idle state.now)) }
{
    let subjects = idle_subjects(alloc, state)?;
    push_all_idle(found, &subjects)
}

/// Adds the flows downwards that a state's permissions allow.
fn push_downflows(alloc: Global, found: &mut Vec<Finding>, state: &State) -> Result<(), AllocError>
    ensures { OnOk result (found.new.items ≡ found.old.items ++ map finding.Downflow (downflows state.now)) }
{
    let flows = downflows(alloc, state)?;
    push_all_downflows(found, &flows)
}

/// What is suspicious in a state: just its dead permissions, then its unused objects, its idle subjects and the flows
/// downwards of its trusted subjects.
///
/// # Errors
/// `AllocError` where an allocation failed.
pub fn findings(alloc: Global, state: &State) -> Result<Vec<Finding>, AllocError>
    ensures { IfOk result (λ found. found.items ≡ findings_in state.now) }
{
    let mut found = Vec::new(alloc);
    push_dead(alloc, &mut found, state)?;
    push_unused(alloc, &mut found, state)?;
    push_idle(alloc, &mut found, state)?;
    push_downflows(alloc, &mut found, state)?;
    Ok(found)
}

/// Findings in a form, as an answer: a positive one where there is none.
fn listed(
    alloc: Global,
    form: Form,
    names: &Names,
    found: &[Finding],
) -> Result<Listing, AllocError>
    ensures bytes { IfOk result (λ listing. listing.bytes.items ≡ flat_map (finding_row form names.now) found.now) }
    ensures positive { IfOk result (λ listing. listing.is_positive ≡ (length found.now == 0)) }
{
    let output = written(alloc, form, names, None, found)?;
    Ok(Listing {
        bytes: output.into_bytes(),
        is_positive: found.is_empty(),
    })
}

/// What is suspicious in a state, a row each in this form: just its dead permissions, its unused objects, its idle
/// subjects and the flows downwards of trusted subjects. The answer is positive where there is nothing.
///
/// # Errors
/// `AllocError` where an allocation failed.
pub fn lint_state(
    alloc: Global,
    form: Form,
    names: &Names,
    state: &State,
) -> Result<Listing, AllocError>
    ensures bytes { IfOk result (λ listing. listing.bytes.items ≡ lint_bytes form names.now state.now) }
    ensures positive { IfOk result
        (λ listing. listing.is_positive ≡ (length (findings_in state.now) == 0)) }
{
    let found = findings(alloc, state)?;
    let listing = listed(alloc, form, names, &found);
    drop(found);
    listing
}

/// What is suspicious in a start, as [`lint_state`] tells it of the state that it opens with.
///
/// # Errors
/// `AllocError` where an allocation failed.
pub fn lint(alloc: Global, form: Form, names: &Names, start: &Start) -> Result<Listing, AllocError>
    ensures bytes { IfOk result (λ listing. listing.bytes.items ≡ lint_bytes form names.now start.now) }
    ensures positive { IfOk result
        (λ listing. listing.is_positive ≡ (length (findings_in start.now) == 0)) }
{
    let state = start.opening(alloc)?;
    let listing = lint_state(alloc, form, names, &state);
    drop(state);
    listing
}
