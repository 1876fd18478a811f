//! The accesses in the way of a change of levels.
ghost use Rattle.std.specs.Prelude.{◌≡◌, ◌++◌, codes, string_bytes, IsTrue, OnOk};
ghost use Rattle.mls_requests.specs.ModeWords.{mode_word};
ghost use Rattle.mls_state.specs.State.{is_subject, is_active};
ghost use Rattle.mls_rules.specs.Rules.{is_defined};
ghost use Rattle.mls_explain.specs.Demands.{failing_of_subject, failing_of_object};
ghost use Rattle.mls_wording.specs.Wording.{object_text, subject_text};
ghost use Rattle.mls_explain_text.specs.Obstacles.{object_line, object_lines, subject_line, subject_lines};
ghost use Rattle.mls_explain_text.specs.Obstacles.{level_obstacles, label_obstacles, obstacle_lines};
ghost use Rattle.mls_explain.specs.declared.demand.Demand.{Demand as DemandView};

use mls_explain::{Demand, failing_of_object, failing_of_subject};
use mls_labels::SecLabel;
use mls_lines::Names;
use mls_requests::{Action, Reason, Request, mode_word};
use mls_rules::State;
use mls_tables::{Mode, ObjectId, SubjectId};
use mls_wording::{push_object, push_subject};
use std::alloc::{AllocError, Global};

/// Appends the object and the mode of an access.
fn push_object_line(
    text: &mut String,
    names: &Names,
    access: &(SubjectId, ObjectId, Mode),
) -> Result<(), AllocError>
    ensures { OnOk result (string_bytes text.new ≡ string_bytes text.old ++ object_line names.now access.now) }
{
    text.push_str("  ")?;
    push_object(text, names, access.1)?;
    text.push_str(" ")?;
    text.push_str(mode_word(access.2))?;
    text.push_str("\n")
}

/// Appends the subject and the mode of an access.
fn push_subject_line(
    text: &mut String,
    names: &Names,
    access: &(SubjectId, ObjectId, Mode),
) -> Result<(), AllocError>
    ensures { OnOk result (string_bytes text.new ≡ string_bytes text.old ++ subject_line names.now access.now) }
{
    text.push_str("  ")?;
    push_subject(text, names, access.0)?;
    text.push_str(" ")?;
    text.push_str(mode_word(access.2))?;
    text.push_str("\n")
}

/// Appends the objects and the modes of accesses, a line each.
fn push_object_lines(
    text: &mut String,
    names: &Names,
    accesses: &[(SubjectId, ObjectId, Mode)],
) -> Result<(), AllocError>
    ensures { OnOk result (string_bytes text.new ≡ string_bytes text.old ++ object_lines names.now accesses.now) }
{
    for access in accesses {
        push_object_line(text, names, access)?;
    }
    Ok(())
}

/// Appends the subjects and the modes of accesses, a line each.
fn push_subject_lines(
    text: &mut String,
    names: &Names,
    accesses: &[(SubjectId, ObjectId, Mode)],
) -> Result<(), AllocError>
    ensures { OnOk result (string_bytes text.new ≡ string_bytes text.old ++ subject_lines names.now accesses.now) }
{
    for access in accesses {
        push_subject_line(text, names, access)?;
    }
    Ok(())
}

/// Appends what a known subject holds that doesn't meet star at a new current label.
fn push_held(
    alloc: Global,
    text: &mut String,
    names: &Names,
    state: &State,
    s: SubjectId,
    l: SecLabel,
) -> Result<(), AllocError>
    requires { IsTrue (is_subject state.now s) }
    ensures { OnOk result (string_bytes text.new ≡ string_bytes text.old
        ++ object_lines names.now (failing_of_subject (DemandView.StarAtLevel s l) state.now s)) }
{
    let found = failing_of_subject(alloc, state, s, &Demand::StarAtLevel(s, l))?;
    let pushed = push_object_lines(text, names, &found);
    drop(found);
    pushed
}

/// Appends what is held of an active object and doesn't meet a demand.
fn push_holding(
    alloc: Global,
    text: &mut String,
    names: &Names,
    state: &State,
    o: ObjectId,
    demand: &Demand,
) -> Result<(), AllocError>
    requires { IsTrue (is_active state.now o) }
    ensures { OnOk result (string_bytes text.new ≡ string_bytes text.old
        ++ subject_lines names.now (failing_of_object demand.now state.now o)) }
{
    let found = failing_of_object(alloc, state, o, demand)?;
    let pushed = push_subject_lines(text, names, &found);
    drop(found);
    pushed
}

/// Appends what is in the way of a subject's new current label, where the condition of this reason fails.
fn push_level_obstacles(
    alloc: Global,
    text: &mut String,
    names: &Names,
    state: &State,
    s: SubjectId,
    l: SecLabel,
    reason: Reason,
) -> Result<(), AllocError>
    requires { IsTrue (is_subject state.now s) }
    ensures { OnOk result (string_bytes text.new
        ≡ string_bytes text.old ++ level_obstacles names.now state.now s l reason) }
{
    match reason {
        Reason::Star => push_held(alloc, text, names, state, s, l),
        _ => Ok(()),
    }
}

/// Appends what is in the way of an object's new label, where the condition of this reason fails.
fn push_label_obstacles(
    alloc: Global,
    text: &mut String,
    names: &Names,
    state: &State,
    o: ObjectId,
    l: SecLabel,
    reason: Reason,
) -> Result<(), AllocError>
    requires { IsTrue (is_active state.now o) }
    ensures { OnOk result (string_bytes text.new
        ≡ string_bytes text.old ++ label_obstacles names.now state.now o l reason) }
{
    match reason {
        Reason::Simple => push_holding(alloc, text, names, state, o, &Demand::SimpleAtLabel(o, l)),
        Reason::Star => push_holding(alloc, text, names, state, o, &Demand::StarAtLabel(o, l)),
        _ => Ok(()),
    }
}

/// Appends the accesses in the way of a request in the domain, where its condition of this reason fails.
pub(crate) fn push_obstacles(
    alloc: Global,
    text: &mut String,
    names: &Names,
    state: &State,
    request: &Request,
    reason: Reason,
) -> Result<(), AllocError>
    requires { IsTrue (is_defined state.now request.now) }
    ensures { OnOk result (string_bytes text.new
        ≡ string_bytes text.old ++ obstacle_lines names.now state.now request.now reason) }
{
    match &request.action {
        Action::SubjectLevel(l) => {
            push_level_obstacles(alloc, text, names, state, request.subject, *l, reason)
        }
        Action::ObjectLevel(o, l) => {
            push_label_obstacles(alloc, text, names, state, *o, *l, reason)
        }
        _ => Ok(()),
    }
}
