//! The line of a condition, and the accesses in the way.
ghost use Rattle.std.specs.Prelude.{◌≡◌, ◌++◌, codes, string_bytes, IsTrue, OnOk};
ghost use Rattle.mls_requests.specs.ReasonWords.{reason_word};
ghost use Rattle.mls_rules.specs.Rules.{is_defined};
ghost use Rattle.mls_explain_text.specs.Bases.{is_told, is_told_on};
ghost use Rattle.mls_explain_text.specs.Explained.{condition_line, condition_lines, conditions_text, standing_text};

use crate::basis::push_basis;
use crate::obstacles::push_obstacles;
use crate::term::either;
use mls_explain::{Ground, Judgement};
use mls_lines::Names;
use mls_requests::Request;
use mls_rules::State;
use std::alloc::{AllocError, Global};

/// Whether what a condition rests on is told as it is where it holds.
fn is_told_on(holds: bool, alone: bool, ground: &Ground) -> bool
    ensures { result ≡ is_told_on holds alone ground.now }
{
    match ground {
        Ground::Trust(_) => holds,
        _ => alone,
    }
}

/// Whether what a condition rests on without trust is told as it is where it holds.
pub(crate) fn is_told(judged: &Judgement) -> bool
    ensures { result ≡ is_told judged.now }
{
    is_told_on(
        judged.condition.holds,
        judged.plain.holds,
        &judged.plain.basis,
    )
}

/// The words for whether a condition holds.
fn standing(judged: &Judgement) -> &'static str
    ensures { result.now ≡ standing_text judged.now }
{
    if judged.condition.holds {
        either(judged.plain.holds, " holds: ", " holds by trust: ")
    } else {
        " fails: "
    }
}

/// Appends the line of a condition.
fn push_line(text: &mut String, names: &Names, judged: &Judgement) -> Result<(), AllocError>
    ensures { OnOk result
        (string_bytes text.new ≡ string_bytes text.old ++ condition_line names.now judged.now) }
{
    text.push_str(judged.condition.reason.word())?;
    text.push_str(standing(judged))?;
    push_basis(text, names, is_told(judged), &judged.plain.basis)?;
    text.push_str("\n")
}

/// Appends the line of a condition, and where it fails the accesses in the way.
fn push_condition(
    alloc: Global,
    text: &mut String,
    names: &Names,
    state: &State,
    request: &Request,
    judged: &Judgement,
) -> Result<(), AllocError>
    requires { IsTrue (is_defined state.now request.now) }
    ensures { OnOk result (string_bytes text.new
        ≡ string_bytes text.old ++ condition_lines names.now state.now request.now judged.now) }
{
    push_line(text, names, judged)?;
    if judged.condition.holds {
        Ok(())
    } else {
        push_obstacles(alloc, text, names, state, request, judged.condition.reason)
    }
}

/// Appends the lines of conditions, each followed by the accesses in its way.
pub(crate) fn push_conditions(
    alloc: Global,
    text: &mut String,
    names: &Names,
    state: &State,
    request: &Request,
    conditions: &[Judgement],
) -> Result<(), AllocError>
    requires { IsTrue (is_defined state.now request.now) }
    ensures { OnOk result (string_bytes text.new
        ≡ string_bytes text.old ++ conditions_text names.now state.now request.now conditions.now) }
{
    for condition in conditions {
        push_condition(alloc, text, names, state, request, condition)?;
    }
    Ok(())
}
