//! The members of conditions.
ghost use Rattle.json.specs.Token.{begin_array, key};
ghost use Rattle.std.specs.Prelude.{◌≡◌, ◌∷◌, [], true, false, codes, IsTrue, OnOk};
ghost use Rattle.std.specs.List.{flat_map};
ghost use Rattle.mls_rows.specs.Members.{Adds, text_member};
ghost use Rattle.mls_rules.specs.Rules.{is_defined};
ghost use Rattle.mls_explain_text.specs.Bases.{basis_text, is_told};
ghost use Rattle.mls_explain_text.specs.ExplainMembers.{condition_members, condition_object, conditions_member};
ghost use Rattle.mls_explain_text.specs.ExplainMembers.{holds_member, trust_member};

use crate::answer_row::write_reason;
use crate::basis::push_basis;
use crate::condition_line::is_told;
use crate::obstacle_members::write_ways;
use json::Writer;
use mls_explain::Judgement;
use mls_lines::Names;
use mls_requests::Request;
use mls_rows::write_text;
use mls_rules::State;
use std::alloc::{AllocError, Global};

/// Writes whether a condition holds.
fn write_holds(writer: &mut Writer, holds: bool) -> Result<(), AllocError>
    ensures { Adds result writer.old writer.new (holds_member holds) }
{
    writer.key("holds")?;
    writer.boolean(holds)
}

/// Writes that a condition holds by trust.
fn write_by_trust(writer: &mut Writer) -> Result<(), AllocError>
    ensures { Adds result writer.old writer.new (trust_member true false) }
{
    writer.key("by_trust")?;
    writer.boolean(true)
}

/// Writes that a condition holds by trust, where it does and fails without.
fn write_trust(writer: &mut Writer, holds: bool, alone: bool) -> Result<(), AllocError>
    ensures { Adds result writer.old writer.new (trust_member holds alone) }
{
    if holds {
        if alone {
            Ok(())
        } else {
            write_by_trust(writer)
        }
    } else {
        Ok(())
    }
}

/// Writes what a condition rests on without trust.
fn write_basis(
    alloc: Global,
    writer: &mut Writer,
    names: &Names,
    judged: &Judgement,
) -> Result<(), AllocError>
    ensures { Adds result writer.old writer.new
        (text_member (codes "basis") (basis_text names.now (is_told judged.now) judged.now.plain.basis)) }
{
    let mut text = String::new(alloc);
    push_basis(&mut text, names, is_told(judged), &judged.plain.basis)?;
    let done = write_text(writer, "basis", &text);
    drop(text);
    done
}

/// Writes the members of a condition.
fn write_members(
    alloc: Global,
    writer: &mut Writer,
    names: &Names,
    judged: &Judgement,
) -> Result<(), AllocError>
    ensures { Adds result writer.old writer.new (condition_members names.now judged.now) }
{
    write_reason(writer, judged.condition.reason)?;
    write_holds(writer, judged.condition.holds)?;
    write_trust(writer, judged.condition.holds, judged.plain.holds)?;
    write_basis(alloc, writer, names, judged)
}

/// Writes the object of a condition.
fn write_condition(
    alloc: Global,
    writer: &mut Writer,
    names: &Names,
    state: &State,
    request: &Request,
    judged: &Judgement,
) -> Result<(), AllocError>
    requires { IsTrue (is_defined state.now request.now) }
    ensures { Adds result writer.old writer.new (condition_object names.now state.now request.now judged.now) }
{
    writer.begin_object()?;
    write_members(alloc, writer, names, judged)?;
    write_ways(alloc, writer, names, state, request, &judged.condition)?;
    writer.end_object()
}

/// Writes the objects of conditions.
fn write_each(
    alloc: Global,
    writer: &mut Writer,
    names: &Names,
    state: &State,
    request: &Request,
    conditions: &[Judgement],
) -> Result<(), AllocError>
    requires { IsTrue (is_defined state.now request.now) }
    ensures { Adds result writer.old writer.new
        (flat_map (condition_object names.now state.now request.now) conditions.now) }
{
    for condition in conditions {
        write_condition(alloc, writer, names, state, request, condition)?;
    }
    Ok(())
}

/// Begins the list of conditions.
fn begin_conditions(writer: &mut Writer) -> Result<(), AllocError>
    ensures { Adds result writer.old writer.new (key (codes "conditions") ∷ begin_array ∷ []) }
{
    writer.key("conditions")?;
    writer.begin_array()
}

/// Writes the list of conditions, where there are some.
pub(crate) fn write_conditions(
    alloc: Global,
    writer: &mut Writer,
    names: &Names,
    state: &State,
    request: &Request,
    conditions: &[Judgement],
) -> Result<(), AllocError>
    requires { IsTrue (is_defined state.now request.now) }
    ensures { Adds result writer.old writer.new
        (conditions_member names.now state.now request.now conditions.now) }
{
    match conditions {
        [] => Ok(()),
        [_, ..] => {
            begin_conditions(writer)?;
            write_each(alloc, writer, names, state, request, conditions)?;
            writer.end_array()
        }
    }
}
