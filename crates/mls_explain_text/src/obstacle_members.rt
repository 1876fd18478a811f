//! The members that are the accesses in the way of a change of levels.
ghost use Rattle.json.specs.Token.{begin_array, key};
ghost use Rattle.std.specs.Prelude.{◌≡◌, ◌∷◌, [], codes, IsTrue, OnOk};
ghost use Rattle.std.specs.List.{flat_map};
ghost use Rattle.mls_rows.specs.Members.{Adds};
ghost use Rattle.mls_rules.specs.Rules.{is_defined};
ghost use Rattle.mls_state.specs.State.{is_active, is_subject};
ghost use Rattle.mls_explain.specs.Demands.{failing_of_object, failing_of_subject};
ghost use Rattle.mls_explain.specs.declared.demand.Demand.{Demand as DemandView};
ghost use Rattle.mls_explain_text.specs.ExplainMembers.{action_members, holder_object};
ghost use Rattle.mls_explain_text.specs.ExplainMembers.{label_members, level_members, way_members};
ghost use Rattle.mls_explain_text.specs.Holdings.{holding_object, some_list};

use json::Writer;
use mls_explain::{Condition, Demand, failing_of_object, failing_of_subject};
use mls_labels::SecLabel;
use mls_lines::Names;
use mls_requests::{Action, Reason, Request};
use mls_rows::{write_mode, write_object, write_subject};
use mls_rules::State;
use mls_tables::{Mode, ObjectId, SubjectId};
use std::alloc::{AllocError, Global};

/// Writes the object and the mode of an access.
fn write_holding(
    writer: &mut Writer,
    names: &Names,
    access: &(SubjectId, ObjectId, Mode),
) -> Result<(), AllocError>
    ensures { Adds result writer.old writer.new (holding_object names.now access.now) }
{
    writer.begin_object()?;
    write_object(writer, names, access.1)?;
    write_mode(writer, access.2)?;
    writer.end_object()
}

/// Writes the subject and the mode of an access.
fn write_holder(
    writer: &mut Writer,
    names: &Names,
    access: &(SubjectId, ObjectId, Mode),
) -> Result<(), AllocError>
    ensures { Adds result writer.old writer.new (holder_object names.now access.now) }
{
    writer.begin_object()?;
    write_subject(writer, names, access.0)?;
    write_mode(writer, access.2)?;
    writer.end_object()
}

/// Writes the objects and the modes of accesses.
fn write_holdings(
    writer: &mut Writer,
    names: &Names,
    accesses: &[(SubjectId, ObjectId, Mode)],
) -> Result<(), AllocError>
    ensures { Adds result writer.old writer.new (flat_map (holding_object names.now) accesses.now) }
{
    for access in accesses {
        write_holding(writer, names, access)?;
    }
    Ok(())
}

/// Writes the subjects and the modes of accesses.
fn write_holders(
    writer: &mut Writer,
    names: &Names,
    accesses: &[(SubjectId, ObjectId, Mode)],
) -> Result<(), AllocError>
    ensures { Adds result writer.old writer.new (flat_map (holder_object names.now) accesses.now) }
{
    for access in accesses {
        write_holder(writer, names, access)?;
    }
    Ok(())
}

/// Begins a list.
fn begin_list(writer: &mut Writer, at: &str) -> Result<(), AllocError>
    ensures { Adds result writer.old writer.new (key at.now ∷ begin_array ∷ []) }
{
    writer.key(at)?;
    writer.begin_array()
}

/// Begins the list of accesses.
fn begin_accesses(writer: &mut Writer) -> Result<(), AllocError>
    ensures { Adds result writer.old writer.new (key (codes "accesses") ∷ begin_array ∷ []) }
{
    writer.key("accesses")?;
    writer.begin_array()
}

/// Writes a list of the objects and the modes of accesses, where there are some.
fn list_held(
    writer: &mut Writer,
    at: &str,
    names: &Names,
    accesses: &[(SubjectId, ObjectId, Mode)],
) -> Result<(), AllocError>
    ensures { Adds result writer.old writer.new
        (some_list at.now (holding_object names.now) accesses.now) }
{
    match accesses {
        [] => Ok(()),
        [_, ..] => {
            begin_list(writer, at)?;
            write_holdings(writer, names, accesses)?;
            writer.end_array()
        }
    }
}

/// Writes the list of the objects and the modes of accesses, where there are some.
fn list_holdings(
    writer: &mut Writer,
    names: &Names,
    accesses: &[(SubjectId, ObjectId, Mode)],
) -> Result<(), AllocError>
    ensures { Adds result writer.old writer.new
        (some_list (codes "accesses") (holding_object names.now) accesses.now) }
{
    list_held(writer, "accesses", names, accesses)
}

/// Writes the list of the objects and the modes of accesses that are to be released, where there are some.
pub(crate) fn list_releases(
    writer: &mut Writer,
    names: &Names,
    accesses: &[(SubjectId, ObjectId, Mode)],
) -> Result<(), AllocError>
    ensures { Adds result writer.old writer.new
        (some_list (codes "releases") (holding_object names.now) accesses.now) }
{
    list_held(writer, "releases", names, accesses)
}

/// Writes the list of the subjects and the modes of accesses, where there are some.
fn list_holders(
    writer: &mut Writer,
    names: &Names,
    accesses: &[(SubjectId, ObjectId, Mode)],
) -> Result<(), AllocError>
    ensures { Adds result writer.old writer.new
        (some_list (codes "accesses") (holder_object names.now) accesses.now) }
{
    match accesses {
        [] => Ok(()),
        [_, ..] => {
            begin_accesses(writer)?;
            write_holders(writer, names, accesses)?;
            writer.end_array()
        }
    }
}

/// Writes what a known subject holds that doesn't meet star at a new current label.
fn write_held(
    alloc: Global,
    writer: &mut Writer,
    names: &Names,
    state: &State,
    s: SubjectId,
    l: SecLabel,
) -> Result<(), AllocError>
    requires { IsTrue (is_subject state.now s) }
    ensures { Adds result writer.old writer.new (some_list (codes "accesses") (holding_object names.now)
        (failing_of_subject (DemandView.StarAtLevel s l) state.now s)) }
{
    let found = failing_of_subject(alloc, state, s, &Demand::StarAtLevel(s, l))?;
    let done = list_holdings(writer, names, &found);
    drop(found);
    done
}

/// Writes what is held of an active object and doesn't meet a demand.
fn write_failing(
    alloc: Global,
    writer: &mut Writer,
    names: &Names,
    state: &State,
    o: ObjectId,
    demand: &Demand,
) -> Result<(), AllocError>
    requires { IsTrue (is_active state.now o) }
    ensures { Adds result writer.old writer.new (some_list (codes "accesses") (holder_object names.now)
        (failing_of_object demand.now state.now o)) }
{
    let found = failing_of_object(alloc, state, o, demand)?;
    let done = list_holders(writer, names, &found);
    drop(found);
    done
}

/// Writes what is in the way of a subject's new current label, where the condition of this reason fails.
fn write_level(
    alloc: Global,
    writer: &mut Writer,
    names: &Names,
    state: &State,
    s: SubjectId,
    l: SecLabel,
    reason: Reason,
) -> Result<(), AllocError>
    requires { IsTrue (is_subject state.now s) }
    ensures { Adds result writer.old writer.new (level_members names.now state.now s l reason) }
{
    match reason {
        Reason::Star => write_held(alloc, writer, names, state, s, l),
        _ => Ok(()),
    }
}

/// Writes what is in the way of an object's new label, where the condition of this reason fails.
fn write_label(
    alloc: Global,
    writer: &mut Writer,
    names: &Names,
    state: &State,
    o: ObjectId,
    l: SecLabel,
    reason: Reason,
) -> Result<(), AllocError>
    requires { IsTrue (is_active state.now o) }
    ensures { Adds result writer.old writer.new (label_members names.now state.now o l reason) }
{
    match reason {
        Reason::Simple => write_failing(
            alloc,
            writer,
            names,
            state,
            o,
            &Demand::SimpleAtLabel(o, l),
        ),
        Reason::Star => write_failing(alloc, writer, names, state, o, &Demand::StarAtLabel(o, l)),
        _ => Ok(()),
    }
}

/// Writes the accesses in the way of a request in the domain, where its condition of this reason fails.
fn write_obstacles(
    alloc: Global,
    writer: &mut Writer,
    names: &Names,
    state: &State,
    request: &Request,
    reason: Reason,
) -> Result<(), AllocError>
    requires { IsTrue (is_defined state.now request.now) }
    ensures { Adds result writer.old writer.new
        (action_members names.now state.now request.now.subject request.now.action reason) }
{
    match &request.action {
        Action::SubjectLevel(l) => write_level(
            alloc,
            writer,
            names,
            state,
            request.subject,
            *l,
            reason,
        ),
        Action::ObjectLevel(o, l) => write_label(alloc, writer, names, state, *o, *l, reason),
        _ => Ok(()),
    }
}

/// Writes the accesses in the way of a request in the domain, where a condition of it fails.
pub(crate) fn write_ways(
    alloc: Global,
    writer: &mut Writer,
    names: &Names,
    state: &State,
    request: &Request,
    condition: &Condition,
) -> Result<(), AllocError>
    requires { IsTrue (is_defined state.now request.now) }
    ensures { Adds result writer.old writer.new
        (way_members names.now state.now request.now condition.now.holds condition.now.reason) }
{
    if condition.holds {
        Ok(())
    } else {
        write_obstacles(alloc, writer, names, state, request, condition.reason)
    }
}
