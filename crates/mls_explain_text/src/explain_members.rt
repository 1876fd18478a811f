//! Why a line is answered as it is, as one JSON object.
ghost use Rattle.std.specs.Prelude.{◌≡◌, ◌↔◌, [], IsTrue, IfOk, OnOk};
ghost use Rattle.mls_rows.specs.Members.{Adds};
ghost use Rattle.mls_rules.specs.Rules.{is_defined, reply as reply_to};
ghost use Rattle.mls_explain.specs.Unknowns.{unknowns};
ghost use Rattle.mls_explain.specs.Ways.{releases_for};
ghost use Rattle.mls_explain_text.specs.ExplainMembers.{remedy_members, remedy_of_action};
ghost use Rattle.mls_explain_text.specs.AnswerMembers.{response_members};
ghost use Rattle.mls_explain_text.specs.Explained.{Explains, IsWayAfter};
ghost use Rattle.mls_explain_text.specs.ExplainRows.{AddsMembers, AddsObject, ExplainsIn, IsObjectOf, MembersOf};
ghost use Rattle.mls_explain_text.specs.ExplainRows.{GivesConditions, MembersOfDefined, MembersWhether};
ghost use Rattle.mls_explain_text.specs.Remedies.{IsRemedyAfter};
ghost use Rattle.mls_explain_text.specs.Responses.{is_positive, response_to};

use crate::answer_row::write_reply;
use crate::condition_members::write_conditions;
use crate::explaining::explain_in;
use crate::outlook::write_way;
use crate::remedy_told::remedy_told;
use crate::response::{Response, answer_to};
use crate::step_members::write_steps;
use crate::unknown_members::write_undefined;
use crate::way_told::way_told;
use json::Writer;
use mls_explain::{Unknown, Way, judgements, releases, unknowns};
use mls_lines::Names;
use mls_remedies::Remedy;
use mls_requests::{Action, Ask, Reply, Request};
use mls_rows::{Form, Listing, Plain};
use mls_rules::{State, decide};
use mls_tables::{Mode, ObjectId, SubjectId};
use mls_wording::Answer;
use std::alloc::{AllocError, Global};

/// Writes what a get that was denied would take, and nothing of any other request.
fn write_denied(
    alloc: Global,
    writer: &mut Writer,
    names: &Names,
    request: &Request,
    way: Way,
    releases: &[(SubjectId, ObjectId, Mode)],
) -> Result<(), AllocError>
    ensures { Adds result writer.old writer.new
        (remedy_of_action names.now request.now.action way releases.now) }
{
    match &request.action {
        Action::Get(_, _) => write_way(writer, alloc, names, way, releases),
        _ => Ok(()),
    }
}

/// Writes what a get that is answered `no` would take, and nothing in any other case.
fn write_remedy(
    alloc: Global,
    writer: &mut Writer,
    names: &Names,
    request: &Request,
    reply: &Reply,
    way: Way,
    releases: &[(SubjectId, ObjectId, Mode)],
) -> Result<(), AllocError>
    ensures { Adds result writer.old writer.new
        (remedy_members names.now request.now reply.now way releases.now) }
{
    match reply {
        Reply::No(_) => write_denied(alloc, writer, names, request, way, releases),
        _ => Ok(()),
    }
}

/// Writes what a get that is answered `no` in this state would take of its subject, and nothing in any other case.
fn write_taken(
    alloc: Global,
    writer: &mut Writer,
    names: &Names,
    state: &State,
    request: &Request,
    reply: &Reply,
    way: Way,
) -> Result<(), AllocError>
    ensures { Adds result writer.old writer.new
        (remedy_members names.now request.now reply.now way (releases_for state.now request.now.subject way)) }
{
    let releases = releases(alloc, state, request.subject, &way)?;
    let done = write_remedy(alloc, writer, names, request, reply, way, &releases);
    drop(releases);
    done
}

/// Writes the conditions of a request in the domain.
fn write_reasons(
    alloc: Global,
    writer: &mut Writer,
    names: &Names,
    state: &State,
    request: &Request,
) -> Result<(), AllocError>
    requires { IsTrue (is_defined state.now request.now) }
    ensures { AddsMembers result writer.old writer.new (GivesConditions names.now state.now request.now) }
{
    let conditions = judgements(alloc, state, request)?;
    let done = write_conditions(alloc, writer, names, state, request, &conditions);
    drop(conditions);
    done
}

/// Writes the explanation of a request in the domain, with this reply, this way and this remedy.
fn write_parts(
    alloc: Global,
    writer: &mut Writer,
    names: &Names,
    state: &State,
    request: &Request,
    reply: &Reply,
    way: Way,
    remedy: &Remedy,
) -> Result<(), AllocError>
    requires domain { IsTrue (is_defined state.now request.now) }
    requires reply { reply.now ≡ reply_to state.now request.now }
    requires way { IsWayAfter state.now request.now reply.now way }
    requires remedy { IsRemedyAfter state.now request.now reply.now remedy.now.steps.items remedy.now.ending }
    ensures { AddsMembers result writer.old writer.new (MembersOfDefined names.now state.now request.now) }
{
    write_reply(writer, reply)?;
    write_reasons(alloc, writer, names, state, request)?;
    write_taken(alloc, writer, names, state, request, reply, way)?;
    write_steps(alloc, writer, names, remedy)
}

/// Writes the explanation of a request in the domain.
fn write_defined(
    alloc: Global,
    writer: &mut Writer,
    names: &Names,
    state: &State,
    request: &Request,
) -> Result<(), AllocError>
    requires { IsTrue (is_defined state.now request.now) }
    ensures { AddsMembers result writer.old writer.new (MembersOfDefined names.now state.now request.now) }
{
    let reply = decide(state, request);
    let way = way_told(state, request, &reply);
    let remedy = remedy_told(alloc, state, request, &reply)?;
    let written = write_parts(alloc, writer, names, state, request, &reply, way, &remedy);
    drop(remedy);
    written
}

/// Writes the explanation of a request that names these things which aren't there.
#[tactic(auto, using(crate::proofs::Whether::whether_defined, crate::proofs::Whether::whether_undefined))]
fn write_whether(
    alloc: Global,
    writer: &mut Writer,
    names: &Names,
    state: &State,
    request: &Request,
    unknown: &[Unknown],
) -> Result<(), AllocError>
    requires found { unknown.now ≡ unknowns state.now request.now }
    requires none { (unknown.now ≡ []) ↔ IsTrue (is_defined state.now request.now) }
    ensures { AddsMembers result writer.old writer.new
        (MembersWhether (is_defined state.now request.now) names.now state.now request.now) }
{
    match unknown {
        [] => write_defined(alloc, writer, names, state, request),
        [_, ..] => write_undefined(alloc, writer, names, unknown),
    }
}

/// Writes the explanation of a request.
fn write_request(
    alloc: Global,
    writer: &mut Writer,
    names: &Names,
    state: &State,
    request: &Request,
) -> Result<(), AllocError>
    ensures { AddsMembers result writer.old writer.new
        (MembersWhether (is_defined state.now request.now) names.now state.now request.now) }
{
    let unknown = unknowns(alloc, state, request)?;
    let done = write_whether(alloc, writer, names, state, request, &unknown);
    drop(unknown);
    done
}

/// Writes the answer to a check.
fn write_answer(writer: &mut Writer, response: &Response) -> Result<(), AllocError>
    ensures { Adds result writer.old writer.new (response_members response.now) }
{
    response.write_members(writer)
}

/// Writes the explanation of what a line asks.
fn write_ask(
    alloc: Global,
    writer: &mut Writer,
    names: &Names,
    state: &State,
    ask: &Ask,
) -> Result<(), AllocError>
    ensures { AddsMembers result writer.old writer.new (MembersOf names.now state.now ask.now) }
{
    match ask {
        Ask::Submit(request) => write_request(alloc, writer, names, state, request),
        Ask::Check(_, _, _) => write_answer(writer, &answer_to(state, ask)),
    }
}

/// Writes the object that explains what a line asks.
fn write_object(
    alloc: Global,
    writer: &mut Writer,
    names: &Names,
    state: &State,
    ask: &Ask,
) -> Result<(), AllocError>
    ensures { AddsObject result writer.old writer.new (MembersOf names.now state.now ask.now) }
{
    writer.begin_object()?;
    write_ask(alloc, writer, names, state, ask)?;
    writer.end_object()
}

/// The object that explains what a line asks, in a line.
fn object_of(alloc: Global, names: &Names, state: &State, ask: &Ask) -> Result<Vec<u8>, AllocError>
    ensures { IfOk result (λ bytes. IsObjectOf names.now state.now ask.now bytes.items) }
{
    let mut writer = Writer::new(Vec::new(alloc));
    write_object(alloc, &mut writer, names, state, ask)?;
    let mut bytes = writer.into_inner();
    bytes.push(b'\n')?;
    Ok(bytes)
}

/// The lines that explain what a line asks.
fn lines_of(alloc: Global, names: &Names, state: &State, ask: &Ask) -> Result<Vec<u8>, AllocError>
    ensures { IfOk result (λ bytes. Explains names.now state.now ask.now bytes.items) }
{
    let Answer { text, .. } = explain_in(alloc, names, state, ask)?;
    Ok(text.into_bytes())
}

/// Why a line is answered as it is in this state, as bytes in a form.
fn bytes_of(
    alloc: Global,
    form: Form,
    names: &Names,
    state: &State,
    ask: &Ask,
) -> Result<Vec<u8>, AllocError>
    ensures { IfOk result (λ bytes. ExplainsIn form names.now state.now ask.now bytes.items) }
{
    match form {
        Form::Text => lines_of(alloc, names, state, ask),
        Form::Json => object_of(alloc, names, state, ask),
    }
}

/// Why a line is answered as it is in this state, in a form: as the lines of [`explain_in`], or as one object with the
/// answer, the conditions of the request's rule, each with the accesses in its way, and after a denial its remedy, of a
/// get what it would take of the subject alone too; or with what the request names and isn't there. The answer is
/// positive as that of [`list_answer`](crate::list_answer).
///
/// # Errors
/// `AllocError` where an allocation failed.
pub fn list_explanation(
    alloc: Global,
    form: Form,
    names: &Names,
    state: &State,
    ask: &Ask,
) -> Result<Listing, AllocError>
    ensures bytes { IfOk result (λ listing. ExplainsIn form names.now state.now ask.now listing.bytes.items) }
    ensures positive { IfOk result (λ listing. listing.is_positive ≡ is_positive (response_to state.now ask.now)) }
{
    let bytes = bytes_of(alloc, form, names, state, ask)?;
    let is_positive = answer_to(state, ask).is_positive();
    Ok(Listing { bytes, is_positive })
}
