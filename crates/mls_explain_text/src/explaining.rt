//! Why a line is answered as it is.
ghost use Rattle.std.specs.Prelude.{◌≡◌, string_bytes, IsTrue, IfOk, OnOk};
ghost use Rattle.mls_rules.specs.Rules.{is_defined, reply as reply_to};
ghost use Rattle.mls_explain_text.specs.Explained.{Adds, GivesReasons, ExplainsDefined, ExplainsRequest, Explains};
ghost use Rattle.mls_explain_text.specs.Remedies.{IsRemedyAfter};
ghost use Rattle.mls_explain_text.specs.Responses.{response_to, is_positive};

use crate::asking::response_text;
use crate::condition_line::push_conditions;
use crate::remedy_line::push_remedy;
use crate::remedy_told::remedy_told;
use crate::response::{Response, answer_to, push_response};
use crate::undefined::push_undefined;
use mls_explain::{judgements, unknowns};
use mls_lines::Names;
use mls_remedies::Remedy;
use mls_requests::{Ask, Reply, Request};
use mls_rules::{State, decide};
use mls_wording::Answer;
use std::alloc::{AllocError, Global};

/// Appends the lines of the conditions of a request in the domain.
fn push_reasons(
    alloc: Global,
    text: &mut String,
    names: &Names,
    state: &State,
    request: &Request,
) -> Result<(), AllocError>
    requires { IsTrue (is_defined state.now request.now) }
    ensures { OnOk result (Adds (GivesReasons names.now state.now request.now) (string_bytes text.old)
        (string_bytes text.new)) }
{
    let conditions = judgements(alloc, state, request)?;
    let pushed = push_conditions(alloc, text, names, state, request, &conditions);
    drop(conditions);
    pushed
}

/// Appends the explanation of a request in the domain, with this reply and this remedy.
fn push_parts(
    alloc: Global,
    text: &mut String,
    names: &Names,
    state: &State,
    request: &Request,
    reply: Reply,
    remedy: &Remedy,
) -> Result<(), AllocError>
    requires domain { IsTrue (is_defined state.now request.now) }
    requires reply { reply ≡ reply_to state.now request.now }
    requires remedy { IsRemedyAfter state.now request.now reply remedy.now.steps.items remedy.now.ending }
    ensures { OnOk result (Adds (ExplainsDefined names.now state.now request.now) (string_bytes text.old)
        (string_bytes text.new)) }
{
    push_response(text, &Response::Replied(reply))?;
    push_reasons(alloc, text, names, state, request)?;
    push_remedy(text, names, remedy)
}

/// Appends the explanation of a request in the domain.
fn push_defined(
    alloc: Global,
    text: &mut String,
    names: &Names,
    state: &State,
    request: &Request,
) -> Result<(), AllocError>
    requires { IsTrue (is_defined state.now request.now) }
    ensures { OnOk result (Adds (ExplainsDefined names.now state.now request.now) (string_bytes text.old)
        (string_bytes text.new)) }
{
    let reply = decide(state, request);
    let remedy = remedy_told(alloc, state, request, &reply)?;
    let pushed = push_parts(alloc, text, names, state, request, reply, &remedy);
    drop(remedy);
    pushed
}

/// Appends the explanation of a request.
///
/// # Errors
/// `AllocError` where an allocation failed. The text may then have a part of it.
pub(crate) fn push_request(
    alloc: Global,
    text: &mut String,
    names: &Names,
    state: &State,
    request: &Request,
) -> Result<(), AllocError>
    ensures { OnOk result (Adds (ExplainsRequest names.now state.now request.now) (string_bytes text.old)
        (string_bytes text.new)) }
{
    let unknown = unknowns(alloc, state, request)?;
    let pushed = if unknown.is_empty() {
        push_defined(alloc, text, names, state, request)
    } else {
        push_undefined(text, names, &unknown)
    };
    drop(unknown);
    pushed
}

/// The explanation of a request.
fn explain_request(
    alloc: Global,
    names: &Names,
    state: &State,
    request: &Request,
) -> Result<String, AllocError>
    ensures { IfOk result (λ text. ExplainsRequest names.now state.now request.now (string_bytes text)) }
{
    let mut text = String::new(alloc);
    push_request(alloc, &mut text, names, state, request)?;
    Ok(text)
}

/// The explanation of what a line asks.
fn explain_ask(alloc: Global, names: &Names, state: &State, ask: &Ask) -> Result<String, AllocError>
    ensures { IfOk result (λ text. Explains names.now state.now ask.now (string_bytes text)) }
{
    match ask {
        Ask::Submit(request) => explain_request(alloc, names, state, request),
        Ask::Check(_, _, _) => response_text(alloc, &answer_to(state, ask)),
    }
}

/// Why a line is answered as it is in this state: after the answer a line for each condition of the request's rule, in
/// the rule's order, with the accesses in its way, and after a denial its remedy; or a line for each thing that the
/// request names and that isn't there. A check has its answer alone. The answer is positive as that of
/// [`list_answer`](crate::list_answer).
///
/// # Errors
/// `AllocError` where an allocation failed.
pub fn explain_in(
    alloc: Global,
    names: &Names,
    state: &State,
    ask: &Ask,
) -> Result<Answer, AllocError>
    ensures text { IfOk result (λ answer. Explains names.now state.now ask.now (string_bytes answer.text)) }
    ensures positive { IfOk result (λ answer. answer.is_positive ≡ is_positive (response_to state.now ask.now)) }
{
    let text = explain_ask(alloc, names, state, ask)?;
    let is_positive = answer_to(state, ask).is_positive();
    Ok(Answer { text, is_positive })
}
