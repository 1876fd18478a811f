//! What a question is answered.
ghost use Rattle.std.specs.Prelude.{◌≡◌, ◌++◌, codes, string_bytes, OnOk};
ghost use Rattle.mls_explain_text.specs.Responses.{is_granted, response_to, held_text, response_text, response_line};
ghost use Rattle.mls_explain_text.specs.Responses.{is_positive};

use mls_requests::{Ask, Reply};
use mls_rules::{State, decide};
use mls_wording::push_reply;
use std::alloc::AllocError;

/// The answer that a script would be given.
#[derive(Clone, Copy, Debug, PartialEq, Eq)]
pub enum Response {
    /// To a request: its reply.
    Replied(Reply),
    /// To a check: whether the access is held.
    Held(bool),
}

/// Whether a reply grants. It doesn't allocate.
pub fn is_granted(reply: Reply) -> bool
    ensures { result ≡ is_granted reply }
{
    match reply {
        Reply::Yes | Reply::Created(_) => true,
        Reply::No(_) | Reply::Undefined => false,
    }
}

/// The answer that a script would be given in this state. Nothing changes, and nothing is allocated.
pub fn answer_to(state: &State, ask: &Ask) -> Response
    ensures { result ≡ response_to state.now ask.now }
{
    match ask {
        Ask::Submit(request) => Response::Replied(decide(state, request)),
        Ask::Check(s, o, x) => Response::Held(state.has_access(*s, *o, *x)),
    }
}

impl Response {
    /// Whether it is `yes`, `created` or `held`.
    pub fn is_positive(&self) -> bool
        ensures { result ≡ is_positive self.now }
    {
        match self {
            Response::Replied(reply) => is_granted(*reply),
            Response::Held(held) => *held,
        }
    }
}

/// The text that tells whether an access is held.
fn held_text(held: bool) -> &'static str
    ensures { result.now ≡ held_text held }
{
    if held { "held" } else { "not held" }
}

/// Appends the line of an answer.
pub(crate) fn push_response(text: &mut String, response: &Response) -> Result<(), AllocError>
    ensures { OnOk result (string_bytes text.new ≡ string_bytes text.old ++ response_line response.now) }
{
    match response {
        Response::Replied(reply) => push_reply(text, *reply)?,
        Response::Held(held) => text.push_str(held_text(*held))?,
    }
    text.push_str("\n")
}
