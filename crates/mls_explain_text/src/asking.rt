//! What a line is answered.
ghost use Rattle.std.specs.Prelude.{◌≡◌, string_bytes, IfOk};
ghost use Rattle.mls_explain_text.specs.AnswerRows.{response_bytes};
ghost use Rattle.mls_explain_text.specs.Responses.{response_to, response_line, is_positive};

use crate::response::{Response, answer_to, push_response};
use mls_requests::Ask;
use mls_rows::{Form, Listing, Output};
use mls_rules::State;
use std::alloc::{AllocError, Global};

/// The text of the line of an answer.
pub(crate) fn response_text(alloc: Global, response: &Response) -> Result<String, AllocError>
    ensures { IfOk result (λ text. string_bytes text ≡ response_line response.now) }
{
    let mut text = String::new(alloc);
    push_response(&mut text, response)?;
    Ok(text)
}

/// The row of the answer that a script would be given in this state, in a form. It is positive for `yes`, `created` and
/// `held`. Nothing changes.
///
/// # Errors
/// `AllocError` where an allocation failed.
pub fn list_answer(
    alloc: Global,
    form: Form,
    state: &State,
    ask: &Ask,
) -> Result<Listing, AllocError>
    ensures bytes { IfOk result (λ listing. listing.bytes.items ≡ response_bytes form (response_to state.now ask.now)) }
    ensures positive { IfOk result (λ listing. listing.is_positive ≡ is_positive (response_to state.now ask.now)) }
{
    let response = answer_to(state, ask);
    let output = Output::new(alloc, form).with_plain(&response)?;
    Ok(Listing {
        bytes: output.into_bytes(),
        is_positive: response.is_positive(),
    })
}
