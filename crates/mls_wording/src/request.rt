//! Requests.
ghost use Rattle.std.specs.Prelude.{◌≡◌, ◌++◌, ◌∷◌, string_bytes, OnErr, OnOk};
ghost use Rattle.mls_labels.specs.LabelText.{Extends};
ghost use Rattle.mls_requests.specs.ActionWords.{action_word, word_of_action};
ghost use Rattle.mls_wording.specs.RequestText.{action_text, request_text};

use crate::name::push_subject;
use crate::operands::push_operands;
use mls_lines::Names;
use mls_requests::{Action, ActionWord, Request};
use std::alloc::AllocError;

/// Appends an action as a script line has it: its word and its operands.
#[tactic(auto, using(crate::proofs::Extending::stays, crate::proofs::Extending::grows))]
fn push_action(text: &mut String, names: &Names, action: &Action) -> Result<(), AllocError>
    ensures ok { OnOk result (string_bytes text.new ≡ string_bytes text.old ++ action_text names.now action.now) }
    ensures err { OnErr result (Extends (string_bytes text.old) (string_bytes text.new)) }
{
    text.push_str(ActionWord::of(*action).word())?;
    text.push_str(" ")?;
    push_operands(text, names, action)
}

/// Appends a request as a script line has it, with the names of the start: the subject, the word of the action and its
/// operands, with one space between each two.
///
/// # Errors
/// `AllocError` where an allocation failed. A part of it may then stand at the end of the text.
#[tactic(auto, using(crate::proofs::Extending::stays, crate::proofs::Extending::grows))]
pub fn push_request(text: &mut String, names: &Names, request: &Request) -> Result<(), AllocError>
    ensures ok { OnOk result
        (string_bytes text.new ≡ string_bytes text.old ++ request_text names.now request.now) }
    ensures err { OnErr result (Extends (string_bytes text.old) (string_bytes text.new)) }
{
    push_subject(text, names, request.subject)?;
    text.push_str(" ")?;
    push_action(text, names, &request.action)
}
