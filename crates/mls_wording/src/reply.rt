//! Replies.
ghost use Rattle.std.specs.Prelude.{◌≡◌, ◌++◌, string_bytes, OnErr, OnOk};
ghost use Rattle.mls_labels.specs.LabelText.{Extends};
ghost use Rattle.mls_requests.specs.ReplyWords.{reply_text};

use crate::number::push_number;
use mls_requests::{Reply, ReplyWord};
use std::alloc::AllocError;

/// Appends a reply: `yes`, `created` and the new object's number, `no` and the reason, or `undefined`.
///
/// # Errors
/// `AllocError` where an allocation failed. A part of it may then stand at the end of the text.
#[tactic(auto, using(crate::proofs::Extending::stays, crate::proofs::Extending::grows))]
pub fn push_reply(text: &mut String, reply: Reply) -> Result<(), AllocError>
    ensures ok { OnOk result (string_bytes text.new ≡ string_bytes text.old ++ reply_text reply) }
    ensures err { OnErr result (Extends (string_bytes text.old) (string_bytes text.new)) }
{
    text.push_str(ReplyWord::of(reply).word())?;
    match &reply {
        Reply::Yes | Reply::Undefined => Ok(()),
        Reply::Created(object) => {
            text.push_str(" ")?;
            push_number(text, u64::from(object.number()))
        }
        Reply::No(reason) => {
            text.push_str(" ")?;
            text.push_str(reason.word())
        }
    }
}
