//! The row of an answer to a request or a check.
ghost use Rattle.std.specs.Prelude.{◌≡◌, codes, OnOk};
ghost use Rattle.mls_requests.specs.ReasonWords.{reason_word};
ghost use Rattle.mls_requests.specs.ReplyWords.{reply_word};
ghost use Rattle.mls_rows.specs.Members.{Adds, number_member, text_member};
ghost use Rattle.mls_explain_text.specs.AnswerMembers.{behind_members, held_member, reply_members, response_members};
ghost use Rattle.mls_explain_text.specs.Responses.{response_line};

use crate::response::{Response, push_response};
use json::Writer;
use mls_requests::{Reason, Reply, ReplyWord};
use mls_rows::{Plain, write_number, write_text};
use mls_tables::ObjectId;
use std::alloc::AllocError;

/// Writes the first word of a reply.
fn write_word(writer: &mut Writer, word: ReplyWord) -> Result<(), AllocError>
    ensures { Adds result writer.old writer.new (text_member (codes "reply") (reply_word word)) }
{
    write_text(writer, "reply", word.word())
}

/// Writes the number of an object that was made.
fn write_created(writer: &mut Writer, o: ObjectId) -> Result<(), AllocError>
    ensures { Adds result writer.old writer.new (number_member (codes "created") o) }
{
    write_number(writer, "created", u64::from(o.number()))
}

/// Writes the reason of a denial.
pub(crate) fn write_reason(writer: &mut Writer, reason: Reason) -> Result<(), AllocError>
    ensures { Adds result writer.old writer.new (text_member (codes "reason") (reason_word reason)) }
{
    write_text(writer, "reason", reason.word())
}

/// Writes what a reply says behind its first word.
fn write_behind(writer: &mut Writer, reply: &Reply) -> Result<(), AllocError>
    ensures { Adds result writer.old writer.new (behind_members reply.now) }
{
    match reply {
        Reply::Created(o) => write_created(writer, *o),
        Reply::No(reason) => write_reason(writer, *reason),
        Reply::Yes | Reply::Undefined => Ok(()),
    }
}

/// Writes a reply.
///
/// # Errors
/// `AllocError` where an allocation failed.
pub fn write_reply(writer: &mut Writer, reply: &Reply) -> Result<(), AllocError>
    ensures { Adds result writer.old writer.new (reply_members reply.now) }
{
    write_word(writer, ReplyWord::of(*reply))?;
    write_behind(writer, reply)
}

/// Writes whether an access is held.
fn write_held(writer: &mut Writer, held: bool) -> Result<(), AllocError>
    ensures { Adds result writer.old writer.new (held_member held) }
{
    writer.key("held")?;
    writer.boolean(held)
}

impl Plain for Response {
    ghost line = { response_line };

    ghost members = { response_members };

    fn push_line(&self, text: &mut String) -> Result<(), AllocError> {
        push_response(text, self)
    }

    fn write_members(&self, writer: &mut Writer) -> Result<(), AllocError> {
        match self {
            Response::Replied(reply) => write_reply(writer, reply),
            Response::Held(held) => write_held(writer, *held),
        }
    }
}
