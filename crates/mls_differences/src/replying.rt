//! Replies of two starts to one request.
ghost use Rattle.std.specs.Prelude.{◌≡◌, ◌++◌, string_bytes, OnOk, codes, true, false};
ghost use Rattle.std.specs.Str.{bytes_eq};
ghost use Rattle.mls_requests.specs.ReasonWords.{reason_word};
ghost use Rattle.mls_requests.specs.ReplyWords.{reply_word, word_of_reply};
ghost use Rattle.mls_requests.specs.declared.reply.Reply.TheVariants.{No};
ghost use Rattle.mls_rows.specs.Members.{Adds, number_member, text_member};
ghost use Rattle.mls_differences.specs.Replying.{agree, replies_members, replies_text, reply_member};
ghost use Rattle.mls_differences.specs.Replying.{both_replies, told_members};

use json::Writer;
use mls_requests::{Reason, Reply, ReplyWord};
use mls_rows::{write_number, write_text};
use std::alloc::AllocError;

/// Whether a reply is a denial for this reason.
pub(crate) fn is_denied(reply: &Reply, reason: Reason) -> bool
    ensures { result ≡ agree (No reason) reply.now }
{
    match reply {
        Reply::No(other) => reason.word().as_bytes() == other.word().as_bytes(),
        Reply::Yes | Reply::Created(_) | Reply::Undefined => false,
    }
}

/// Whether two replies agree: they are equal, but for the numbers of objects that were made.
pub fn agree(first: &Reply, second: &Reply) -> bool
    ensures { result ≡ agree first.now second.now }
{
    match first {
        Reply::Yes => matches!(second, Reply::Yes),
        Reply::Created(_) => matches!(second, Reply::Created(_)),
        Reply::No(reason) => is_denied(second, *reason),
        Reply::Undefined => matches!(second, Reply::Undefined),
    }
}

/// Appends two replies to the request of a line, and ends it.
///
/// # Errors
/// `AllocError` where an allocation failed.
pub fn push_replies(text: &mut String, first: Reply, second: Reply) -> Result<(), AllocError>
    ensures { OnOk result (string_bytes text.new ≡ string_bytes text.old ++ replies_text first second) }
{
    writeln!(text, ": {first} > {second}")
}

/// Writes the number of an object that was made.
fn write_made(writer: &mut Writer, number: u64) -> Result<(), AllocError>
    ensures { Adds result writer.old writer.new (number_member (codes "created") number) }
{
    write_number(writer, "created", number)
}

/// Writes the reason of a denial.
fn write_reason(writer: &mut Writer, reason: Reason) -> Result<(), AllocError>
    ensures { Adds result writer.old writer.new (text_member (codes "reason") (reason_word reason)) }
{
    write_text(writer, "reason", reason.word())
}

/// Writes what a reply tells besides its word.
fn write_told(writer: &mut Writer, reply: &Reply) -> Result<(), AllocError>
    ensures { Adds result writer.old writer.new (told_members reply.now) }
{
    match reply {
        Reply::Created(o) => write_made(writer, u64::from(o.number())),
        Reply::No(reason) => write_reason(writer, *reason),
        Reply::Yes | Reply::Undefined => Ok(()),
    }
}

/// Writes the word of a reply.
fn write_word(writer: &mut Writer, reply: &Reply) -> Result<(), AllocError>
    ensures { Adds result writer.old writer.new (text_member (codes "reply") (reply_word (word_of_reply reply.now))) }
{
    write_text(writer, "reply", ReplyWord::of(*reply).word())
}

/// Writes a member that is a reply.
fn write_reply(writer: &mut Writer, at: &str, reply: &Reply) -> Result<(), AllocError>
    ensures { Adds result writer.old writer.new (reply_member at.now reply.now) }
{
    writer.key(at)?;
    writer.begin_object()?;
    write_word(writer, reply)?;
    write_told(writer, reply)?;
    writer.end_object()
}

/// Writes two members that are replies.
fn write_two_replies(
    writer: &mut Writer,
    keys: (&str, &str),
    first: &Reply,
    second: &Reply,
) -> Result<(), AllocError>
    ensures { Adds result writer.old writer.new
        (both_replies keys.entry.0.now keys.entry.1.now first.now second.now) }
{
    write_reply(writer, keys.0, first)?;
    write_reply(writer, keys.1, second)
}

/// Writes both replies, the first start's first.
///
/// # Errors
/// `AllocError` where an allocation failed.
pub fn write_replies(writer: &mut Writer, first: &Reply, second: &Reply) -> Result<(), AllocError>
    ensures { Adds result writer.old writer.new (replies_members first.now second.now) }
{
    write_two_replies(writer, ("first", "second"), first, second)
}
