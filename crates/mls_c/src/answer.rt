//! Replies and entries in numbers.
ghost use Rattle.std.specs.Prelude.{◌≡◌};
ghost use Rattle.mls_c.specs.Answers.{number_of_reason, number_of_reply, object_of_reply, answer_of, numbers_of_entry};

use crate::request::RequestNumbers;
use mls_requests::{Entry, Reason, Reply};

/// The answer to a request: the number of its entry, the reply, and the object that was made, if one was.
#[repr(C)]
#[derive(Clone, Copy)]
pub struct Answer {
    pub number: u64,
    pub reply: u16,
    pub object: u16,
}

/// An entry of the journal: its number, the session, the reply with the object that was made, and the request.
#[repr(C)]
#[derive(Clone, Copy)]
pub struct EntryNumbers {
    pub number: u64,
    pub session: u32,
    pub reply: u16,
    pub object: u16,
    pub request: RequestNumbers,
}

/// The number of a reason, from 1 on.
pub(crate) fn number_of_reason(reason: Reason) -> u16
    ensures { result ≡ number_of_reason reason }
{
    1 + reason.place()
}

/// The number of a reply.
pub(crate) fn number_of_reply(reply: &Reply) -> u16
    ensures { result ≡ number_of_reply reply.now }
{
    match reply {
        Reply::Yes => 0,
        Reply::Created(_) => 1,
        Reply::Undefined => 2,
        Reply::No(reason) => 16 + number_of_reason(*reason),
    }
}

/// The object that a reply says was made, or 0.
fn object_of_reply(reply: &Reply) -> u16
    ensures { result ≡ object_of_reply reply.now }
{
    match reply {
        Reply::Created(object) => object.number(),
        Reply::Yes | Reply::Undefined | Reply::No(_) => 0,
    }
}

impl Answer {
    /// The answer of an entry of this number with this reply.
    pub(crate) fn of(number: u64, reply: &Reply) -> Answer
        ensures { result ≡ answer_of number reply.now }
    {
        Answer {
            number,
            reply: number_of_reply(reply),
            object: object_of_reply(reply),
        }
    }
}

impl EntryNumbers {
    /// An entry in numbers.
    pub(crate) fn of(entry: &Entry) -> EntryNumbers
        ensures { result ≡ numbers_of_entry entry.now }
    {
        EntryNumbers {
            number: entry.number,
            session: entry.session,
            reply: number_of_reply(&entry.reply),
            object: object_of_reply(&entry.reply),
            request: RequestNumbers::of(&entry.request),
        }
    }
}
