//! The replies to requests.
ghost use Rattle.std.specs.Prelude.{Some};
ghost use Rattle.mls_requests.specs.ReplyWords.{reply_text};

use crate::reason::Reason;
use crate::reply_word::ReplyWord;
use mls_tables::ObjectId;
use std::fmt;

/// The answer to a request.
#[derive(Clone, Copy, Debug, PartialEq, Eq)]
pub enum Reply {
    /// Granted.
    Yes,
    /// Granted: an object of this number was made.
    Created(ObjectId),
    /// Denied.
    No(Reason),
    /// The request names a subject, an object or a label that isn't there.
    Undefined,
}

/// `yes`, `created` and the new object's number, `no` and the reason, or `undefined`.
impl fmt::Display for Reply {
    ghost output = { λ reply. Some (reply_text reply) };

    fn fmt<W: fmt::Write>(&self, f: &mut fmt::Formatter<W>) -> fmt::Result {
        f.write_str(ReplyWord::of(*self).word())?;
        match self {
            Reply::Yes | Reply::Undefined => Ok(()),
            Reply::Created(object) => {
                let number = object.number();
                write!(f, " {number}")
            }
            Reply::No(reason) => {
                f.write_str(" ")?;
                f.write_str(reason.word())
            }
        }
    }
}
