//! Replies without what they tell, and the words for them.
ghost use Rattle.std.specs.Prelude.{◌≡◌};
ghost use Rattle.std.specs.Str.{bytes_eq};
ghost use Rattle.mls_requests.specs.ReplyWords.{reply_word, read_reply, word_of_reply};

use crate::reply::Reply;

/// Which reply it is, without the object or the reason: the first word of a reply's text.
#[derive(Clone, Copy, Debug, PartialEq, Eq)]
pub enum ReplyWord {
    Yes,
    Created,
    No,
    Undefined,
}

impl ReplyWord {
    /// All of them, in the order in which a word is looked for.
    const ALL: [ReplyWord; 4] = [
        ReplyWord::Yes,
        ReplyWord::Created,
        ReplyWord::No,
        ReplyWord::Undefined,
    ];

    /// Which reply this is.
    pub fn of(reply: Reply) -> ReplyWord
        ensures { result ≡ word_of_reply reply }
    {
        match reply {
            Reply::Yes => ReplyWord::Yes,
            Reply::Created(_) => ReplyWord::Created,
            Reply::No(_) => ReplyWord::No,
            Reply::Undefined => ReplyWord::Undefined,
        }
    }

    /// The word of the reply.
    pub fn word(self) -> &'static str
        ensures { result.now ≡ reply_word self }
    {
        match self {
            ReplyWord::Yes => "yes",
            ReplyWord::Created => "created",
            ReplyWord::No => "no",
            ReplyWord::Undefined => "undefined",
        }
    }

    /// Whether this is its word.
    fn is_named(self, word: &[u8]) -> bool
        ensures { result ≡ bytes_eq word.now (reply_word self) }
    {
        word == self.word().as_bytes()
    }

    /// The reply that begins with this word, where one does.
    pub fn read(word: &[u8]) -> Option<ReplyWord>
        ensures { result ≡ read_reply word.now }
    {
        ReplyWord::ALL
            .iter()
            .find(|reply| reply.is_named(word))
            .copied()
    }
}
