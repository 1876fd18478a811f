//! Actions without what they are about, and the words for them.
ghost use Rattle.std.specs.Prelude.{◌≡◌};
ghost use Rattle.std.specs.Str.{bytes_eq};
ghost use Rattle.mls_requests.specs.ActionWords.{action_word, read_action, word_of_action};

use crate::action::Action;
use mls_tables::Mode;

/// Which action it is, without its operands: an access is asked for by a word of its own for each mode.
#[derive(Clone, Copy, Debug, PartialEq, Eq)]
pub enum ActionWord {
    Get(Mode),
    Release,
    Give,
    Rescind,
    Create,
    Delete,
    Level,
    Relabel,
}

impl ActionWord {
    /// All of them, in the order in which a word is looked for.
    const ALL: [ActionWord; 11] = [
        ActionWord::Get(Mode::Execute),
        ActionWord::Get(Mode::Read),
        ActionWord::Get(Mode::Append),
        ActionWord::Get(Mode::Write),
        ActionWord::Release,
        ActionWord::Give,
        ActionWord::Rescind,
        ActionWord::Create,
        ActionWord::Delete,
        ActionWord::Level,
        ActionWord::Relabel,
    ];

    /// Which action this is.
    pub fn of(action: Action) -> ActionWord
        ensures { result ≡ word_of_action action }
    {
        match action {
            Action::Get(mode, _) => ActionWord::Get(mode),
            Action::Release(..) => ActionWord::Release,
            Action::Give(..) => ActionWord::Give,
            Action::Rescind(..) => ActionWord::Rescind,
            Action::Create(..) => ActionWord::Create,
            Action::Delete(_) => ActionWord::Delete,
            Action::SubjectLevel(_) => ActionWord::Level,
            Action::ObjectLevel(..) => ActionWord::Relabel,
        }
    }

    /// The word of the action.
    pub fn word(self) -> &'static str
        ensures { result.now ≡ action_word self }
    {
        match self {
            ActionWord::Get(Mode::Execute) => "get-execute",
            ActionWord::Get(Mode::Read) => "get-read",
            ActionWord::Get(Mode::Append) => "get-append",
            ActionWord::Get(Mode::Write) => "get-write",
            ActionWord::Release => "release",
            ActionWord::Give => "give",
            ActionWord::Rescind => "rescind",
            ActionWord::Create => "create",
            ActionWord::Delete => "delete",
            ActionWord::Level => "level",
            ActionWord::Relabel => "relabel",
        }
    }

    /// Whether this is its word.
    fn is_named(self, word: &[u8]) -> bool
        ensures { result ≡ bytes_eq word.now (action_word self) }
    {
        word == self.word().as_bytes()
    }

    /// The action that has this word, where one has it.
    pub fn read(word: &[u8]) -> Option<ActionWord>
        ensures { result ≡ read_action word.now }
    {
        ActionWord::ALL
            .iter()
            .find(|action| action.is_named(word))
            .copied()
    }
}
