//! Why the words of a command ask for nothing, though the command has such words.
use mls_terminal::{NO_MEMORY, refused};
use std::process::ExitCode;

/// How a reply may begin.
const REPLIES: &str = "yes, no, created, undefined, 'created N' or 'no REASON'";

/// What is said of a word that is no setting.
const NO_SETTING: &str =
    "not NAME.MEMBER=VALUE; members: maximum, current, integrity, trusted (true or false); of an \
    object security, integrity";

/// An option whose word has a form of its own.
#[derive(Clone, Copy)]
pub(crate) enum FormedOption {
    Since,
    Until,
    When,
    From,
    Digest,
}

impl FormedOption {
    /// The option's name.
    pub(crate) fn name(self) -> &'static str {
        match self {
            FormedOption::Since => "since",
            FormedOption::Until => "until",
            FormedOption::When => "when",
            FormedOption::From => "from",
            FormedOption::Digest => "digest",
        }
    }
}

/// What the number of an option counts.
#[derive(Clone, Copy)]
pub(crate) enum NumberSort {
    Entry,
    Session,
    Segment,
}

impl NumberSort {
    /// What such a number is.
    fn text(self) -> &'static str {
        match self {
            NumberSort::Entry => "the number of an entry; the first entry is 0",
            NumberSort::Session => "the number of a session; write it as 0 or 7",
            NumberSort::Segment => "from 4096 to 268435456 bytes",
        }
    }
}

/// Why the words of a command ask for nothing.
#[derive(Clone, Copy)]
pub(crate) enum WordsFault<'a> {
    /// The word of this option is no number of this sort.
    Number {
        option: &'a str,
        sort: NumberSort,
        word: &'a str,
    },
    /// No reply begins with these words.
    Reply(&'a str),
    /// The number of the first entry that is asked for is above that of the last.
    Above {
        first: u64,
        last: u64,
    },
    /// The word of this option is no time.
    Time {
        option: FormedOption,
        word: &'a str,
    },
    /// The word of this option is a time of no zone.
    Zone {
        option: FormedOption,
        word: &'a str,
    },
    /// The word of the option `--on` is no date.
    Day(&'a str),
    /// The time from which on is asked is behind the last one.
    Behind {
        since: &'a str,
        until: &'a str,
    },
    /// The word of this option is no digest.
    Digest {
        option: FormedOption,
        word: &'a str,
    },
    /// This word is no setting of a member.
    Setting(&'a str),
    /// This option asks for some entries of a journal, and there is none.
    NoJournal(&'a str),
    /// There is no command of this name.
    Command(&'a str),
    /// An allocation failed.
    Memory,
}

/// Tells why words ask for nothing.
pub(crate) fn words_refused(rt: &HostRuntime, fault: WordsFault<'_>) -> ExitCode {
    let _ = match fault {
        WordsFault::Number { option, sort, word } => {
            let due = sort.text();
            eprintln!(rt; "mls: --{option} {word}: not {due}")
        }
        WordsFault::Reply(words) => eprintln!(rt;
            "mls: --reply {words}: begins no reply: {REPLIES}"
        ),
        WordsFault::Above { first, last } => eprintln!(rt;
            "mls: --from {first}: above --to {last}"
        ),
        WordsFault::Time { option, word } => {
            let name = option.name();
            eprintln!(rt;
                "mls: --{name} {word}: not a time; write it as 2026-11-27T12:12:26Z or 2026-11-27"
            )
        }
        WordsFault::Zone { option, word } => {
            let name = option.name();
            eprintln!(rt; "mls: --{name} {word}: no zone: add Z or +01:00")
        }
        WordsFault::Day(word) => eprintln!(rt;
            "mls: --on {word}: not a date; write it as 2026-11-27"
        ),
        WordsFault::Behind { since, until } => eprintln!(rt;
            "mls: --since {since}: behind --until {until}"
        ),
        WordsFault::Digest { option, word } => {
            let name = option.name();
            eprintln!(rt; "mls: --{name} {word}: no digest")
        }
        WordsFault::Setting(word) => eprintln!(rt; "mls: --set {word}: {NO_SETTING}"),
        WordsFault::NoJournal(option) => eprintln!(rt; "mls: --{option}: no JOURNAL"),
        WordsFault::Command(name) => eprintln!(rt; "mls: {name}: no command"),
        WordsFault::Memory => return refused(rt, NO_MEMORY, 1),
    };
    ExitCode::from(2)
}
