//! What the commands are asked for that answer questions about start files and journals.
use mls_listings::{Form, Words};
use mls_marks::Time;
use mls_settings::Setting;
use mls_spans::{States, Words as HeldFilter};
use mls_tables::Mode;

/// The files of a question about a state: that of a start, or the one that a journal leads to.
#[derive(Clone, Copy)]
pub struct Source<'a> {
    pub start: &'a str,
    /// The file of a journal of the start, where one is replayed.
    pub journal: Option<&'a str>,
    /// The number of the entry before which the state is looked at; without it, after the last.
    pub at: Option<u64>,
    /// The file of the journal's marks, where there is one.
    pub marks: Option<&'a str>,
    /// The time of the last batch after which the state is looked at, in place of a number.
    pub when: Option<Time>,
    /// The operand behind the start's, where there is one that names no journal: else nothing.
    pub beside: &'a str,
}

/// Which subjects act, where it is asked what could ever come about.
#[derive(Clone, Copy)]
pub enum Actors<'a> {
    /// All that are not trusted.
    Untrusted,
    /// All.
    All,
    /// Those that words with commas between them name.
    By(&'a str),
    /// All but those.
    Without(&'a str),
}

/// What `flow` is asked for, whatever some subjects do.
#[derive(Clone, Copy)]
pub struct FlowWords<'a> {
    pub actors: Actors<'a>,
    /// The object whose content flows.
    pub from: &'a str,
    /// The one place that is asked about; without it, all.
    pub to: Option<&'a str>,
    /// Whether that is to be an object.
    pub is_object: bool,
}

/// What `journal` is asked for.
#[derive(Clone, Copy)]
pub struct JournalWords<'a> {
    pub start: &'a str,
    pub journal: &'a str,
    pub filter: Words<'a>,
    pub form: Form,
    /// Whether only entries are asked for that trust granted.
    pub is_trusted: bool,
    /// Whether each entry is explained, which is listed in lines.
    pub is_explained: bool,
    /// The file of the journal's marks, where there is one.
    pub marks: Option<&'a str>,
    /// The time of the first batch of which entries are asked for.
    pub since: Option<Time>,
    /// The time of the last batch of which entries are asked for.
    pub until: Option<Time>,
    /// The file of the map that the start was made with, where objects are told by the names that it has.
    pub after: Option<&'a str>,
}

/// The times of marks by which states of a journal are asked about, beside the numbers of entries.
#[derive(Clone, Copy)]
pub struct Times {
    /// The time from which on states are asked about.
    pub since: Option<Time>,
    /// The time of the last batch after which one is.
    pub until: Option<Time>,
    /// The time of the last batch after which the only state is that is asked about.
    pub when: Option<Time>,
}

/// What `held` is asked for.
#[derive(Clone, Copy)]
pub struct HeldWords<'a> {
    pub start: &'a str,
    pub journal: &'a str,
    /// The file of the journal's marks, where there is one.
    pub marks: Option<&'a str>,
    /// Which spans are asked for: of which accesses, and by number of which states.
    pub filter: HeldFilter<'a>,
    /// Of which states by time.
    pub times: Times,
    /// The file of the map that the start was made with, where objects are told by the names that it has.
    pub after: Option<&'a str>,
}

/// What `who --ever` is asked for.
#[derive(Clone, Copy)]
pub struct EverWords<'a> {
    pub start: &'a str,
    pub journal: &'a str,
    /// The file of the journal's marks, where there is one.
    pub marks: Option<&'a str>,
    pub object: &'a str,
    pub mode: Option<Mode>,
    /// The states that are asked about by number.
    pub states: States,
    /// Those that are asked about by time.
    pub times: Times,
}

/// What `usage` is asked for.
#[derive(Clone, Copy)]
pub struct UsageWords<'a> {
    pub start: &'a str,
    pub journal: &'a str,
    /// The file of the journal's marks, where there is one.
    pub marks: Option<&'a str>,
    /// The states whose permissions are asked for by number.
    pub states: States,
    /// Those whose permissions are asked for by time.
    pub times: Times,
    /// The file of the map that the start was made with, where objects are told by the names that it has.
    pub after: Option<&'a str>,
    /// The subject whose permissions are asked for; without it, all.
    pub subject: Option<&'a str>,
    /// The object the permissions on which are asked for; without it, all.
    pub object: Option<&'a str>,
    /// Whether only those have lines that were never granted.
    pub never: bool,
    /// Whether the start is asked for without those, as a file.
    pub tighten: bool,
}

/// What `compare` is asked for.
#[derive(Drop)]
pub struct CompareWords<'a> {
    pub first: &'a str,
    /// The second start file, where the first isn't compared with itself as settings have it.
    pub second: Option<&'a str>,
    pub settings: Vec<Setting<'a>>,
    /// The file of a journal of the first start, where its requests are asked of both.
    pub journal: Option<&'a str>,
    /// The file of the journal's marks, where there is one.
    pub marks: Option<&'a str>,
    /// Whether it is asked what could come about by one of them alone, instead.
    pub is_could: bool,
    /// Whether only that is told of that the first grants and the second doesn't.
    pub is_broken: bool,
    /// Whether it is summed up.
    pub is_summed: bool,
    /// The number of the first entry that is told of.
    pub from: Option<u64>,
    /// The number of the last entry that is told of.
    pub to: Option<u64>,
    /// Of which entries by time.
    pub times: Times,
}

/// What `report` is asked for.
#[derive(Clone, Copy)]
pub struct ReportWords<'a> {
    pub start: &'a str,
    pub journal: &'a str,
    /// The file of the journal's marks, where there is one.
    pub marks: Option<&'a str>,
    /// The number of the entry before which the journal is to end, where it is told.
    pub at: Option<u64>,
    /// The states that are told of by number.
    pub states: States,
    /// Those that are told of by time.
    pub times: Times,
}

/// A question about start files or journals.
#[derive(Drop)]
pub enum Question<'a> {
    /// What a line would be answered.
    Ask {
        source: Source<'a>,
        line: &'a str,
    },
    /// Why a line, or an entry of the journal, is answered as it is.
    Explain {
        source: Source<'a>,
        line: Option<&'a str>,
    },
    /// Who may get an object, in all modes or in this one.
    Who {
        source: Source<'a>,
        object: &'a str,
        mode: Option<&'a str>,
    },
    /// Whether the get of a line could ever come about, whatever some subjects do.
    Could {
        source: Source<'a>,
        actors: Actors<'a>,
        line: &'a str,
    },
    /// What becomes of the accesses to an object, in all modes or in this one, whatever some subjects do.
    WhoCould {
        source: Source<'a>,
        actors: Actors<'a>,
        object: &'a str,
        mode: Option<&'a str>,
    },
    /// Where content of an object could ever flow, whatever some subjects do.
    Flow {
        source: Source<'a>,
        words: FlowWords<'a>,
    },
    /// Who could ever get an object over a journal.
    WhoEver(EverWords<'a>),
    /// What subjects may change.
    Powers {
        source: Source<'a>,
        /// The subject that is asked for; without it, all.
        subject: Option<&'a str>,
        /// Whether only labels of objects are asked for that don't dominate the present ones.
        downgrades: bool,
    },
    /// All that there is to tell of a subject or of an object.
    About {
        source: Source<'a>,
        /// The word that names it.
        name: &'a str,
        /// Whether it is to name an object.
        is_object: bool,
    },
    /// What is wrong with a start file, or suspicious in it or in a state.
    Lint {
        source: Source<'a>,
    },
    /// The labels of a state and their order.
    Lattice {
        source: Source<'a>,
    },
    /// Entries of a journal.
    Journal(JournalWords<'a>),
    /// The state that a journal leads to.
    State {
        source: Source<'a>,
        /// Whether it is written as a start file.
        is_start: bool,
        /// The file that is then made, which tells the old numbers of its objects, where one is.
        map: Option<&'a str>,
    },
    /// Who held what over a journal.
    Held(HeldWords<'a>),
    /// How the permissions over a journal were used.
    Usage(UsageWords<'a>),
    /// How a second start differs from a first one, or from its journal's replies.
    Compare(CompareWords<'a>),
    /// A page about a journal.
    Report(ReportWords<'a>),
}
