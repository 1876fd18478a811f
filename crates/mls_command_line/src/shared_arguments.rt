//! The arguments that several commands have.
use crate::argument::{Argument, Kind};

/// The operand `START`.
pub(crate) const START: Argument = Argument {
    name: "START",
    kind: Kind::Operand,
    help: "The start file, JSON",
};

/// The operand `JOURNAL`.
pub(crate) const JOURNAL: Argument = Argument {
    name: "JOURNAL",
    kind: Kind::Operand,
    help: "The journal, as mls run and mls serve write it",
};

/// The option `--journal` of a question.
pub(crate) const OF_JOURNAL: Argument = Argument {
    name: "journal",
    kind: Kind::Text("FILE"),
    help: "A journal of START, whose state is looked at; without it, the state that START opens with",
};

/// The option `--at` of a question.
pub(crate) const AT: Argument = Argument {
    name: "at",
    kind: Kind::EntryOfJournal,
    help: "The state before entry N, counted from 0; without it, after the last entry",
};

/// The option `--marks` of a question about the journal of the option `--journal`.
pub(crate) const MARKS_OF_JOURNAL: Argument = Argument {
    name: "marks",
    kind: Kind::TextBeside("MARKS", "journal"),
    help: "The marks of the journal, which must agree with it",
};

/// The option `--marks` of a question about the journal of the operand `JOURNAL`.
pub(crate) const MARKS_OF_OPERAND: Argument = Argument {
    name: "marks",
    kind: Kind::Text("MARKS"),
    help: "The marks of JOURNAL, which must agree with it",
};

/// The option `--when` of a question.
pub(crate) const WHEN: Argument = Argument {
    name: "when",
    kind: Kind::TimeForAt,
    help: "The state after the last batch in MARKS whose time is TIME or earlier; TIME as 2026-11-27T12:12:26+01:00, \
        or a date as 2026-11-27, in UTC",
};

/// The option `--after` of a question.
pub(crate) const AFTER: Argument = Argument {
    name: "after",
    kind: Kind::Text("MAP"),
    help: "The map that START was made with, by mls state --start --map: its objects are told by the names that they \
        had",
};
