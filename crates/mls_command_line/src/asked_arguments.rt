//! The arguments of the questions about a state.
use crate::argument::{Argument, Kind};
use crate::shared_arguments::{AT, MARKS_OF_JOURNAL, OF_JOURNAL, START, WHEN};

/// The arguments of `ask`.
pub(crate) const ASK_ARGUMENTS: [Argument; 6] = [
    OF_JOURNAL,
    AT,
    MARKS_OF_JOURNAL,
    WHEN,
    START,
    Argument {
        name: "LINE",
        kind: Kind::Operand,
        help: "A line as a script has it, quoted, but without variables; #N is object N",
    },
];

/// The arguments of `explain`.
pub(crate) const EXPLAIN_ARGUMENTS: [Argument; 6] = [
    OF_JOURNAL,
    AT,
    MARKS_OF_JOURNAL,
    WHEN,
    START,
    Argument {
        name: "LINE",
        kind: Kind::Unless("at"),
        help: "A line as a script has it, quoted; without it, entry N of --at is explained",
    },
];

/// The arguments of `who`.
pub(crate) const WHO_ARGUMENTS: [Argument; 17] = [
    OF_JOURNAL,
    AT,
    MARKS_OF_JOURNAL,
    WHEN,
    Argument {
        name: "could",
        kind: Kind::FlagWithout("ever"),
        help: "Prints, for each subject and mode, whether it ever comes to that access, whatever those do who act: \
            held is held now; could comes about by some of their requests, once all that is held has been released; \
            never comes about by none. All untrusted subjects act; a subject that does not act is held or never",
    },
    Argument {
        name: "by",
        kind: Kind::SubjectsOfCould("without", "all"),
        help: "These subjects act alone: names, or # and numbers, with commas between them",
    },
    Argument {
        name: "without",
        kind: Kind::SubjectsOfCould("by", "all"),
        help: "All subjects act but these: trusted ones that are not named act, too",
    },
    Argument {
        name: "all",
        kind: Kind::FlagOfCould("by", "without"),
        help: "All subjects act, the trusted too",
    },
    Argument {
        name: "ever",
        kind: Kind::FlagOfStates,
        help: "Prints, for each permission that a state of the journal has, from which entry to which its get would \
            have been granted, at the level that its subject had then: start is before entry 0, on is to the end, and \
            in no state says that no level that it had would do; another one may have done",
    },
    Argument {
        name: "from",
        kind: Kind::EntryOfEver,
        help: "Who could in the state before entry N, counted from 0, or later",
    },
    Argument {
        name: "to",
        kind: Kind::EntryOfEver,
        help: "Who could in the state after entry N, or earlier",
    },
    Argument {
        name: "since",
        kind: Kind::TimeOfEver,
        help: "Who could in the state at TIME, or later; TIME as 2026-11-27T12:12:26+01:00, or a date as 2026-11-27, \
            in UTC",
    },
    Argument {
        name: "until",
        kind: Kind::TimeOfEver,
        help: "Who could in the state after the last batch in MARKS whose time is TIME, or earlier; TIME as \
            2026-11-27T12:12:26+01:00, or a date as 2026-11-27, in UTC, to its end",
    },
    Argument {
        name: "on",
        kind: Kind::DayOfEver,
        help: "Who could on this day, in UTC: as --since and --until DATE",
    },
    START,
    Argument {
        name: "OBJ",
        kind: Kind::Operand,
        help: "An object: its name, or # and its number (quoted)",
    },
    Argument {
        name: "MODE",
        kind: Kind::Mode,
        help: "This mode alone: read and write observe, append and write alter, execute does neither",
    },
];

/// The subjects that act.
const BY: Argument = Argument {
    name: "by",
    kind: Kind::Subjects("without", "all"),
    help: "These subjects act alone: names, or # and numbers, with commas between them; without it, all that are \
        not trusted act",
};

/// The subjects that don't act.
const WITHOUT: Argument = Argument {
    name: "without",
    kind: Kind::Subjects("by", "all"),
    help: "All subjects act but these: trusted ones that are not named act, too",
};

/// That all act.
const ALL: Argument = Argument {
    name: "all",
    kind: Kind::FlagWithoutEither("by", "without"),
    help: "All subjects act, the trusted too",
};

/// The arguments of `could`.
pub(crate) const COULD_ARGUMENTS: [Argument; 9] = [
    OF_JOURNAL,
    AT,
    MARKS_OF_JOURNAL,
    WHEN,
    BY,
    WITHOUT,
    ALL,
    START,
    Argument {
        name: "LINE",
        kind: Kind::Operand,
        help: "A get as a script has it, quoted, but without variables; #N is object N",
    },
];

/// The arguments of `flow`.
pub(crate) const FLOW_ARGUMENTS: [Argument; 11] = [
    OF_JOURNAL,
    AT,
    MARKS_OF_JOURNAL,
    WHEN,
    BY,
    WITHOUT,
    ALL,
    Argument {
        name: "as-object",
        kind: Kind::FlagBeside("TO"),
        help: "TO is the object of this name, though a subject has it, too",
    },
    START,
    Argument {
        name: "FROM",
        kind: Kind::Operand,
        help: "The object whose content flows: its name, or # and its number (quoted)",
    },
    Argument {
        name: "TO",
        kind: Kind::Optional,
        help: "To this place alone: a subject's name, or else an object's: its name, or # and its number (quoted)",
    },
];

/// The arguments of `powers`.
pub(crate) const POWERS_ARGUMENTS: [Argument; 7] = [
    OF_JOURNAL,
    AT,
    MARKS_OF_JOURNAL,
    WHEN,
    Argument {
        name: "down",
        kind: Kind::Flag,
        help: "Which objects may be given labels that don't dominate the present ones, and which labels, alone",
    },
    START,
    Argument {
        name: "SUBJ",
        kind: Kind::Optional,
        help: "This subject alone: its name, or # and its number (quoted)",
    },
];

/// The arguments of `about`.
pub(crate) const ABOUT_ARGUMENTS: [Argument; 7] = [
    OF_JOURNAL,
    AT,
    MARKS_OF_JOURNAL,
    WHEN,
    Argument {
        name: "as-object",
        kind: Kind::Flag,
        help: "The object of this name, though a subject has it, too",
    },
    START,
    Argument {
        name: "NAME",
        kind: Kind::Operand,
        help: "A subject's name, or else an object's: its name, or # and its number (quoted)",
    },
];

/// The arguments of `lint`.
pub(crate) const LINT_ARGUMENTS: [Argument; 5] = [OF_JOURNAL, AT, MARKS_OF_JOURNAL, WHEN, START];

/// The arguments of `lattice`.
pub(crate) const LATTICE_ARGUMENTS: [Argument; 5] = [OF_JOURNAL, AT, MARKS_OF_JOURNAL, WHEN, START];
