//! The arguments of what compares and what reports.
use crate::argument::{Argument, Kind};
use crate::shared_arguments::{JOURNAL, MARKS_OF_OPERAND, START};

/// The arguments of `compare`.
pub(crate) const COMPARE_ARGUMENTS: [Argument; 13] = [
    Argument {
        name: "set",
        kind: Kind::TextsWithout("SETTING", "could"),
        help: "In place of START2: START1 with a member set, NAME.MEMBER=VALUE as bob.maximum=C: maximum, current, \
            integrity or trusted of a subject, security or integrity of an object. It may be given again",
    },
    Argument {
        name: "broken",
        kind: Kind::FlagWithout("could"),
        help: "Only what START1 grants and START2 would not",
    },
    Argument {
        name: "summary",
        kind: Kind::FlagWithout("could"),
        help: "Prints how much differs, by subject and replies, and by the reason for which START2 denies",
    },
    Argument {
        name: "could",
        kind: Kind::FlagWithout("JOURNAL"),
        help: "Prints instead which accesses untrusted subjects could ever get by one of the starts alone",
    },
    Argument {
        name: "from",
        kind: Kind::Entry,
        help: "Of the entries of JOURNAL those from number N on; START2 is asked the others too",
    },
    Argument {
        name: "to",
        kind: Kind::Entry,
        help: "Of the entries of JOURNAL those to number N",
    },
    MARKS_OF_OPERAND,
    Argument {
        name: "since",
        kind: Kind::Time,
        help: "Of the entries of JOURNAL those from the first batch in MARKS on whose time is TIME or later; TIME as \
            2026-11-27T12:12:26+01:00, or a date as 2026-11-27, in UTC",
    },
    Argument {
        name: "until",
        kind: Kind::Time,
        help: "Of the entries of JOURNAL those to the end of the last batch in MARKS whose time is TIME or earlier; \
            TIME as for --since, a date to its end",
    },
    Argument {
        name: "on",
        kind: Kind::Day,
        help: "Of the entries of JOURNAL those of this day, in UTC: as --since and --until DATE",
    },
    Argument {
        name: "START1",
        kind: Kind::Operand,
        help: "The start file to compare with, JSON",
    },
    Argument {
        name: "START2",
        kind: Kind::Unless("set"),
        help: "The start file that is compared, JSON; with --set a journal of START1 in its place",
    },
    Argument {
        name: "JOURNAL",
        kind: Kind::OptionalWithout("set"),
        help: "A journal of START1, whose requests are asked of both; without it, all gets in their openings are",
    },
];

/// The arguments of `report`.
pub(crate) const REPORT_ARGUMENTS: [Argument; 10] = [
    Argument {
        name: "at",
        kind: Kind::EntryOrRange,
        help: "As it was before entry N, counted from 0",
    },
    Argument {
        name: "from",
        kind: Kind::Entry,
        help: "Of the entries from number N on, and of the state before it and later ones",
    },
    Argument {
        name: "to",
        kind: Kind::Entry,
        help: "Of the entries to number N, and of the state after it and earlier ones",
    },
    MARKS_OF_OPERAND,
    Argument {
        name: "when",
        kind: Kind::TimeOrRange,
        help: "As it was after the last batch in MARKS whose time is TIME or earlier; TIME as \
            2026-11-27T12:12:26+01:00, or a date as 2026-11-27, in UTC",
    },
    Argument {
        name: "since",
        kind: Kind::Time,
        help: "Of the entries from the first batch in MARKS on whose time is TIME or later, and of the state at TIME \
            and later ones; TIME as for --when",
    },
    Argument {
        name: "until",
        kind: Kind::Time,
        help: "Of the entries to the end of the last batch in MARKS whose time is TIME or earlier, and of the state \
            after it and earlier ones; TIME as for --when, a date to its end",
    },
    Argument {
        name: "on",
        kind: Kind::Day,
        help: "Of the entries and states of this day, in UTC: as --since and --until DATE",
    },
    START,
    JOURNAL,
];
