//! The arguments of the questions about a journal.
use crate::argument::{Argument, Kind};
use crate::shared_arguments::{AFTER, JOURNAL, MARKS_OF_OPERAND, START, WHEN};

/// The arguments of `journal`.
pub(crate) const JOURNAL_ARGUMENTS: [Argument; 18] = [
    Argument {
        name: "subject",
        kind: Kind::Text("SUBJ"),
        help: "Entries about it: what it asked, and the permissions given to it or rescinded",
    },
    Argument {
        name: "by",
        kind: Kind::Text("SUBJ"),
        help: "Entries that it asked",
    },
    Argument {
        name: "object",
        kind: Kind::Text("OBJ"),
        help: "Entries that name it or made it",
    },
    Argument {
        name: "session",
        kind: Kind::Session,
        help: "Entries of session K",
    },
    Argument {
        name: "reply",
        kind: Kind::Text("WORDS"),
        help: "Entries whose reply begins with these words: yes, created, 'created 4', no, 'no star', undefined",
    },
    Argument {
        name: "from",
        kind: Kind::Entry,
        help: "Entries from number N on, which is at most that of --to",
    },
    Argument {
        name: "to",
        kind: Kind::Entry,
        help: "Entries to number N",
    },
    MARKS_OF_OPERAND,
    Argument {
        name: "since",
        kind: Kind::Time,
        help: "Entries from the first batch in MARKS on whose time is TIME or later, or else those behind all batches; \
            TIME as 2026-11-27T12:12:26+01:00, or a date as 2026-11-27, in UTC",
    },
    Argument {
        name: "until",
        kind: Kind::Time,
        help: "Entries to the end of the last batch in MARKS whose time is TIME or earlier; TIME as \
            2026-11-27T12:12:26+01:00, or a date as 2026-11-27, in UTC, to its end",
    },
    Argument {
        name: "on",
        kind: Kind::Day,
        help: "Entries of the batches of this day, in UTC: as --since and --until DATE",
    },
    Argument {
        name: "summary",
        kind: Kind::Flag,
        help: "Prints how many there are, by the subject that asked and the reply, and by reason",
    },
    Argument {
        name: "json",
        kind: Kind::Flag,
        help: "Prints a JSON object for each, in a line; of the summary one object",
    },
    Argument {
        name: "explain",
        kind: Kind::FlagWithoutEither("summary", "json"),
        help: "Prints under each why it has its reply, as mls explain --at does of its number",
    },
    Argument {
        name: "used-trust",
        kind: Kind::FlagWithout("explain"),
        help: "Entries that were granted, and would not have been if the subject that asked were not trusted",
    },
    AFTER,
    START,
    JOURNAL,
];

/// The arguments of `state`.
pub(crate) const STATE_ARGUMENTS: [Argument; 7] = [
    Argument {
        name: "at",
        kind: Kind::Entry,
        help: "The state before entry N, counted from 0; without it, after the last entry",
    },
    MARKS_OF_OPERAND,
    WHEN,
    Argument {
        name: "start",
        kind: Kind::Flag,
        help: "Prints a start file that opens with the state, its objects numbered anew: for a new journal",
    },
    Argument {
        name: "map",
        kind: Kind::TextBeside("FILE", "start"),
        help: "Makes FILE, which isn't to be there yet, a line for each object: its new number, its number in JOURNAL, \
            and its name there",
    },
    START,
    JOURNAL,
];

/// The arguments of `held`.
pub(crate) const HELD_ARGUMENTS: [Argument; 14] = [
    Argument {
        name: "subject",
        kind: Kind::Text("SUBJ"),
        help: "What it held",
    },
    Argument {
        name: "object",
        kind: Kind::Text("OBJ"),
        help: "Who held it: its name, or # and its number (quoted)",
    },
    Argument {
        name: "mode",
        kind: Kind::ModeText,
        help: "In this mode alone: read and write observe, append and write alter, execute does neither",
    },
    Argument {
        name: "at",
        kind: Kind::EntryOrRange,
        help: "What was held in the state before entry N, counted from 0",
    },
    Argument {
        name: "from",
        kind: Kind::Entry,
        help: "What was held in the state before entry N, or later",
    },
    Argument {
        name: "to",
        kind: Kind::Entry,
        help: "What was held in the state after entry N, or earlier",
    },
    MARKS_OF_OPERAND,
    Argument {
        name: "when",
        kind: Kind::TimeOrRange,
        help: "What was held in the state after the last batch in MARKS whose time is TIME, or earlier; TIME as \
            2026-11-27T12:12:26+01:00, or a date as 2026-11-27, in UTC",
    },
    Argument {
        name: "since",
        kind: Kind::Time,
        help: "What was held in the state at TIME, or later; TIME as for --when",
    },
    Argument {
        name: "until",
        kind: Kind::Time,
        help: "What was held in the state after the last batch in MARKS whose time is TIME, or earlier; TIME as for \
            --when, a date to its end",
    },
    Argument {
        name: "on",
        kind: Kind::Day,
        help: "What was held on this day, in UTC: as --since and --until DATE",
    },
    AFTER,
    START,
    JOURNAL,
];

/// The arguments of `usage`.
pub(crate) const USAGE_ARGUMENTS: [Argument; 13] = [
    Argument {
        name: "subject",
        kind: Kind::Text("SUBJ"),
        help: "Its permissions",
    },
    Argument {
        name: "object",
        kind: Kind::Text("OBJ"),
        help: "The permissions on it: its name, or # and its number (quoted)",
    },
    Argument {
        name: "never",
        kind: Kind::FlagWithout("tighten"),
        help: "Leaves out the lines of permissions that were granted; the last line counts them still",
    },
    Argument {
        name: "tighten",
        kind: Kind::FlagWithoutEither("json", "after"),
        help: "Prints START without the permissions that were never granted, as a start file: cells of the matrix are \
            left out, but for those of accesses that START opens with; all else stays",
    },
    Argument {
        name: "from",
        kind: Kind::Entry,
        help: "The permissions of the state before entry N, counted from 0, or of a later one, and the entries from \
            N on; without it, of the state that START opens with, or of a later one, and all entries",
    },
    Argument {
        name: "to",
        kind: Kind::Entry,
        help: "The permissions of the state after entry N, or of an earlier one, and the entries up to N",
    },
    MARKS_OF_OPERAND,
    Argument {
        name: "since",
        kind: Kind::Time,
        help: "The permissions of the state at TIME, or of a later one, and the entries from then on; TIME as \
            2026-11-27T12:12:26+01:00, or a date as 2026-11-27, in UTC",
    },
    Argument {
        name: "until",
        kind: Kind::Time,
        help: "The permissions of the state after the last batch in MARKS whose time is TIME, or of an earlier one, \
            and the entries up to it; TIME as for --since, a date to its end",
    },
    Argument {
        name: "on",
        kind: Kind::Day,
        help: "The permissions and entries of this day, in UTC: as --since and --until DATE",
    },
    AFTER,
    START,
    JOURNAL,
];
