//! The arguments of the commands that open a start and run or replay something over it.
use crate::argument::{Argument, Kind};
use crate::shared_arguments::{JOURNAL, START};

/// The arguments of `init`.
pub(crate) const INIT_ARGUMENTS: [Argument; 1] = [Argument {
    name: "FOLDER",
    kind: Kind::Optional,
    help: "The folder, which is made where it isn't there; without it, the one that this runs in",
}];

/// The arguments of `complete`.
pub(crate) const COMPLETE_ARGUMENTS: [Argument; 1] = [Argument {
    name: "SHORT",
    kind: Kind::Operand,
    help: "The short start file, JSON",
}];

/// The arguments of `check`.
pub(crate) const CHECK_ARGUMENTS: [Argument; 1] = [START];

/// The arguments of `run`.
pub(crate) const RUN_ARGUMENTS: [Argument; 5] = [
    Argument {
        name: "serial",
        kind: Kind::Flag,
        help: "Runs the scripts one after the other, and not each in a thread of its own",
    },
    Argument {
        name: "strict",
        kind: Kind::Flag,
        help: "Ends with status 4 where a line wasn't understood, and tells the first; prints and writes all else as \
            without it",
    },
    Argument {
        name: "journal",
        kind: Kind::Text("FILE"),
        help: "Writes the journal to FILE, and what FILE had is lost; where FILE is START, a SCRIPT or the journal \
            of a service that runs, nothing is asked",
    },
    START,
    Argument {
        name: "SCRIPT",
        kind: Kind::Operands,
        help: "The scripts, at most 64; the first is session 0",
    },
];

/// The arguments of `replay`.
pub(crate) const REPLAY_ARGUMENTS: [Argument; 2] = [START, JOURNAL];

/// The arguments of `verify`.
pub(crate) const VERIFY_ARGUMENTS: [Argument; 5] = [
    Argument {
        name: "from",
        kind: Kind::Text("DIGEST"),
        help: "What the chain of digests begins from, 64 hexadecimal digits; without it, what the first line of MARKS \
            has, or zeros where an earlier version wrote MARKS",
    },
    Argument {
        name: "digest",
        kind: Kind::Text("DIGEST"),
        help: "A digest that the chain must contain, as one that was noted before",
    },
    START,
    JOURNAL,
    Argument {
        name: "MARKS",
        kind: Kind::Operand,
        help: "The marks of JOURNAL, as mls serve --marks writes them",
    },
];

/// The arguments of `serve`.
pub(crate) const SERVE_ARGUMENTS: [Argument; 11] = [
    Argument {
        name: "session",
        kind: Kind::Session,
        help: "The number of the session that asks; without it 0",
    },
    Argument {
        name: "sessions",
        kind: Kind::FlagWithout("session"),
        help: "Each line begins with the number of its session and a space, and so does its answer",
    },
    Argument {
        name: "numbers",
        kind: Kind::Flag,
        help: "Prints the number of its entry behind an answer that has one",
    },
    Argument {
        name: "names",
        kind: Kind::Flag,
        help: "Prints the names of START and the accesses that are held before the number of the next entry",
    },
    Argument {
        name: "recover",
        kind: Kind::Flag,
        help: "Cuts off an end of the journal that a crash has torn, and keeps it in FILE.torn, or in FILE.torn.1, \
            FILE.torn.2, .. where that is there",
    },
    Argument {
        name: "cut-damage",
        kind: Kind::FlagBeside("recover"),
        help: "Cuts off, and keeps, also damage at the end of the journal that no crash leaves",
    },
    Argument {
        name: "journal",
        kind: Kind::NeededText("FILE"),
        help: "The journal, which is made where it isn't there",
    },
    Argument {
        name: "marks",
        kind: Kind::Text("MARKS"),
        help: "Adds a line to MARKS for each batch of entries: the number of the last, the time, and a digest of the \
            journal so far; MARKS is made where it isn't there",
    },
    Argument {
        name: "segment",
        kind: Kind::Segment,
        help: "Closes the journal's file before it has more than BYTES bytes, as FILE.N with the number of its first \
            entry, keeps the state in FILE.state.N, from which the next start begins, and goes on with a new FILE",
    },
    Argument {
        name: "from-start",
        kind: Kind::FlagBeside("segment"),
        help: "Replays all segments from START on, and compares each state that was kept",
    },
    START,
];
