//! The commands of the program, as rows of a table.
use crate::argument::Argument;
use crate::asked_arguments::{
    ABOUT_ARGUMENTS, ASK_ARGUMENTS, COULD_ARGUMENTS, EXPLAIN_ARGUMENTS, FLOW_ARGUMENTS,
    LATTICE_ARGUMENTS, LINT_ARGUMENTS, POWERS_ARGUMENTS, WHO_ARGUMENTS,
};
use crate::compare_arguments::{COMPARE_ARGUMENTS, REPORT_ARGUMENTS};
use crate::journal_arguments::{
    HELD_ARGUMENTS, JOURNAL_ARGUMENTS, STATE_ARGUMENTS, USAGE_ARGUMENTS,
};
use crate::run_arguments::{
    CHECK_ARGUMENTS, COMPLETE_ARGUMENTS, INIT_ARGUMENTS, REPLAY_ARGUMENTS, RUN_ARGUMENTS,
    SERVE_ARGUMENTS, VERIFY_ARGUMENTS,
};

/// The commands of the program. What each is asked for is read where they are told apart: one that isn't read doesn't
/// compile.
#[derive(Clone, Copy)]
pub(crate) enum CommandName {
    Init,
    Complete,
    Check,
    Run,
    Replay,
    Verify,
    Serve,
    Ask,
    Explain,
    Who,
    Could,
    Flow,
    Powers,
    About,
    Lint,
    Lattice,
    Journal,
    State,
    Held,
    Usage,
    Compare,
    Report,
}

/// What commands are for: the headings of the short help, in its order.
#[derive(Clone, Copy, PartialEq, Eq)]
pub(crate) enum Group {
    Decide,
    Ask,
    Audit,
    Serve,
}

/// A command of the program.
#[derive(Clone, Copy)]
pub(crate) struct CommandRow {
    pub command: CommandName,
    pub name: &'static str,
    pub group: Group,
    /// What it does, in a line of the short help.
    pub brief: &'static str,
    pub about: &'static str,
    pub example: &'static str,
    pub arguments: &'static [Argument],
}

/// The commands, in the order of help. One function names them, and lends them to others: each that names them is
/// proved over all of these rows.
pub(crate) const COMMANDS: [CommandRow; 22] = [
    CommandRow {
        command: CommandName::Init,
        name: "init",
        group: Group::Decide,
        brief: "Writes a first policy into a folder, with a script to try it",
        about: "Writes a first policy into FOLDER: start.json, of three people and five papers, the same in Jsonnet, \
            a script, and README.md, which explains each member; and prints their names. No file that is there is \
            touched: where one has such a name, nothing is written",
        example: "Example: mls init archive",
        arguments: &INIT_ARGUMENTS,
    },
    CommandRow {
        command: CommandName::Complete,
        name: "complete",
        group: Group::Decide,
        brief: "Prints the whole start file of a short one",
        about: "Prints the start file of a short one, in which may be left out of a subject current, which is then \
            its maximum, integrity, the least label, and trusted, false; of an object parent, the first object, and \
            integrity; of a scheme its categories; and of the file matrix, accesses, profile, and integrity, which \
            is then one level, any",
        example: "Example: mls complete short.json > start.json",
        arguments: &COMPLETE_ARGUMENTS,
    },
    CommandRow {
        command: CommandName::Check,
        name: "check",
        group: Group::Decide,
        brief: "Reads a start file and says whether it opens secure",
        about: "Reads a start file and prints how many subjects, objects, cells and accesses it has, and that it \
            opens secure. Where a file is refused, mls lint tells the place of the fault",
        example: "Example: mls check examples/office.json",
        arguments: &CHECK_ARGUMENTS,
    },
    CommandRow {
        command: CommandName::Run,
        name: "run",
        group: Group::Decide,
        brief: "Runs scripts over a start file and prints the answers",
        about: "Runs scripts over a start file and prints their answers, how many entries the journal has, and \
            that the state is secure",
        example: "Example: mls run --journal office.journal examples/office.json examples/office.script",
        arguments: &RUN_ARGUMENTS,
    },
    CommandRow {
        command: CommandName::Replay,
        name: "replay",
        group: Group::Audit,
        brief: "Recomputes each reply of a journal, or names the first wrong one",
        about: "Recomputes every reply of a journal over a start file, or tells the first entry that is wrong",
        example: "Example: mls replay examples/office.json office.journal",
        arguments: &REPLAY_ARGUMENTS,
    },
    CommandRow {
        command: CommandName::Verify,
        name: "verify",
        group: Group::Audit,
        brief: "Replays a journal and checks its marks: was it cut or rewritten?",
        about: "Replays a journal over a start file and checks that its marks agree with it; prints how many entries \
            it has, the last digest, and from when to when they are marked; where there are such, how many marks are \
            earlier than the one before, and how many entries stand behind the last mark. A journal that was cut or \
            rewritten lacks a digest that was noted before: the status is 3",
        example: "Example: mls verify examples/office.json office.journal office.marks",
        arguments: &VERIFY_ARGUMENTS,
    },
    CommandRow {
        command: CommandName::Serve,
        name: "serve",
        group: Group::Serve,
        brief: "Answers requests as they come; entries are on the disk first",
        about: "Answers the lines on standard input over a start file, and goes on with the journal in FILE. The \
            entries of lines are on the disk before their answers are written",
        example: "Example: mls serve --journal office.journal examples/office.json",
        arguments: &SERVE_ARGUMENTS,
    },
    CommandRow {
        command: CommandName::Ask,
        name: "ask",
        group: Group::Ask,
        brief: "What would a request be answered? Nothing changes",
        about: "Prints what a script would be answered to LINE, and changes nothing. The status is 0 for yes, \
            created and held, else 4",
        example: "Example: mls ask examples/standard.json 'bob get-read memo'. LINE is quoted, and asks as a line \
            of a script: SUBJECT get-execute, get-read, get-append or get-write OBJECT; release, check MODE \
            OBJECT; give, rescind MODE SUBJECT OBJECT; create PARENT SECURITY-LABEL INTEGRITY-LABEL; delete \
            OBJECT; level LABEL; relabel OBJECT LABEL. MODE is execute, read, append or write: read and write observe, \
            append and write alter, execute does neither. To try several lines: mls serve over a copy of the journal",
        arguments: &ASK_ARGUMENTS,
    },
    CommandRow {
        command: CommandName::Explain,
        name: "explain",
        group: Group::Ask,
        brief: "Why is a request answered so, and what would help?",
        about: "Prints the answer to LINE, or without LINE to entry N of a journal; each condition of its rule, \
            with the labels that it compares, and whether it holds by trust alone; and after a no the remedy: requests \
            in order, of the subject or of others, after which it is granted. Of a get that is permitted these are \
            releases and the lowest current label that helps; none by level: no releases and labels of its own help, \
            which mls who calls never. The status is 0 for yes, created and held, else 4",
        example: "Examples: mls explain examples/standard.json 'bob get-read memo'; mls explain --journal \
            office.journal --at 1 examples/office.json, of the entry that mls journal --from 1 --to 1 \
            examples/office.json office.journal prints",
        arguments: &EXPLAIN_ARGUMENTS,
    },
    CommandRow {
        command: CommandName::Who,
        name: "who",
        group: Group::Ask,
        brief: "Who may get an object, and could now, or could ever?",
        about: "Prints which subjects are permitted OBJ and in which modes, and for each whether a get would be \
            granted now, or else why not and with which current label it would be, after which releases, or never: \
            no releases and labels of the subject help. With --ever, for each permission that there was, from which \
            entry of the journal to which its get would have been granted. With --could, for each subject and mode, \
            whether it ever comes to that, whatever some subjects do. The status is 0 where one would be granted, \
            else 4",
        example: "Examples: mls who examples/standard.json memo read; mls who --could examples/standard.json plans \
            read; mls who --ever --journal office.journal \
            examples/office.json salaries. mls state prints who holds what. Who holds write on the parent may give \
            permissions, and on the root whoever is trusted",
        arguments: &WHO_ARGUMENTS,
    },
    CommandRow {
        command: CommandName::Could,
        name: "could",
        group: Group::Ask,
        brief: "Could it ever come to that access, whatever some do?",
        about: "Prints whether the get of LINE could ever be granted, whatever some subjects do: yes, and a script \
            that does it, which first releases all that is held, and has then no line that can be left out; or \
            never, and each reason. All untrusted subjects act. The status is 0 for yes, else 4",
        example: "Example: mls could --all examples/standard.json 'bob get-read plans'. mls who --could prints it for \
            all subjects and modes, without scripts",
        arguments: &COULD_ARGUMENTS,
    },
    CommandRow {
        command: CommandName::Flow,
        name: "flow",
        group: Group::Ask,
        brief: "Where could content of an object ever flow?",
        about: "Prints where content of FROM could flow, whatever some subjects do, though what they remember is all \
            that carries it: a line for each subject and then for each object, with a way of the fewest hands there; \
            or with TO the way to this place alone and a script, as mls run reads it, that carries the content there, \
            or never. All untrusted subjects act; one that does not act has no line, even where it holds FROM. The \
            status is 0 where there is a way, else 4",
        example: "Examples: mls flow examples/standard.json plans; mls flow --all examples/standard.json plans bob",
        arguments: &FLOW_ARGUMENTS,
    },
    CommandRow {
        command: CommandName::Powers,
        name: "powers",
        group: Group::Ask,
        brief: "What may a subject change: permissions, objects, labels?",
        about: "Prints what each subject may change now, by one request: on which objects it may give and rescind \
            permissions, under which it may create objects, which it may delete, which labels it may take, and which \
            it may give to an object, of the labels in use. A subject that gets write of an object may do more then: \
            mls could tells what. The status is 0 where there is a line, else 4",
        example: "Examples: mls powers examples/standard.json; mls powers --down examples/office.json, of what can be \
            downgraded, and by whom",
        arguments: &POWERS_ARGUMENTS,
    },
    CommandRow {
        command: CommandName::About,
        name: "about",
        group: Group::Ask,
        brief: "All there is to tell of a subject or an object",
        about: "Prints all that there is to tell of a subject: its labels, its permissions and whether each get \
            would be granted now, or with which label, or never, as mls who prints it, what it holds and what it may \
            change; and with a journal how many entries it asked, and which gave it permissions or rescinded them, \
            refused ones too. Of an object: its labels, its children, who may get it, who holds it; and with a \
            journal which entries changed it. The status is 0 where there is a line, else 4",
        example: "Examples: mls about examples/standard.json bob; mls about --journal office.journal \
            examples/office.json salaries",
        arguments: &ABOUT_ARGUMENTS,
    },
    CommandRow {
        command: CommandName::Lint,
        name: "lint",
        group: Group::Decide,
        brief: "What is wrong with a start file, or suspicious in it?",
        about: "Prints what is suspicious in a start file: members that a JSON object has twice, permissions that \
            the matrix has twice, permissions with which a get is never granted, objects and subjects that have no \
            other, flows down by trusted subjects, and accesses that untrusted subjects could bring about although \
            no permission allows them; of a file that is refused each place where its first fault applies, counted \
            from 0. With --journal, what is suspicious in the state that it leads to. The status is 4 where something \
            is suspicious, 1 where the file is refused, else 0",
        example: "Examples: mls lint examples/standard.json; mls lint --journal office.journal examples/office.json",
        arguments: &LINT_ARGUMENTS,
    },
    CommandRow {
        command: CommandName::Lattice,
        name: "lattice",
        group: Group::Ask,
        brief: "The labels of a start or of a state and their order, for graphviz",
        about: "Prints the security labels of a start file, or of the state that a journal leads to, and their order, \
            for dot of graphviz",
        example: "Example: mls lattice examples/standard.json | dot -Tsvg > lattice.svg",
        arguments: &LATTICE_ARGUMENTS,
    },
    CommandRow {
        command: CommandName::Journal,
        name: "journal",
        group: Group::Audit,
        brief: "Entries of a journal by name, or those that meet options",
        about: "Prints the entries of a journal by name, or those that meet all options. The status is 0 where \
            there is one, else 4",
        example: "Examples: mls journal --reply no examples/office.json office.journal; mls journal --subject petra \
            examples/office.json office.journal, of all that petra asked and was permitted; mls journal --explain \
            --by petra --reply no examples/office.json office.journal, of why petra was denied what",
        arguments: &JOURNAL_ARGUMENTS,
    },
    CommandRow {
        command: CommandName::State,
        name: "state",
        group: Group::Audit,
        brief: "The state that a journal leads to, also as a start file",
        about: "Prints the state that a journal leads to: labels, permissions and accesses by name; or a start file \
            that opens with it",
        example: "Examples: mls state examples/office.json office.journal; mls state --start \
            examples/office.json office.journal > next.json",
        arguments: &STATE_ARGUMENTS,
    },
    CommandRow {
        command: CommandName::Held,
        name: "held",
        group: Group::Audit,
        brief: "Who held what, and from which entry to which?",
        about: "Prints who held what over a journal, and from which entry to which: each access as long as it is held, \
            whatever part of that is asked for. The status is 0 where there is one, else 4",
        example: "Examples: mls held --object salaries --from 4000 examples/office.json office.journal, of all who \
            held it since; mls held --subject petra --at 5000 examples/office.json office.journal",
        arguments: &HELD_ARGUMENTS,
    },
    CommandRow {
        command: CommandName::Usage,
        name: "usage",
        group: Group::Audit,
        brief: "How was each permission used, and which were never?",
        about: "Prints each permission and how it was used over a journal: how often its get was granted and denied \
            while it was there, and which entry was the last. All entries count, or with --from those from N on; what \
            was held before them is held at start, which is no grant of theirs. Then of each subject that is trusted, \
            how many entries were granted that would not have been otherwise, and the last: not with --subject, \
            --object or --never. A review wants the whole life of a start, or --from: a permission that is never asked \
            may be young. The status is 0 where each was granted or is held at start, else 4; with --tighten it is 0",
        example: "Examples: mls usage examples/office.json office.journal; mls usage --never --subject petra \
            examples/office.json office.journal; mls usage --tighten examples/office.json office.journal > tight.json",
        arguments: &USAGE_ARGUMENTS,
    },
    CommandRow {
        command: CommandName::Compare,
        name: "compare",
        group: Group::Audit,
        brief: "What would another start have answered otherwise?",
        about: "Prints how START2 differs from START1, or START1 with members set from itself: profile, order of \
            levels, labels, trust, parents, permissions, accesses, names that only one of them has, and gets that they \
            answer otherwise; with a journal of START1, instead, the entries that START2 would have answered \
            otherwise; with --could what untrusted subjects could ever get by one of them alone. The status is 4 where \
            something is printed, else 0. Without either nothing means that both open alike, but for numbers",
        example: "Examples: mls compare --broken examples/office.json new.json office.journal; mls compare --set \
            petra.current=unclassified examples/office.json",
        arguments: &COMPARE_ARGUMENTS,
    },
    CommandRow {
        command: CommandName::Report,
        name: "report",
        group: Group::Audit,
        brief: "A page in HTML about a journal, or about a part of it",
        about: "Prints a page about a journal, in HTML, for people who manage: in five lines what matters; what was \
            denied to whom and why, who used trust, which permissions were never used, who held what, what subjects \
            may change, and the labels that START opens with. Tables have the heaviest 40 rows. It needs no network",
        example: "Examples: mls report examples/office.json office.journal > office.html; mls report --marks \
            office.marks --since 2026-11-01 --until 2026-11-30 examples/office.json office.journal > november.html",
        arguments: &REPORT_ARGUMENTS,
    },
];
