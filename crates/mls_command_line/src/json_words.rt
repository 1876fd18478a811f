//! The option `--json`, with which a command prints JSON objects in place of lines.
use crate::argument::{Argument, Kind};
use crate::command_rows::CommandName;
use clap::ArgMatches;

/// The option, with an object for each line.
const EACH: Argument = Argument {
    name: "json",
    kind: Kind::Flag,
    help: "Prints a JSON object for each line, in a line",
};

/// The option of `state`, which prints a start file with `--start`.
const STATE: Argument = Argument {
    name: "json",
    kind: Kind::FlagWithout("start"),
    help: "Prints a JSON object for each line, in a line",
};

/// The option, with one object.
const ONE: Argument = Argument {
    name: "json",
    kind: Kind::Flag,
    help: "Prints one JSON object, in a line",
};

/// The option of a command, where it has it: but of `journal`, whose entries have their own objects.
pub(crate) fn json_argument(command: CommandName) -> Option<Argument> {
    match command {
        CommandName::Ask | CommandName::Explain => Some(ONE),
        CommandName::Check | CommandName::Verify => Some(ONE),
        CommandName::State => Some(STATE),
        CommandName::Who | CommandName::Could | CommandName::Flow => Some(EACH),
        CommandName::Powers | CommandName::About => Some(EACH),
        CommandName::Held | CommandName::Usage => Some(EACH),
        CommandName::Lint | CommandName::Compare => Some(EACH),
        _ => None,
    }
}

/// Whether JSON objects are asked for.
pub(crate) fn asks_json(command: CommandName, matches: &ArgMatches<'_>) -> bool {
    match command {
        CommandName::Journal => matches.get_flag("json"),
        _ => json_argument(command).is_some() && matches.get_flag("json"),
    }
}
