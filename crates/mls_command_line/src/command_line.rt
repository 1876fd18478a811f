//! The program's command line, as clap has it.
use crate::argument::Argument;
use crate::command_rows::CommandRow;
use crate::json_words::json_argument;
use crate::version::VERSION;
use clap::Command;
use std::alloc::{AllocError, Global};

const ABOUT: &str =
    "A reference monitor for multilevel security. Without a command it answers the script on \
     standard input over the standard start.";

const EXAMPLE: &str = "Example: printf 'ann get-read plans\\n' | mls";

/// A command with an argument, too.
fn with_argument<'a>(
    alloc: Global,
    command: Command<'a>,
    argument: &Argument,
) -> Result<Command<'a>, AllocError> {
    match argument.built(alloc) {
        Ok(arg) => command.arg(arg),
        Err(AllocError) => {
            drop(command);
            Err(AllocError)
        }
    }
}

/// The command of a row.
fn command_of<'a>(alloc: Global, row: &CommandRow) -> Result<Command<'a>, AllocError> {
    let mut command = Command::new(alloc, row.name)
        .about(row.about)
        .after_help(row.example);
    for argument in row.arguments {
        command = with_argument(alloc, command, argument)?;
    }
    match json_argument(row.command) {
        Some(argument) => with_argument(alloc, command, &argument),
        None => Ok(command),
    }
}

/// A command line with the command of a row, too.
fn with_row<'a>(
    alloc: Global,
    line: Command<'a>,
    row: &CommandRow,
) -> Result<Command<'a>, AllocError> {
    match command_of(alloc, row) {
        Ok(command) => line.subcommand(command),
        Err(AllocError) => {
            drop(line);
            Err(AllocError)
        }
    }
}

/// The program's command line, with the commands of these rows.
pub(crate) fn command<'a>(alloc: Global, rows: &[CommandRow]) -> Result<Command<'a>, AllocError> {
    let mut line = Command::new(alloc, "mls")
        .version(VERSION)
        .about(ABOUT)
        .after_help(EXAMPLE);
    for row in rows {
        line = with_row(alloc, line, row)?;
    }
    Ok(line)
}
