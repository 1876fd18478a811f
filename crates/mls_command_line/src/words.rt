//! The words of a command line.
use crate::asked_words::{
    about_words, ask_words, could_words, explain_words, flow_words, powers_words, state_words,
    who_words,
};
use crate::command_line::command;
use crate::command_rows::{COMMANDS, CommandName, CommandRow};
use crate::compare_words::compare_words;
use crate::job::{Asked, Job, RunWords, ServeWords};
use crate::journal_words::{held_words, journal_words, usage_words};
use crate::json_words::asks_json;
use crate::number_words::number_fault;
use crate::question_words::operand;
use crate::short_help::short_help;
use crate::state_words::{lattice_words, lint_words, report_words};
use crate::verify_words::verify_words;
use crate::words_fault::{WordsFault, words_refused};
use clap::{ArgMatches, Error};
use mls_terminal::{NO_MEMORY, NOT_WRITTEN, print_answer, refused, wrapped};
use std::alloc::{AllocError, Global};
use std::process::ExitCode;

/// What a run was asked for.
fn run_words<'a>(alloc: Global, matches: &ArgMatches<'a>) -> Result<RunWords<'a>, AllocError> {
    let named = matches.get_strs("SCRIPT").unwrap_or(&[]);
    let scripts = Vec::from_slice(alloc, named)?;
    Ok(RunWords {
        start: operand(matches, "START"),
        scripts,
        journal: matches.get_str("journal"),
        is_serial: matches.get_flag("serial"),
        is_strict: matches.get_flag("strict"),
    })
}

/// What a service was asked for.
fn serve_words<'a>(matches: &ArgMatches<'a>) -> ServeWords<'a> {
    ServeWords {
        start: operand(matches, "START"),
        journal: operand(matches, "journal"),
        marks: matches.get_str("marks"),
        session: matches.get_one("session").unwrap_or(0),
        has_sessions: matches.get_flag("sessions"),
        has_numbers: matches.get_flag("numbers"),
        has_names: matches.get_flag("names"),
        is_recovering: matches.get_flag("recover"),
        is_cutting_damage: matches.get_flag("cut-damage"),
        segment: matches.get_one("segment"),
        is_from_start: matches.get_flag("from-start"),
    }
}

/// The command of a name among these rows.
///
/// # Errors
/// `Command` where there is none.
fn command_named<'a>(rows: &[CommandRow], name: &'a str) -> Result<CommandName, WordsFault<'a>> {
    for row in rows {
        if row.name == name {
            return Ok(row.command);
        }
    }
    Err(WordsFault::Command(name))
}

/// What `run` was asked for, as a job.
fn run_job<'a>(alloc: Global, words: &ArgMatches<'a>) -> Result<Job<'a>, WordsFault<'a>> {
    match run_words(alloc, words) {
        Ok(asked) => Ok(Job::Run(asked)),
        Err(AllocError) => Err(WordsFault::Memory),
    }
}

/// A verification, as a job.
fn verify_job<'a>(words: &ArgMatches<'a>) -> Result<Job<'a>, WordsFault<'a>> {
    match verify_words(words) {
        Ok(asked) => Ok(Job::Verify(asked)),
        Err(fault) => Err(fault),
    }
}

/// What a command was asked for.
fn command_job<'a>(
    alloc: Global,
    command: CommandName,
    words: &ArgMatches<'a>,
) -> Result<Job<'a>, WordsFault<'a>> {
    match command {
        CommandName::Init => Ok(Job::Init {
            folder: words.get_str("FOLDER").unwrap_or("."),
        }),
        CommandName::Complete => Ok(Job::Complete {
            short: operand(words, "SHORT"),
        }),
        CommandName::Check => Ok(Job::Check {
            start: operand(words, "START"),
        }),
        CommandName::Run => run_job(alloc, words),
        CommandName::Replay => Ok(Job::Replay {
            start: operand(words, "START"),
            journal: operand(words, "JOURNAL"),
        }),
        CommandName::Verify => verify_job(words),
        CommandName::Serve => Ok(Job::Serve(serve_words(words))),
        CommandName::Ask => ask_words(words),
        CommandName::Explain => explain_words(words),
        CommandName::Who => who_words(words),
        CommandName::Could => could_words(words),
        CommandName::Flow => flow_words(words),
        CommandName::Powers => powers_words(words),
        CommandName::About => about_words(words),
        CommandName::Lint => lint_words(words),
        CommandName::Lattice => lattice_words(words),
        CommandName::Journal => journal_words(words),
        CommandName::State => state_words(words),
        CommandName::Held => held_words(words),
        CommandName::Usage => usage_words(words),
        CommandName::Compare => compare_words(alloc, words),
        CommandName::Report => report_words(words),
    }
}

/// What was asked for: without a command, to answer standard input.
fn asked<'a>(
    alloc: Global,
    rows: &[CommandRow],
    matches: &ArgMatches<'a>,
) -> Result<Asked<'a>, WordsFault<'a>> {
    let Some((name, words)) = matches.subcommand() else {
        return Ok(Asked {
            job: Job::Answer,
            is_json: false,
        });
    };
    let command = command_named(rows, name)?;
    let is_json = asks_json(command, words);
    let job = command_job(alloc, command, words)?;
    Ok(Asked { job, is_json })
}

/// The words of a command line by the arguments that they are.
fn parse<'a>(
    alloc: Global,
    rows: &[CommandRow],
    words: &'a [String],
) -> Result<ArgMatches<'a>, Error> {
    command(alloc, rows)?.try_get_matches_from(words)
}

/// Whether the short help of the program is asked for.
fn asks_short_help(words: &[String]) -> bool {
    match words {
        [_, word] => word.as_str() == "-h",
        _ => false,
    }
}

/// Prints a text that was asked for, where there is one.
fn printed(rt: &HostRuntime, text: Result<String, AllocError>) -> ExitCode {
    match text {
        Ok(text) => {
            let status = print_answer(rt, text.as_bytes());
            drop(text);
            status
        }
        Err(AllocError) => refused(rt, NO_MEMORY, 1),
    }
}

/// Help, or the version, in lines for a terminal.
fn laid_out(alloc: Global, error: &Error) -> Result<String, AllocError> {
    let text = format!(in alloc; "{error}")?;
    let lines = wrapped(alloc, &text);
    drop(text);
    lines
}

/// Whether a command of this name takes a line.
fn takes_line(name: &str) -> bool {
    name == "ask" || name == "explain" || name == "could"
}

/// Whether one of some words asks for an access, as the second word of a line does.
fn has_get(words: &[String]) -> bool {
    for word in words {
        if word.as_str().starts_with("get-") {
            return true;
        }
    }
    false
}

/// Whether the words of a line were given one by one.
fn is_unquoted(words: &[String]) -> bool {
    match words {
        [_, name, ..] => takes_line(name.as_str()) && has_get(words),
        _ => false,
    }
}

/// Tells what may help where words aren't understood.
fn tell_quoting(rt: &HostRuntime, words: &[String]) {
    if is_unquoted(words) {
        let _ = eprintln!(rt; "mls: LINE is one argument: quote it");
    }
}

/// Prints help, the version, or why the words aren't understood.
fn explained(rt: &HostRuntime, error: Error, words: &[String]) -> ExitCode {
    let status = error.exit_code() as u8;
    if status == 0 {
        let text = laid_out(rt.alloc(), &error);
        drop(error);
        return printed(rt, text);
    }
    if let Some(fault) = number_fault(&error, words) {
        drop(error);
        return words_refused(rt, fault);
    }
    let is_printed = error.print(rt).is_ok();
    drop(error);
    if is_printed {
        tell_quoting(rt, words);
        ExitCode::from(status)
    } else {
        refused(rt, NOT_WRITTEN, 1)
    }
}

/// Reads the words of a command line by the commands of these rows.
fn read_by<'a>(
    rt: &HostRuntime,
    rows: &[CommandRow],
    words: &'a [String],
) -> Result<Asked<'a>, ExitCode> {
    let matches = match parse(rt.alloc(), rows, words) {
        Ok(matches) => matches,
        Err(error) => return Err(explained(rt, error, words)),
    };
    let asked = asked(rt.alloc(), rows, &matches);
    drop(matches);
    match asked {
        Ok(asked) => Ok(asked),
        Err(fault) => Err(words_refused(rt, fault)),
    }
}

/// Reads the words of a command line, the program's name first.
///
/// # Errors
/// The status to end with where there is nothing to do: help or the version was asked for and is printed, or the words
/// aren't understood and it is said why.
pub fn read_words<'a>(rt: &HostRuntime, words: &'a [String]) -> Result<Asked<'a>, ExitCode> {
    if asks_short_help(words) {
        return Err(printed(rt, short_help(rt.alloc(), &COMMANDS)));
    }
    read_by(rt, &COMMANDS, words)
}
