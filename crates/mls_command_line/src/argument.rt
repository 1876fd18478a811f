//! Arguments of commands, as rows of a table.
use clap::{Arg, ArgAction};
use std::alloc::{AllocError, Global};

/// What an argument is, and when it has to be there.
#[derive(Clone, Copy)]
pub(crate) enum Kind {
    /// An operand that has to be there.
    Operand,
    /// An operand that may be left out.
    Optional,
    /// An operand that has to be there unless this option is.
    Unless(&'static str),
    /// An operand that may be left out, and can't stand beside this option.
    OptionalWithout(&'static str),
    /// An operand that is the word of a mode, and may be left out.
    Mode,
    /// An option with the word of a mode.
    ModeText,
    /// One operand or more.
    Operands,
    /// An option with a text, which help calls so.
    Text(&'static str),
    /// An option with a text, which help calls so, that may be given again, and can't stand beside the option of the
    /// second name.
    TextsWithout(&'static str, &'static str),
    /// An option with a text that has to be there.
    NeededText(&'static str),
    /// An option with a text, the first here, that stands beside the option of the second name alone.
    TextBeside(&'static str, &'static str),
    /// An option with a time, that stands beside the option `--marks` alone.
    Time,
    /// An option with a time, that stands beside the option `--marks` alone, and not beside `--at`.
    TimeForAt,
    /// An option with a date, that stands beside the option `--marks` alone, and not beside `--since` and `--until`.
    Day,
    /// An option with a date, that stands beside the options `--marks` and `--ever` alone, and not beside `--since` and
    /// `--until`.
    DayOfEver,
    /// An option with a number of 32 bits.
    Session,
    /// An option with the bytes of a segment.
    Segment,
    /// An option with the number of an entry.
    Entry,
    /// An option with the number of an entry that stands beside none that tells the first or the last of some states.
    EntryOrRange,
    /// An option with a time, that stands beside the option `--marks` alone, and beside no other that tells states.
    TimeOrRange,
    /// An option with the number of an entry of the journal that the option `--journal` names.
    EntryOfJournal,
    /// An option with the number of an entry, that stands beside the option `--ever` alone.
    EntryOfEver,
    /// An option with a time, that stands beside the options `--marks` and `--ever` alone.
    TimeOfEver,
    /// An option with subjects, that stands beside neither of these options.
    Subjects(&'static str, &'static str),
    /// An option with subjects, that stands beside the option `--could` alone, and beside neither of these options.
    SubjectsOfCould(&'static str, &'static str),
    /// An option without a value, that stands beside the option `--could` alone, and beside neither of these options.
    FlagOfCould(&'static str, &'static str),
    /// An option without a value.
    Flag,
    /// An option without a value that can't stand beside this option.
    FlagWithout(&'static str),
    /// An option without a value that can't stand beside either of these options.
    FlagWithoutEither(&'static str, &'static str),
    /// An option without a value that stands beside this option alone.
    FlagBeside(&'static str),
    /// An option without a value that stands beside the option `--journal` alone, and beside no option that asks for
    /// one state of the journal.
    FlagOfStates,
}

/// An argument of a command.
#[derive(Clone, Copy)]
pub(crate) struct Argument {
    pub name: &'static str,
    pub kind: Kind,
    pub help: &'static str,
}

/// The least bytes of a segment: there is room for the line of any entry.
pub(crate) const LEAST_SEGMENT: i64 = 4_096;

/// The most bytes of a segment: those of any file of a journal.
pub(crate) const GREATEST_SEGMENT: i64 = 268_435_456;

/// The words of modes.
const MODES: [&str; 4] = ["execute", "read", "append", "write"];

/// An option with a value.
fn with_value<'a>(arg: Arg<'a>, name: &'a str, value: &'a str) -> Arg<'a> {
    arg.long(name).value_name(value).action(ArgAction::Set)
}

/// An option with a number. One below 0 is taken as its value, so that the fault is told of it.
fn with_number<'a>(arg: Arg<'a>, name: &'a str, value: &'a str) -> Arg<'a> {
    with_value(arg, name, value).allow_negative_numbers(true)
}

/// An option with the number of an entry.
fn with_entry<'a>(arg: Arg<'a>, name: &'a str) -> Arg<'a> {
    with_number(arg, name, "N").value_parser(clap::value_parser!(u64))
}

/// An option without a value.
fn as_flag<'a>(arg: Arg<'a>, name: &'a str) -> Arg<'a> {
    arg.long(name).action(ArgAction::SetTrue)
}

/// An argument that stands beside this option alone, where one is named.
fn beside<'a>(arg: Arg<'a>, option: Option<&'a str>) -> Result<Arg<'a>, AllocError> {
    match option {
        Some(name) => arg.requires_arg(name),
        None => Ok(arg),
    }
}

/// An argument that can't stand beside this option, where one is named.
fn without<'a>(arg: Arg<'a>, option: Option<&'a str>) -> Result<Arg<'a>, AllocError> {
    match option {
        Some(name) => arg.conflicts_with(name),
        None => Ok(arg),
    }
}

/// An argument that stands beside no option that tells the first or the last of some states.
fn without_range<'a>(arg: Arg<'a>) -> Result<Arg<'a>, AllocError> {
    arg.conflicts_with("from")?
        .conflicts_with("to")?
        .conflicts_with("since")?
        .conflicts_with("until")?
        .conflicts_with("on")
}

/// An argument that stands beside no option that tells one state. What an option needs isn't looked for where that
/// can't stand beside another that is there.
fn without_state<'a>(arg: Arg<'a>) -> Result<Arg<'a>, AllocError> {
    arg.conflicts_with("at")?.conflicts_with("when")
}

impl Argument {
    /// The argument of this kind, whatever it stands beside.
    fn alone<'a>(&self, arg: Arg<'a>) -> Arg<'a> {
        match self.kind {
            Kind::Operand => arg.required(true),
            Kind::Optional | Kind::Unless(_) | Kind::OptionalWithout(_) => arg,
            Kind::Mode => arg.value_parser(MODES.as_slice()),
            Kind::ModeText => with_value(arg, self.name, "MODE").value_parser(MODES.as_slice()),
            Kind::Operands => arg.required(true).num_args(1..).action(ArgAction::Append),
            Kind::Text(value) | Kind::TextBeside(value, _) => with_value(arg, self.name, value),
            Kind::TextsWithout(value, _) => {
                with_value(arg, self.name, value).action(ArgAction::Append)
            }
            Kind::Subjects(_, _) | Kind::SubjectsOfCould(_, _) => with_value(
                arg,
                self.name,
                "SUBJ,SUBJ..",
            ),
            Kind::NeededText(value) => with_value(arg, self.name, value).required(true),
            Kind::Time | Kind::TimeForAt | Kind::TimeOrRange | Kind::TimeOfEver => {
                with_value(arg, self.name, "TIME")
            }
            Kind::Day | Kind::DayOfEver => with_value(arg, self.name, "DATE"),
            Kind::Session => {
                with_number(arg, self.name, "K").value_parser(clap::value_parser!(u32))
            }
            Kind::Segment => with_number(arg, self.name, "BYTES").value_parser(clap::value_parser!(
                u32
            ).range(LEAST_SEGMENT..=GREATEST_SEGMENT)),
            Kind::Entry | Kind::EntryOrRange | Kind::EntryOfJournal | Kind::EntryOfEver => {
                with_entry(arg, self.name)
            }
            Kind::Flag
            | Kind::FlagWithout(_)
            | Kind::FlagWithoutEither(_, _)
            | Kind::FlagBeside(_)
            | Kind::FlagOfCould(_, _)
            | Kind::FlagOfStates => as_flag(arg, self.name),
        }
    }

    /// The options beside which alone it stands, two at most.
    fn needed(&self) -> [Option<&'static str>; 2] {
        match self.kind {
            Kind::TextBeside(_, other) | Kind::FlagBeside(other) => [Some(other), None],
            Kind::Time | Kind::TimeForAt | Kind::TimeOrRange | Kind::Day => [Some("marks"), None],
            Kind::TimeOfEver | Kind::DayOfEver => [Some("marks"), Some("ever")],
            Kind::EntryOfEver => [Some("ever"), None],
            Kind::SubjectsOfCould(_, _) | Kind::FlagOfCould(_, _) => [Some("could"), None],
            Kind::EntryOfJournal | Kind::FlagOfStates => [Some("journal"), None],
            _ => [None, None],
        }
    }

    /// The options beside which it can't stand, two at most.
    fn excluded(&self) -> [Option<&'static str>; 2] {
        match self.kind {
            Kind::TimeForAt | Kind::TimeOrRange => [Some("at"), None],
            Kind::Day | Kind::DayOfEver => [Some("since"), Some("until")],
            Kind::FlagWithout(other)
            | Kind::OptionalWithout(other)
            | Kind::TextsWithout(_, other) => [Some(other), None],
            Kind::FlagWithoutEither(one, other)
            | Kind::Subjects(one, other)
            | Kind::SubjectsOfCould(one, other)
            | Kind::FlagOfCould(one, other) => [Some(one), Some(other)],
            Kind::FlagOfStates => [Some("at"), Some("when")],
            _ => [None, None],
        }
    }

    /// The argument with what it stands beside.
    fn related<'a>(&self, arg: Arg<'a>) -> Result<Arg<'a>, AllocError> {
        let [one, other] = self.needed();
        let arg = beside(beside(arg, one)?, other)?;
        let [one, other] = self.excluded();
        let arg = without(without(arg, one)?, other)?;
        match self.kind {
            Kind::Unless(option) => arg.required_unless_present(option),
            Kind::EntryOrRange | Kind::TimeOrRange => without_range(arg),
            Kind::EntryOfEver | Kind::TimeOfEver | Kind::DayOfEver => without_state(arg),
            _ => Ok(arg),
        }
    }

    /// The argument, as clap has it.
    pub(crate) fn built<'a>(&self, alloc: Global) -> Result<Arg<'a>, AllocError> {
        self.related(self.alone(Arg::new(alloc, self.name).help(self.help)))
    }
}
