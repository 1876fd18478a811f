//! The short help of the program: a line for each command, under headings.
use crate::command_rows::{CommandRow, Group};
use std::alloc::{AllocError, Global};

/// What stands above the commands.
const HEAD: &str = "\
mls, a reference monitor for multilevel security

Usage: mls COMMAND ..    mls COMMAND --help and mls --help say more
       mls < SCRIPT      answers the lines of a script over a small example
";

/// What stands below them.
const FOOT: &str = "
Example: mls explain examples/standard.json 'bob get-read memo'
";

/// The column in which it is said what a command does.
const COLUMN: usize = 12;

/// The groups, in the order of the help.
const GROUPS: [Group; 4] = [Group::Decide, Group::Ask, Group::Audit, Group::Serve];

impl Group {
    /// The heading above its commands.
    fn heading(self) -> &'static str {
        match self {
            Group::Decide => "\nDecide:\n",
            Group::Ask => "\nAsk:\n",
            Group::Audit => "\nAudit:\n",
            Group::Serve => "\nServe:\n",
        }
    }
}

/// Appends the line of a command.
fn push_row(text: &mut String, row: &CommandRow) -> Result<(), AllocError> {
    text.push_str("  ")?;
    text.push_str(row.name)?;
    for _ in row.name.len()..COLUMN - 2 {
        text.push_str(" ")?;
    }
    text.push_str(row.brief)?;
    text.push_str("\n")
}

/// Appends a heading and the lines of its commands.
fn push_group(text: &mut String, rows: &[CommandRow], group: Group) -> Result<(), AllocError> {
    text.push_str(group.heading())?;
    for row in rows {
        if row.group == group {
            push_row(text, row)?;
        }
    }
    Ok(())
}

/// The short help, with the commands of these rows.
///
/// # Errors
/// `AllocError` where an allocation failed.
pub(crate) fn short_help(alloc: Global, rows: &[CommandRow]) -> Result<String, AllocError> {
    let mut text = String::new(alloc);
    text.push_str(HEAD)?;
    for group in &GROUPS {
        push_group(&mut text, rows, *group)?;
    }
    text.push_str(FOOT)?;
    Ok(text)
}
