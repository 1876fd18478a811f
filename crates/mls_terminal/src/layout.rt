//! Text laid out for a terminal.
use std::alloc::{AllocError, Global};

/// The most columns of a line that can be broken.
const WIDTH: usize = 78;

/// The most columns that the lines behind a broken one are indented by.
const DEEPEST: usize = 40;

/// A row of help while its bytes are looked at: where the text begins that stands behind its first gap.
#[derive(Clone, Copy)]
struct Row {
    /// How many bytes were looked at.
    at: usize,
    /// How many spaces the row begins with.
    lead: usize,
    /// How many spaces were the last bytes.
    spaces: usize,
    /// Where the text behind the first gap of two spaces and more begins, once it does.
    text: Option<usize>,
}

impl Row {
    /// The row with one more byte.
    fn with(self, byte: u8) -> Row {
        let at = self.at.saturating_add(1);
        if byte == b' ' {
            let spaces = self.spaces.saturating_add(1);
            return Row { at, spaces, ..self };
        }
        let is_first = self.spaces == self.at;
        let lead = if is_first { self.at } else { self.lead };
        let is_behind_gap = self.text.is_none() && !is_first && self.spaces >= 2;
        let text = if is_behind_gap {
            Some(self.at)
        } else {
            self.text
        };
        Row {
            at,
            lead,
            spaces: 0,
            text,
        }
    }

    /// How far the lines are indented that a line goes on in.
    fn indent(self) -> usize {
        match self.text {
            Some(at) if at <= DEEPEST => at,
            _ => self.lead,
        }
    }
}

/// How far the lines are indented that this one goes on in: to the text behind its first gap, else as it is.
fn indent_of(line: &str) -> usize {
    let mut row = Row {
        at: 0,
        lead: 0,
        spaces: 0,
        text: None,
    };
    for byte in line.as_bytes() {
        row = row.with(*byte);
    }
    row.indent()
}

/// Appends a newline and so many spaces.
fn push_break(text: &mut String, indent: usize) -> Result<(), AllocError> {
    text.push_str("\n")?;
    for _ in 0..indent {
        text.push_str(" ")?;
    }
    Ok(())
}

/// Appends a line, broken at spaces where it has more columns than are wanted.
fn push_line(text: &mut String, line: &str) -> Result<(), AllocError> {
    let indent = indent_of(line);
    let mut column = 0usize;
    let mut is_begun = false;
    for word in line.split(' ') {
        let end = column.saturating_add(1).saturating_add(word.len());
        if is_begun && end > WIDTH && column > indent {
            push_break(text, indent)?;
            column = indent;
        } else if is_begun {
            text.push_str(" ")?;
            column = column.saturating_add(1);
        }
        text.push_str(word)?;
        column = column.saturating_add(word.len());
        is_begun = true;
    }
    Ok(())
}

/// A text whose lines are broken at spaces where they have more than 78 columns: what a line goes on in is indented as
/// the text behind its first gap.
///
/// # Errors
/// `AllocError` where an allocation failed.
pub fn wrapped(alloc: Global, text: &str) -> Result<String, AllocError> {
    let mut out = String::new(alloc);
    for line in text.lines() {
        push_line(&mut out, line)?;
        out.push_str("\n")?;
    }
    Ok(out)
}
