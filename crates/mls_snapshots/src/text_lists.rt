//! Lists in a start file's text. No clause says what is written: it is read back and compared.
use std::alloc::AllocError;

/// A list of strings in one line: `["a", "b"]`.
#[derive(Clone, Copy, Debug)]
pub(crate) struct Words {
    is_empty: bool,
}

impl Words {
    /// Appends the beginning of a list.
    pub(crate) fn begin(text: &mut String) -> Result<Words, AllocError> {
        text.push_str("[")?;
        Ok(Words { is_empty: true })
    }

    /// Appends a string, in which nothing is to be escaped.
    pub(crate) fn push(&mut self, text: &mut String, word: &str) -> Result<(), AllocError> {
        if !self.is_empty {
            text.push_str(", ")?;
        }
        self.is_empty = false;
        text.push_str("\"")?;
        text.push_str(word)?;
        text.push_str("\"")?;
        Ok(())
    }

    /// Appends the end of the list.
    pub(crate) fn end(self, text: &mut String) -> Result<(), AllocError> {
        let Words { is_empty: _ } = self;
        text.push_str("]")?;
        Ok(())
    }
}

/// A list whose members are objects, each in a line of its own.
#[derive(Clone, Copy, Debug)]
pub(crate) struct Rows {
    is_empty: bool,
}

impl Rows {
    /// Appends the key of a list, and its beginning.
    pub(crate) fn begin(text: &mut String, key: &str) -> Result<Rows, AllocError> {
        text.push_str(",\n \"")?;
        text.push_str(key)?;
        text.push_str("\": [")?;
        Ok(Rows { is_empty: true })
    }

    /// Appends the beginning of a member.
    pub(crate) fn begin_row(&mut self, text: &mut String) -> Result<(), AllocError> {
        if self.is_empty {
            text.push_str("\n  {")?;
        } else {
            text.push_str(",\n  {")?;
        }
        self.is_empty = false;
        Ok(())
    }

    /// Appends the end of the list.
    pub(crate) fn end(self, text: &mut String) -> Result<(), AllocError> {
        let Rows { is_empty } = self;
        if is_empty {
            text.push_str("]")?;
        } else {
            text.push_str("\n ]")?;
        }
        Ok(())
    }
}
