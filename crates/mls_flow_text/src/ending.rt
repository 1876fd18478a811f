//! Rows that stand alone, or last.
ghost use Rattle.std.specs.Prelude.{◌≡◌, ◌++◌, IfOk};
ghost use Rattle.mls_rows.specs.Rows.{bytes_of, form_of};
ghost use Rattle.mls_flow_text.specs.Endings.{ending_line, ending_members, ending_tail, ending_word, full_bytes};
ghost use Rattle.mls_flow_text.specs.Endings.{is_full, never_bytes};

use json::Writer;
use mls_lines::Names;
use mls_marks::Marks;
use mls_rows::{Form, Output, Told, write_text};
use mls_rules::State;
use mls_tables::MAX_OBJECTS;
use mls_tree::Profile;
use std::alloc::{AllocError, Global};

/// What stands in a line alone, as a row of an answer.
#[derive(Clone, Copy)]
pub(crate) enum Ending {
    /// Content never comes to the place.
    Never,
    /// No number is free for an object that is made, unless one is deleted.
    Full,
}

/// The word of it.
fn ending_word(ending: Ending) -> &'static str
    ensures { result.now ≡ ending_word ending }
{
    match ending {
        Ending::Never => "never",
        Ending::Full => "full",
    }
}

/// What stands behind the word.
fn ending_tail(ending: Ending) -> &'static str
    ensures { result.now ≡ ending_tail ending }
{
    match ending {
        Ending::Never => "\n",
        Ending::Full => ": no object could be made without a delete\n",
    }
}

impl Told for Ending {
    ghost line = { λ names marks r. ending_line r };

    ghost members = { λ names marks r. ending_members r };

    fn push_line(
        &self,
        text: &mut String,
        _names: &Names,
        _marks: Option<&Marks>,
    ) -> Result<(), AllocError> {
        text.push_str(ending_word(*self))?;
        text.push_str(ending_tail(*self))
    }

    fn write_members(
        &self,
        writer: &mut Writer,
        _names: &Names,
        _marks: Option<&Marks>,
    ) -> Result<(), AllocError> {
        write_text(writer, "answer", ending_word(*self))
    }
}

/// Whether no number is free for an object that is made, and numbers are used again.
fn is_full(state: &State) -> bool
    ensures { result ≡ is_full state.now }
{
    match state.profile() {
        Profile::One => false,
        Profile::Two => state.next() >= MAX_OBJECTS,
    }
}

/// The rows with one behind them, where no object could be made without a delete.
///
/// # Errors
/// `AllocError` where an allocation failed.
pub(crate) fn with_full(output: Output, names: &Names, state: &State) -> Result<Output, AllocError>
    ensures { IfOk result (λ new. bytes_of new ≡ bytes_of output ++ full_bytes (form_of output) state.now) }
{
    if !is_full(state) {
        return Ok(output);
    }
    output.with(names, None, &Ending::Full)
}

/// That content never comes to a place.
///
/// # Errors
/// `AllocError` where an allocation failed.
pub(crate) fn never(alloc: Global, form: Form, names: &Names) -> Result<Output, AllocError>
    ensures form { IfOk result (λ new. form_of new ≡ form) }
    ensures bytes { IfOk result (λ new. bytes_of new ≡ never_bytes form) }
{
    Output::new(alloc, form).with(names, None, &Ending::Never)
}
