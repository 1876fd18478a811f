//! The rows that a state's answer begins with.
ghost use Rattle.std.specs.Prelude.{◌≡◌, ◌++◌, codes, string_bytes, OnOk};
ghost use Rattle.mls_rows.specs.Members.{Adds, number_member};
ghost use Rattle.mls_snapshots.specs.States.{profile_number};
ghost use Rattle.mls_shared_rows.specs.StateRows.{head_line, head_members, word_line};

use json::Writer;
use mls_lines::Names;
use mls_marks::Marks;
use mls_rows::{Told, write_number};
use mls_tree::Profile;
use mls_wording::push_number;
use std::alloc::AllocError;

/// What is said of a state as a whole.
#[derive(Clone, Copy)]
pub(crate) enum HeadRow {
    /// Its profile.
    Profile(Profile),
    /// The number that the next object will have.
    Next(u16),
}

/// The number of a profile.
fn profile_number(profile: Profile) -> u64
    ensures { result ≡ profile_number profile }
{
    match profile {
        Profile::One => 1,
        Profile::Two => 2,
    }
}

/// Appends a line with a word and a number.
fn push_word_line(text: &mut String, word: &str, number: u64) -> Result<(), AllocError>
    ensures { OnOk result (string_bytes text.new ≡ string_bytes text.old ++ word_line word.now number) }
{
    text.push_str(word)?;
    push_number(text, number)?;
    text.push_str("\n")
}

impl Told for HeadRow {
    ghost line = { λ names marks r. head_line r };

    ghost members = { λ names marks r. head_members r };

    fn push_line(
        &self,
        text: &mut String,
        _names: &Names,
        _marks: Option<&Marks>,
    ) -> Result<(), AllocError> {
        match self {
            HeadRow::Profile(profile) => {
                push_word_line(text, "profile ", profile_number(*profile))
            }
            HeadRow::Next(next) => push_word_line(text, "next ", u64::from(*next)),
        }
    }

    fn write_members(
        &self,
        writer: &mut Writer,
        _names: &Names,
        _marks: Option<&Marks>,
    ) -> Result<(), AllocError> {
        match self {
            HeadRow::Profile(profile) => write_number(writer, "profile", profile_number(*profile)),
            HeadRow::Next(next) => write_number(writer, "next", u64::from(*next)),
        }
    }
}
