//! Numbers of requests that two starts answer otherwise, as rows.
ghost use Rattle.std.specs.Prelude.{◌≡◌, ◌++◌, codes, string_bytes, OnOk};
ghost use Rattle.mls_differences.specs.Counting.{count_line, count_members, number_line, words_members};
ghost use Rattle.mls_requests.specs.ReasonWords.{reason_word};
ghost use Rattle.mls_requests.specs.ReplyWords.{reply_word};
ghost use Rattle.mls_rows.specs.Members.{Adds, number_member, text_member};

use crate::compared::Compared;
use json::Writer;
use mls_lines::Names;
use mls_requests::{Reason, ReplyWord};
use mls_rows::{write_number, write_subject, write_text};
use mls_tables::SubjectId;
use mls_wording::{push_number, push_subject};
use std::alloc::{AllocError, Global};

/// How much two starts have or answer otherwise.
#[derive(Clone, Copy)]
pub enum Count {
    /// How much else than gets.
    Changes(u64),
    /// How many gets.
    Gets(u64),
    /// How many entries.
    Entries(u64),
    /// How many requests of a subject, by the first word of both replies, the first start's first.
    Pair(SubjectId, ReplyWord, ReplyWord, u64),
    /// How many requests the second start denies for a reason.
    Denied(Reason, u64),
}

/// Appends a word and a number, and the end of the line.
fn push_line_of(text: &mut String, word: &str, number: u64) -> Result<(), AllocError>
    ensures { OnOk result (string_bytes text.new ≡ string_bytes text.old ++ number_line word.now number) }
{
    text.push_str(word)?;
    text.push_str(" ")?;
    push_number(text, number)?;
    text.push_str("\n")
}

/// Writes how many there are.
fn write_count(writer: &mut Writer, number: u64) -> Result<(), AllocError>
    ensures { Adds result writer.old writer.new (number_member (codes "count") number) }
{
    write_number(writer, "count", number)
}

/// Writes a reason.
fn write_reason(writer: &mut Writer, reason: Reason) -> Result<(), AllocError>
    ensures { Adds result writer.old writer.new (text_member (codes "reason") (reason_word reason)) }
{
    write_text(writer, "reason", reason.word())
}

/// Writes the first word of the first start's replies.
fn write_first(writer: &mut Writer, word: ReplyWord) -> Result<(), AllocError>
    ensures { Adds result writer.old writer.new (text_member (codes "first") (reply_word word)) }
{
    write_text(writer, "first", word.word())
}

/// Writes the first word of the second start's replies.
fn write_second(writer: &mut Writer, word: ReplyWord) -> Result<(), AllocError>
    ensures { Adds result writer.old writer.new (text_member (codes "second") (reply_word word)) }
{
    write_text(writer, "second", word.word())
}

/// Writes the first words of both replies.
fn write_words(writer: &mut Writer, first: ReplyWord, second: ReplyWord) -> Result<(), AllocError>
    ensures { Adds result writer.old writer.new (words_members first second) }
{
    write_first(writer, first)?;
    write_second(writer, second)
}

/// Writes how much else than gets differs.
fn write_changes(writer: &mut Writer, number: u64) -> Result<(), AllocError>
    ensures { Adds result writer.old writer.new (number_member (codes "changes") number) }
{
    write_number(writer, "changes", number)
}

/// Writes how many gets differ.
fn write_gets(writer: &mut Writer, number: u64) -> Result<(), AllocError>
    ensures { Adds result writer.old writer.new (number_member (codes "gets") number) }
{
    write_number(writer, "gets", number)
}

/// Writes how many entries differ.
fn write_entries(writer: &mut Writer, number: u64) -> Result<(), AllocError>
    ensures { Adds result writer.old writer.new (number_member (codes "entries") number) }
{
    write_number(writer, "entries", number)
}

impl Compared for Count {
    ghost line = { λ file other a b row. count_line a row };

    ghost members = { λ a b row. count_members a row };

    fn push_line(
        &self,
        _alloc: Global,
        text: &mut String,
        _words: (&str, &str),
        names: (&Names, &Names),
    ) -> Result<(), AllocError> {
        match self {
            Count::Changes(number) => push_line_of(text, "changes", *number),
            Count::Gets(number) => push_line_of(text, "gets", *number),
            Count::Entries(number) => push_line_of(text, "entries", *number),
            Count::Pair(s, first, second, number) => {
                push_subject(text, names.0, *s)?;
                text.push_str(" ")?;
                text.push_str(first.word())?;
                text.push_str(" > ")?;
                push_line_of(text, second.word(), *number)
            }
            Count::Denied(reason, number) => {
                text.push_str("no ")?;
                push_line_of(text, reason.word(), *number)
            }
        }
    }

    fn write_members(
        &self,
        _alloc: Global,
        writer: &mut Writer,
        names: (&Names, &Names),
    ) -> Result<(), AllocError> {
        match self {
            Count::Changes(number) => write_changes(writer, *number),
            Count::Gets(number) => write_gets(writer, *number),
            Count::Entries(number) => write_entries(writer, *number),
            Count::Pair(s, first, second, number) => {
                write_subject(writer, names.0, *s)?;
                write_words(writer, *first, *second)?;
                write_count(writer, *number)
            }
            Count::Denied(reason, number) => {
                write_reason(writer, *reason)?;
                write_count(writer, *number)
            }
        }
    }
}
