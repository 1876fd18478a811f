//! Permissions and how they were used, as rows.
ghost use Rattle.std.specs.Prelude.{◌≡◌, ◌++◌, codes, length, filter, IfOk};
ghost use Rattle.mls_rows.specs.Members.{Adds, two_members};
ghost use Rattle.mls_rows.specs.Times.{entry_members, rows_lent};
ghost use Rattle.mls_spans.specs.Members.{ending_members, held_member, truth_member, usage_members};
ghost use Rattle.mls_rows.specs.Rows.{bytes_of, form_of};
ghost use Rattle.mls_spans.specs.Trust.{trust_bytes};
ghost use Rattle.mls_spans.specs.UsageLines.{ending_row, ending_text, usage_line, usages_bytes};
ghost use Rattle.mls_spans.specs.Uses.{is_unused};

use crate::trust::TrustUse;
use crate::usage::Usage;
use crate::usage_lines::{push_ending, push_usage};
use crate::uses::Uses;
use json::Writer;
use mls_lines::Names;
use mls_marks::Marks;
use mls_rows::{Form, Output, Plain, Told, write_access, write_entry, write_two, written};
use std::alloc::{AllocError, Global};

/// How many permissions there are, and how many of them were never granted.
#[derive(Clone, Copy)]
pub(crate) struct Counted {
    pub count: u64,
    pub unused: u64,
}

/// Writes how many gets were granted and denied.
fn write_counts(writer: &mut Writer, uses: &Uses) -> Result<(), AllocError>
    ensures { Adds result writer.old writer.new
        (two_members (codes "granted") (codes "denied") uses.now.granted uses.now.denied) }
{
    write_two(writer, ("granted", "denied"), (uses.granted, uses.denied))
}

/// Writes the last use.
fn write_last(
    writer: &mut Writer,
    marks: Option<&Marks>,
    last: Option<u64>,
) -> Result<(), AllocError>
    ensures { Adds result writer.old writer.new
        (entry_members (codes "last") (codes "last_time") (rows_lent marks.entry) last) }
{
    write_entry(writer, ("last", "last_time"), marks, last)
}

/// Writes a member that is true or false.
fn write_truth(writer: &mut Writer, at: &str, so: bool) -> Result<(), AllocError>
    ensures { Adds result writer.old writer.new (truth_member at.now so) }
{
    writer.key(at)?;
    writer.boolean(so)
}

/// Writes whether the first state has an access.
fn write_held(writer: &mut Writer, is_held: bool) -> Result<(), AllocError>
    ensures { Adds result writer.old writer.new (held_member is_held) }
{
    write_truth(writer, "held_at_start", is_held)
}

/// Writes how many permissions there are, and how many of them were never granted.
fn write_ending(writer: &mut Writer, count: u64, unused: u64) -> Result<(), AllocError>
    ensures { Adds result writer.old writer.new (ending_members count unused) }
{
    write_two(writer, ("permissions", "never_granted"), (count, unused))
}

impl Told for Usage {
    ghost line = { usage_line };

    ghost members = { usage_members };

    fn push_line(
        &self,
        text: &mut String,
        names: &Names,
        marks: Option<&Marks>,
    ) -> Result<(), AllocError> {
        push_usage(text, names, marks, self)
    }

    fn write_members(
        &self,
        writer: &mut Writer,
        names: &Names,
        marks: Option<&Marks>,
    ) -> Result<(), AllocError> {
        write_access(writer, names, self.access)?;
        write_counts(writer, &self.uses)?;
        write_last(writer, marks, self.uses.last)?;
        write_held(writer, self.is_held)
    }
}

impl Plain for Counted {
    ghost line = { λ counted. ending_text counted.count counted.unused };

    ghost members = { λ counted. ending_members counted.count counted.unused };

    fn push_line(&self, text: &mut String) -> Result<(), AllocError> {
        push_ending(text, self.count, self.unused)
    }

    fn write_members(&self, writer: &mut Writer) -> Result<(), AllocError> {
        write_ending(writer, self.count, self.unused)
    }
}

/// How many permissions were never granted.
pub fn count_unused(usages: &[Usage]) -> u64
    ensures { result ≡ length (filter is_unused usages.now) }
{
    let mut count = 0;
    for usage in usages {
        if usage.is_unused() {
            count += 1;
        }
    }
    count
}

/// An output with the uses of trust, with times where there are marks.
fn with_trust(
    output: Output,
    names: &Names,
    marks: Option<&Marks>,
    trust: &[TrustUse],
) -> Result<Output, AllocError>
    ensures form { IfOk result (λ new. form_of new ≡ form_of output) }
    ensures bytes { IfOk result (λ new. bytes_of new
        ≡ bytes_of output ++ trust_bytes (form_of output) names.now (rows_lent marks.entry) trust.now) }
{
    let mut written = output;
    for used in trust {
        written = written.with(names, marks, used)?;
    }
    Ok(written)
}

/// Permissions, with times where there are marks, the uses of trust, and how many permissions there are and how many of
/// them were never granted.
pub(crate) fn usages_written(
    alloc: Global,
    form: Form,
    names: &Names,
    marks: Option<&Marks>,
    usages: &[Usage],
    trust: &[TrustUse],
    unused: u64,
) -> Result<Vec<u8>, AllocError>
    ensures { IfOk result (λ bytes. bytes.items ≡ usages_bytes form names.now (rows_lent marks.entry) usages.now
        ++ trust_bytes form names.now (rows_lent marks.entry) trust.now ++ ending_row form (length usages.now) unused) }
{
    let counted = Counted {
        count: usages.len() as u64,
        unused,
    };
    let output = written(alloc, form, names, marks, usages)?;
    let output = with_trust(output, names, marks, trust)?;
    let output = output.with_plain(&counted)?;
    Ok(output.into_bytes())
}
