//! Subjects as rows.
ghost use Rattle.std.specs.Prelude.{◌≡◌, Some, codes};
ghost use Rattle.mls_labels.specs.Label.{Label};
ghost use Rattle.mls_rows.specs.Members.{Adds, text_member};
ghost use Rattle.mls_shared_rows.specs.StateRows.{current_member, label_members, maximum_member, subject_members};
ghost use Rattle.mls_shared_rows.specs.StateRows.{truth_member};
ghost use Rattle.mls_snapshots.specs.States.{subject_parts};
ghost use Rattle.mls_wording.specs.Wording.{security_text};

use crate::asked::write_integrity;
use crate::subject_lines::push_subject_line;
use json::Writer;
use mls_labels::SecLabel;
use mls_lines::Names;
use mls_marks::Marks;
use mls_rows::{Told, write_subject, write_text};
use mls_state::Subject;
use mls_tables::SubjectId;
use mls_wording::push_security;
use std::alloc::{AllocError, Global};

/// A subject with its labels, and whether it is trusted.
#[derive(Clone, Copy)]
pub(crate) struct SubjectRow {
    pub alloc: Global,
    pub subject: SubjectId,
    pub labels: Subject,
}

/// Writes a security label under a key.
fn write_label(
    alloc: Global,
    writer: &mut Writer,
    at: &str,
    names: &Names,
    label: SecLabel,
) -> Result<(), AllocError>
    ensures { Adds result writer.old writer.new (text_member at.now (security_text names.now label)) }
{
    let mut word = String::new(alloc);
    push_security(&mut word, names, label)?;
    let written = write_text(writer, at, word.as_str());
    drop(word);
    written
}

/// Writes the maximum label of a subject.
fn write_maximum(
    alloc: Global,
    writer: &mut Writer,
    names: &Names,
    label: SecLabel,
) -> Result<(), AllocError>
    ensures { Adds result writer.old writer.new (maximum_member names.now label) }
{
    write_label(alloc, writer, "maximum", names, label)
}

/// Writes the current label of a subject.
fn write_current(
    alloc: Global,
    writer: &mut Writer,
    names: &Names,
    label: SecLabel,
) -> Result<(), AllocError>
    ensures { Adds result writer.old writer.new (current_member names.now label) }
{
    write_label(alloc, writer, "current", names, label)
}

/// Writes the three labels of a subject.
fn write_labels(
    alloc: Global,
    writer: &mut Writer,
    names: &Names,
    subject: &Subject,
) -> Result<(), AllocError>
    ensures { Adds result writer.old writer.new
        (label_members names.now subject.now.maximum subject.now.current subject.now.integrity) }
{
    write_maximum(alloc, writer, names, subject.maximum)?;
    write_current(alloc, writer, names, subject.current)?;
    write_integrity(alloc, writer, names, subject.integrity)
}

/// Writes whether a subject is trusted.
fn write_trusted(writer: &mut Writer, trusted: bool) -> Result<(), AllocError>
    ensures { Adds result writer.old writer.new (truth_member (codes "trusted") trusted) }
{
    writer.key("trusted")?;
    writer.boolean(trusted)
}

impl Told for SubjectRow {
    ghost line = { λ names marks r. subject_parts names r.subject (Some r.labels.maximum)
        (Some r.labels.current) (Some r.labels.integrity) r.labels.trusted };

    ghost members = { λ names marks r. subject_members names r.subject r.labels.maximum
        r.labels.current r.labels.integrity r.labels.trusted };

    fn push_line(
        &self,
        text: &mut String,
        names: &Names,
        _marks: Option<&Marks>,
    ) -> Result<(), AllocError> {
        push_subject_line(text, names, self.subject, &self.labels)
    }

    fn write_members(
        &self,
        writer: &mut Writer,
        names: &Names,
        _marks: Option<&Marks>,
    ) -> Result<(), AllocError> {
        write_subject(writer, names, self.subject)?;
        write_labels(self.alloc, writer, names, &self.labels)?;
        write_trusted(writer, self.labels.trusted)
    }
}
