//! Findings as rows.
ghost use Rattle.mls_review.specs.LintRows.{finding_line, finding_members};

use crate::finding::Finding;
use crate::finding_lines::{push_dead, push_downflow, push_idle, push_unused};
use crate::finding_members::{write_dead, write_downflow, write_kind};
use json::Writer;
use mls_lines::Names;
use mls_marks::Marks;
use mls_rows::{Told, write_object, write_subject};
use std::alloc::AllocError;

impl Told for Finding {
    ghost line = { λ names rows found. finding_line names found };

    ghost members = { λ names rows found. finding_members names found };

    fn push_line(
        &self,
        text: &mut String,
        names: &Names,
        _marks: Option<&Marks>,
    ) -> Result<(), AllocError> {
        match self {
            Finding::Dead(d) => push_dead(text, names, d),
            Finding::Unused(o) => push_unused(text, names, *o),
            Finding::Idle(s) => push_idle(text, names, *s),
            Finding::Downflow(f) => push_downflow(text, names, f),
        }
    }

    fn write_members(
        &self,
        writer: &mut Writer,
        names: &Names,
        _marks: Option<&Marks>,
    ) -> Result<(), AllocError> {
        match self {
            Finding::Dead(d) => write_dead(writer, names, d),
            Finding::Unused(o) => {
                write_kind(writer, "unused")?;
                write_object(writer, names, *o)
            }
            Finding::Idle(s) => {
                write_kind(writer, "idle")?;
                write_subject(writer, names, *s)
            }
            Finding::Downflow(f) => write_downflow(writer, names, f),
        }
    }
}
