//! Spans in which an access is held, as rows.
ghost use Rattle.std.specs.Prelude.{◌≡◌, ◌++◌, IfOk};
ghost use Rattle.mls_rows.specs.Rows.{bytes_of, form_of};
ghost use Rattle.mls_rows.specs.Times.{rows_lent};
ghost use Rattle.mls_spans.specs.Lines.{row_where, span_line, spans_bytes};
ghost use Rattle.mls_spans.specs.Members.{span_members};

use crate::choosing::{Choice, is_asked};
use crate::edges::{write_begin, write_ended};
use crate::held_lines::push_span;
use crate::span::Span;
use json::Writer;
use mls_lines::Names;
use mls_marks::Marks;
use mls_rows::{Form, Output, Told, write_access};
use std::alloc::{AllocError, Global};

impl Told for Span {
    ghost line = { span_line };

    ghost members = { span_members };

    fn push_line(
        &self,
        text: &mut String,
        names: &Names,
        marks: Option<&Marks>,
    ) -> Result<(), AllocError> {
        push_span(text, names, marks, self)
    }

    fn write_members(
        &self,
        writer: &mut Writer,
        names: &Names,
        marks: Option<&Marks>,
    ) -> Result<(), AllocError> {
        write_access(writer, names, self.access)?;
        write_begin(writer, marks, self.made)?;
        write_ended(writer, marks, &self.ended)
    }
}

/// Adds a span, where it is asked for.
fn with_span(
    output: Output,
    names: &Names,
    marks: Option<&Marks>,
    choice: &Choice,
    span: &Span,
) -> Result<Output, AllocError>
    ensures form { IfOk result (λ new. form_of new ≡ form_of output) }
    ensures bytes { IfOk result (λ new. bytes_of new
        ≡ bytes_of output ++ row_where (form_of output) names.now (rows_lent marks.entry) choice.now span.now) }
{
    if is_asked(choice, span) {
        return output.with(names, marks, span);
    }
    Ok(output)
}

/// The spans that are asked for, with times where there are marks.
pub(crate) fn spans_written(
    alloc: Global,
    form: Form,
    names: &Names,
    marks: Option<&Marks>,
    choice: &Choice,
    spans: &[Span],
) -> Result<Vec<u8>, AllocError>
    ensures { IfOk result (λ bytes. bytes.items
        ≡ spans_bytes form names.now (rows_lent marks.entry) choice.now spans.now) }
{
    let mut output = Output::new(alloc, form);
    for span in spans {
        output = with_span(output, names, marks, choice, span)?;
    }
    Ok(output.into_bytes())
}
