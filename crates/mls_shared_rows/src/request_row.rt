//! Rows of requests.
ghost use Rattle.mls_shared_rows.specs.Requests.{asked_members, request_line};

use crate::asked::write_asked;
use json::Writer;
use mls_lines::Names;
use mls_marks::Marks;
use mls_requests::Request;
use mls_rows::Told;
use mls_wording::push_request;
use std::alloc::{AllocError, Global};

/// A request of a script, as a row of an answer.
#[derive(Clone, Copy)]
pub(crate) struct RequestRow {
    pub alloc: Global,
    pub request: Request,
}

impl Told for RequestRow {
    ghost line = { λ names marks r. request_line names r.request };

    ghost members = { λ names marks r. asked_members names r.request };

    fn push_line(
        &self,
        text: &mut String,
        names: &Names,
        _marks: Option<&Marks>,
    ) -> Result<(), AllocError> {
        push_request(text, names, &self.request)?;
        text.push_str("\n")
    }

    fn write_members(
        &self,
        writer: &mut Writer,
        names: &Names,
        _marks: Option<&Marks>,
    ) -> Result<(), AllocError> {
        write_asked(self.alloc, writer, names, &self.request)
    }
}
