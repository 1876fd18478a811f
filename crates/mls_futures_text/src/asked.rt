//! The access that a line asks for.
ghost use Rattle.std.specs.Prelude.{◌≡◌};
ghost use Rattle.mls_futures_text.specs.Whether.{access_of, get_in, get_of};

use mls_explain_text::read_question;
use mls_lines::{LineFault, Names};
use mls_requests::{Action, Ask, Request};
use mls_tables::{Mode, ObjectId, SubjectId};
use std::alloc::Global;

/// The access that a request asks for, which is to be a get.
fn access_of(request: &Request) -> Result<(SubjectId, ObjectId, Mode), LineFault>
    ensures { result ≡ access_of request.now.subject request.now.action }
{
    match &request.action {
        Action::Get(x, o) => Ok((request.subject, *o, *x)),
        _ => Err(LineFault::BadForm),
    }
}

/// The access that is asked for, which is to be that of a get.
fn get_in(asked: Ask) -> Result<(SubjectId, ObjectId, Mode), LineFault>
    ensures { result ≡ get_in asked }
{
    match asked {
        Ask::Submit(request) => access_of(&request),
        Ask::Check(_, _, _) => Err(LineFault::BadForm),
    }
}

/// The access that a line asks for, by the names of a start.
///
/// # Errors
/// The first fault of the line; `BadForm` where it asks for no get.
pub(crate) fn get_of(
    alloc: Global,
    names: &Names,
    line: &[u8],
) -> Result<(SubjectId, ObjectId, Mode), LineFault>
    ensures { result ≡ get_of names.now line.now }
{
    match read_question(alloc, names, line) {
        Ok(asked) => get_in(asked),
        Err(fault) => Err(fault),
    }
}
