//! Why a request has its reply, without that.
ghost use Rattle.std.specs.Prelude.{string_bytes, IfOk};
ghost use Rattle.mls_explain_text.specs.Entries.{TellsWhy};

use crate::explaining::push_request;
use crate::under::behind_first_line;
use mls_lines::Names;
use mls_requests::Request;
use mls_rules::State;
use std::alloc::{AllocError, Global};

/// What [`explain`](crate::explain) tells of a request in a state behind its reply: a line for each condition of its
/// rule, with the accesses in its way, and the remedy.
///
/// # Errors
/// `AllocError` where an allocation failed.
pub fn why(
    alloc: Global,
    names: &Names,
    state: &State,
    request: &Request,
) -> Result<String, AllocError>
    ensures { IfOk result (λ text. TellsWhy names.now state.now request.now (string_bytes text)) }
{
    let mut told = String::new(alloc);
    push_request(alloc, &mut told, names, state, request)?;
    let text = String::from_str(alloc, behind_first_line(&told));
    drop(told);
    text
}
