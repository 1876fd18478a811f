//! Rows of requests, one behind the other.
ghost use Rattle.std.specs.Prelude.{◌≡◌, ◌++◌, IfOk};
ghost use Rattle.mls_rows.specs.Rows.{bytes_of, form_of};
ghost use Rattle.mls_shared_rows.specs.Requests.{requests_bytes};

use crate::request_row::RequestRow;
use mls_lines::Names;
use mls_requests::Request;
use mls_rows::Output;
use std::alloc::{AllocError, Global};

/// The rows with those of requests behind them.
///
/// # Errors
/// `AllocError` where an allocation failed.
pub fn with_requests(
    alloc: Global,
    output: Output,
    names: &Names,
    requests: &[Request],
) -> Result<Output, AllocError>
    ensures form { IfOk result (λ new. form_of new ≡ form_of output) }
    ensures bytes { IfOk result
        (λ new. bytes_of new ≡ bytes_of output ++ requests_bytes names.now (form_of output) requests.now) }
{
    let mut output = output;
    for request in requests {
        let row = RequestRow {
            alloc,
            request: *request,
        };
        output = output.with(names, None, &row)?;
    }
    Ok(output)
}
