//! The rows of an answer.
ghost use Rattle.std.specs.Prelude.{◌≡◌, ◌++◌, IfOk, true, false};
ghost use Rattle.mls_rows.specs.Rows.{bytes_of, form_of};
ghost use Rattle.mls_shared_rows.specs.Requests.{requests_bytes};
ghost use Rattle.mls_futures_text.specs.Rows.{answer_bytes, reasons_bytes};

use crate::answer_row::AnswerRow;
use crate::barrier::{Barrier, Why};
use mls_lines::Names;
use mls_requests::Request;
use mls_rows::{Form, Listing, Output};
use mls_shared_rows::with_requests;
use std::alloc::{AllocError, Global};

/// The first row of an answer.
fn answered(alloc: Global, form: Form, names: &Names, could: bool) -> Result<Output, AllocError>
    ensures form { IfOk result (λ new. form_of new ≡ form) }
    ensures bytes { IfOk result (λ new. bytes_of new ≡ answer_bytes form could) }
{
    Output::new(alloc, form).with(names, None, &AnswerRow { could })
}

/// The rows with those of reasons behind them.
fn with_reasons(
    alloc: Global,
    output: Output,
    names: &Names,
    found: &[Why],
) -> Result<Output, AllocError>
    ensures form { IfOk result (λ new. form_of new ≡ form_of output) }
    ensures bytes { IfOk result
        (λ new. bytes_of new ≡ bytes_of output ++ reasons_bytes names.now (form_of output) found.now) }
{
    let mut output = output;
    for why in found {
        let row = Barrier { alloc, why: *why };
        output = output.with(names, None, &row)?;
    }
    Ok(output)
}

/// That an access could come about, and the releases and the requests that bring it about.
pub(crate) fn written_script(
    alloc: Global,
    form: Form,
    names: &Names,
    releases: &[Request],
    requests: &[Request],
) -> Result<Listing, AllocError>
    ensures bytes { IfOk result (λ listing. listing.bytes.items ≡ answer_bytes form true
        ++ requests_bytes names.now form releases.now ++ requests_bytes names.now form requests.now) }
    ensures positive { IfOk result (λ listing. listing.is_positive ≡ true) }
{
    let output = answered(alloc, form, names, true)?;
    let output = with_requests(alloc, output, names, releases)?;
    let output = with_requests(alloc, output, names, requests)?;
    Ok(Listing {
        bytes: output.into_bytes(),
        is_positive: true,
    })
}

/// That an access never comes about, and why.
pub(crate) fn written_never(
    alloc: Global,
    form: Form,
    names: &Names,
    found: &[Why],
) -> Result<Listing, AllocError>
    ensures bytes { IfOk result (λ listing. listing.bytes.items ≡ answer_bytes form false
        ++ reasons_bytes names.now form found.now) }
    ensures positive { IfOk result (λ listing. listing.is_positive ≡ false) }
{
    let output = answered(alloc, form, names, false)?;
    let output = with_reasons(alloc, output, names, found)?;
    Ok(Listing {
        bytes: output.into_bytes(),
        is_positive: false,
    })
}
