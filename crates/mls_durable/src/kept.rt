//! What is kept of a line that isn't complete.
ghost use Rattle.std.specs.Prelude.{◌≡◌, ◌≤◌, ◌+◌, ◌-◌, ◌++◌, min, vec_len, OnOk};
ghost use Rattle.mls_durable.specs.Sessions.{kept_of};

use mls_lines::MAX_LINE;
use std::alloc::AllocError;

/// The most bytes that are kept of a line that isn't complete: a byte more than the line of a script may have, and what
/// stands before that in a session's line.
const KEPT: usize = MAX_LINE + 14;

/// How many of so many more bytes are kept of a line of which `len` are kept.
fn kept_count(len: usize, more: usize) -> usize
    requires { len ≤ KEPT }
    ensures { result ≡ min more (KEPT - len) }
{
    more.min(KEPT - len)
}

/// Keeps more bytes of a line that isn't complete: as many as decide its answer.
///
/// # Errors
/// `AllocError` where an allocation failed.
pub(crate) fn keep(line: &mut Vec<u8>, more: &[u8]) -> Result<(), AllocError>
    requires { vec_len line.old ≤ KEPT }
    ensures ok { OnOk result (line.new.items ≡ kept_of (line.old.items ++ more.now)) }
{
    let count = kept_count(line.len(), more.len());
    if line.extend_from_slice(&more[..count]).is_err() {
        return Err(AllocError);
    }
    Ok(())
}
