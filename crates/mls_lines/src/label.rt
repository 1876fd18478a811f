//! Labels in a line.
ghost use Rattle.std.specs.Prelude.{◌≡◌};
ghost use Rattle.std.specs.List.{list_all};
ghost use Rattle.mls_lines.specs.Labels.{is_label_byte as label_byte, label_named};

use crate::fault::LineFault;
use crate::token::as_text;
use mls_labels::{Label, Scheme};
use std::alloc::Allocator;

/// Whether a byte may stand in a label.
fn is_label_byte(byte: u8) -> bool
    ensures { result ≡ label_byte byte }
{
    matches!(byte, b'!'..=b'~')
}

/// Whether each byte of a token may stand in a label.
fn has_label_bytes(token: &[u8]) -> bool
    ensures { result ≡ list_all label_byte token.now }
{
    token.iter().all(|byte| is_label_byte(*byte))
}

/// The label that a token names in a scheme.
pub(crate) fn read_scheme_label<A: Allocator>(
    scheme: &Scheme<A>,
    token: &[u8],
) -> Result<Label, LineFault>
    ensures { result ≡ label_named scheme.now token.now }
{
    if !has_label_bytes(token) {
        return Err(LineFault::BadForm);
    }
    match scheme.read(as_text(token)) {
        Ok(label) => Ok(label),
        Err(_) => Err(LineFault::BadLabel),
    }
}
