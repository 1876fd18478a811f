//! Texts that C lends, and texts that are copied out to it.
ghost use Rattle.std.specs.Prelude.{◌≡◌, ◌≢◌, ◌⊎◌, length, option_map, Some, if◌then◌else◌, nat_lt};
ghost use Rattle.mls_c.specs.Texts.{text_in, LiesIn, HasLength};
ghost use Rattle.mls_c.specs.declared.status.TheConstants.{OK, ERANGE};

use crate::status::{ERANGE, OK};
use std::str;

/// The text of bytes, where they are UTF-8.
#[tactic(auto, using(crate::proofs::Utf8::text_read, crate::proofs::Utf8::text_unread))]
pub(crate) fn text_of(bytes: &[u8]) -> Option<&str>
    ensures { option_map (λ text. text.now) result ≡ text_in bytes.now }
{
    match str::from_utf8(bytes) {
        Ok(text) => Some(text),
        Err(_) => None,
    }
}

/// Copies a text to the front of a buffer, and tells its length. Where the buffer is too short, only its length is
/// told.
pub(crate) fn copy_text(text: &[u8], buffer: &mut [u8], len: &mut usize) -> i32
    ensures status { result ≡ (if nat_lt (length buffer.old) (length text.now) then ERANGE else OK) }
    ensures copied { result ≡ OK → LiesIn (Some text.now) buffer.old buffer.new }
    ensures same { result ≢ OK → buffer.new ≡ buffer.old }
    ensures told { HasLength (Some text.now) len.new }
{
    *len = text.len();
    if buffer.len() < text.len() {
        return ERANGE;
    }
    let (front, _) = buffer.split_at_mut(text.len());
    front.copy_from_slice(text);
    OK
}
