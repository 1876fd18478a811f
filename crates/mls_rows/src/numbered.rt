//! What `#` and digits tell.
ghost use Rattle.std.specs.Prelude.{◌≡◌, ◌∷◌, [], false, true, drop, MatchOption};
ghost use Rattle.mls_rows.specs.Members.{Adds, is_numbered, number_token};

use json::Writer;
use mls_requests::read_decimal;
use std::alloc::AllocError;

/// Writes a number; null of what is none.
#[tactic(auto, using(crate::proofs::Digits::digits_read, crate::proofs::Digits::digits_missing))]
pub(crate) fn write_digits(writer: &mut Writer, word: &str) -> Result<(), AllocError>
    ensures { Adds result writer.old writer.new (number_token word.now ∷ []) }
{
    match read_decimal(word.as_bytes(), u64::MAX) {
        Some(number) => writer.u64(number),
        None => writer.null(),
    }
}

/// What stands behind the `#` of a word.
pub(crate) fn digits_of<'a>(word: &'a str) -> Option<&'a str>
    ensures { MatchOption result (is_numbered word.now ≡ false)
        (λ rest. (is_numbered word.now ≡ true) × (rest.now ≡ drop 1 word.now)) }
{
    word.strip_prefix('#')
}
