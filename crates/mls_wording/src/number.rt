//! Numbers.
ghost use Rattle.std.specs.Prelude.{◌≡◌, ◌++◌, string_bytes, OnErr, OnOk};
ghost use Rattle.std.specs.Fmt.{decimal};
ghost use Rattle.mls_labels.specs.LabelText.{Extends};
ghost use Rattle.mls_wording.specs.Wording.{numbered};

use itoa::Buffer;
use std::alloc::AllocError;

/// Appends a number: decimal, without leading zeros.
///
/// # Errors
/// `AllocError` where an allocation failed. The text is then as it was.
pub fn push_number(text: &mut String, number: u64) -> Result<(), AllocError>
    ensures ok { OnOk result (string_bytes text.new ≡ string_bytes text.old ++ decimal number) }
    ensures err { OnErr result (string_bytes text.new ≡ string_bytes text.old) }
{
    let mut buffer = Buffer::new();
    text.push_str(buffer.format(number))
}

/// Appends `#` and a number, as no name is written.
#[tactic(auto, using(crate::proofs::Extending::stays, crate::proofs::Extending::grows))]
pub(crate) fn push_numbered(text: &mut String, number: u64) -> Result<(), AllocError>
    ensures ok { OnOk result (string_bytes text.new ≡ string_bytes text.old ++ numbered number) }
    ensures err { OnErr result (Extends (string_bytes text.old) (string_bytes text.new)) }
{
    text.push_str("#")?;
    push_number(text, number)
}
