//! Texts as a page has them.
ghost use Rattle.std.specs.Prelude.{◌≡◌, ◌++◌, ◌∷◌, [], OnOk, IfSome, IfNone};
ghost use Rattle.mls_markup.specs.Escaping.{written, escaped};

use std::alloc::AllocError;

/// What is written of a byte in place of itself, where something is: a reference of those that HTML reads, and of
/// control characters one of U+FFFD.
fn reference(byte: u8) -> Option<&'static str>
    ensures some { IfSome result (λ word. written byte ≡ word.now) }
    ensures none { IfNone result (written byte ≡ byte ∷ []) }
{
    match byte {
        b'&' => Some("&amp;"),
        b'<' => Some("&lt;"),
        b'>' => Some("&gt;"),
        b'"' => Some("&quot;"),
        b'\'' => Some("&#39;"),
        byte if byte < b' ' || byte == 127 => Some("&#xFFFD;"),
        _ => None,
    }
}

/// Appends what is written of a byte.
fn push_written(bytes: &mut Vec<u8>, byte: u8) -> Result<(), AllocError>
    ensures { OnOk result (bytes.new.items ≡ bytes.old.items ++ written byte) }
{
    match reference(byte) {
        Some(word) => bytes.extend_from_slice(word.as_bytes())?,
        None => bytes.push(byte)?,
    }
    Ok(())
}

/// Appends what is written of a text.
///
/// # Errors
/// `AllocError` where an allocation failed. A front of it may then be there.
pub(crate) fn escape(bytes: &mut Vec<u8>, text: &str) -> Result<(), AllocError>
    ensures { OnOk result (bytes.new.items ≡ bytes.old.items ++ escaped text.now) }
{
    for byte in text.as_bytes() {
        push_written(bytes, *byte)?;
    }
    Ok(())
}
