//! Names of levels and categories, as texts.
ghost use Rattle.std.specs.Prelude.{◌≡◌, map};
ghost use Rattle.std.specs.List.{list_all, list_any, prefix_len};
ghost use Rattle.std.specs.Str.{bytes_eq};
ghost use Rattle.mls_labels.specs.Names.{is_name, is_name_byte, is_name_len, has_twice};

use crate::limits::MAX_NAME;

/// Whether the byte may stand in a name.
fn is_name_byte(byte: u8) -> bool
    ensures { result ≡ is_name_byte byte }
{
    matches!(byte, b'a'..=b'z') || matches!(byte, b'A'..=b'Z' | b'0'..=b'9' | b'-' | b'_')
}

/// How many bytes of a name stand at the front.
pub(crate) fn front_len(bytes: &[u8]) -> usize
    ensures { result ≡ prefix_len is_name_byte bytes.now }
{
    let mut len = 0;
    for &byte in bytes {
        if !is_name_byte(byte) {
            return len;
        }
        len += 1;
    }
    len
}

/// Whether a name may have this many bytes.
pub(crate) fn is_name_len(len: usize) -> bool
    ensures { result ≡ is_name_len len }
{
    1 <= len && len <= MAX_NAME
}

/// Whether each of the bytes may stand in a name.
fn has_name_bytes(bytes: &[u8]) -> bool
    ensures { result ≡ list_all is_name_byte bytes.now }
{
    bytes.iter().all(|byte| is_name_byte(*byte))
}

/// Whether the bytes are a name: 1 to `MAX_NAME` of the ASCII letters, digits, `-` and `_`.
pub fn is_name(bytes: &[u8]) -> bool
    ensures { result ≡ is_name bytes.now }
{
    is_name_len(bytes.len()) && has_name_bytes(bytes)
}

/// Whether each of the texts is a name.
pub(crate) fn are_names(texts: &[&str]) -> bool
    ensures { result ≡ list_all is_name (map (λ text. text.now) texts.now) }
{
    for text in texts {
        if !is_name(text.as_bytes()) {
            return false;
        }
    }
    true
}

/// Whether the text is one of these.
fn stands_in(text: &str, others: &[&str]) -> bool
    ensures { result ≡ list_any (λ other. bytes_eq other text.now) (map (λ other. other.now) others.now) }
{
    others.contains(&text)
}

/// Whether one of the texts stands twice.
pub(crate) fn has_twice(texts: &[&str]) -> bool
    ensures { result ≡ has_twice (map (λ text. text.now) texts.now) }
{
    for i in 0..texts.len() {
        let (_, others) = texts.split_at(i + 1);
        if stands_in(texts[i], others) {
            return true;
        }
    }
    false
}
