//! Lines of bytes, and the short script.

/// A get, the same again, and a check of it.
pub const SHORT: &[u8] = b"ann get-read plans\nann get-read plans\nann check read plans\n";

/// Its answers.
pub const SHORT_ANSWERS: &[u8] = b"yes\nyes\nheld\n";

/// How many lines end within the bytes.
pub fn count_lines(bytes: &[u8]) -> usize {
    bytes.iter().filter(|byte| **byte == b'\n').count()
}

/// The bytes after so many lines.
pub fn after_lines(bytes: &[u8], lines: usize) -> &[u8] {
    let mut rest = bytes;
    for _ in 0..lines {
        let Some(end) = rest.iter().position(|byte| *byte == b'\n') else {
            return &[];
        };
        rest = rest.get(end.saturating_add(1)..).unwrap_or(&[]);
    }
    rest
}

/// The first so many lines of the bytes.
pub fn first_lines(bytes: &[u8], lines: usize) -> &[u8] {
    let rest = after_lines(bytes, lines).len();
    bytes
        .get(..bytes.len().saturating_sub(rest))
        .unwrap_or(bytes)
}
