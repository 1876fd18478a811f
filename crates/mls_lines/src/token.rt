//! The tokens of a line, as slices of it.
ghost use Rattle.std.specs.Prelude.{◌≡◌, ◌≢◌, ◌<◌, ◌≤◌, ℕ, List, length, slice_index, IsAscii, [], ◌∷◌, MatchOption};
ghost use Rattle.std.specs.Prelude.{option_map};
ghost use Rattle.mls_lines.specs.Tokens.{tokens_of, one_of, two_of, three_of, name_of, Spells};

use mls_labels::is_name;
use std::str;

/// The line without the spaces at its front.
fn skip_spaces(line: &[u8]) -> &[u8]
    ensures same { tokens_of result.now ≡ tokens_of line.now }
    ensures begins { 0 < length result.now → slice_index result.now 0 ≢ 32 }
{
    let mut rest = line;
    while let [b' ', others @ ..] = rest {
        rest = others;
    }
    rest
}

/// How many bytes stand before the first space.
fn word_len(line: &[u8]) -> usize
    ensures within { result ≤ length line.now }
    ensures word { (k : ℕ) → k < result → slice_index line.now k ≢ 32 }
    ensures ends { result < length line.now → slice_index line.now result ≡ 32 }
{
    for (i, byte) in line.iter().enumerate() {
        if *byte == b' ' {
            return i;
        }
    }
    line.len()
}

/// The first token of a line, and what stands after it. `None` where the line has no token.
pub(crate) fn next_token(line: &[u8]) -> Option<(&[u8], &[u8])>
    ensures { MatchOption result (tokens_of line.now ≡ []) (λ p. tokens_of line.now ≡ p.0.now ∷ tokens_of p.1.now) }
{
    let from = skip_spaces(line);
    if from.is_empty() {
        return None;
    }
    Some(from.split_at(word_len(from)))
}

/// The token of a line that has just one.
pub(crate) fn one_token(line: &[u8]) -> Option<&[u8]>
    ensures { option_map (λ t. t.now) result ≡ one_of (tokens_of line.now) }
{
    let (token, rest) = next_token(line)?;
    if next_token(rest).is_some() {
        None
    } else {
        Some(token)
    }
}

/// The tokens of a line that has just two.
pub(crate) fn two_tokens(line: &[u8]) -> Option<(&[u8], &[u8])>
    ensures { option_map (λ p. (p.0.now, p.1.now)) result ≡ two_of (tokens_of line.now) }
{
    let (first, rest) = next_token(line)?;
    let second = one_token(rest)?;
    Some((first, second))
}

/// The tokens of a line that has just three.
pub(crate) fn three_tokens(line: &[u8]) -> Option<(&[u8], &[u8], &[u8])>
    ensures { option_map (λ p. (p.0.now, p.1.now, p.2.now)) result ≡ three_of (tokens_of line.now) }
{
    let (first, rest) = next_token(line)?;
    let (second, third) = two_tokens(rest)?;
    Some((first, second, third))
}

/// ASCII bytes as text. They aren't looked at again.
pub(crate) fn as_text(bytes: &[u8]) -> &str
    requires { IsAscii bytes.now }
    ensures { result.now ≡ bytes.now }
{
    unsafe { str::from_utf8_unchecked(bytes) }
}

/// The token as a name, where it is one.
pub(crate) fn read_name(token: &[u8]) -> Option<&str>
    ensures { option_map (λ name. name.now) result ≡ name_of token.now }
{
    if is_name(token) {
        Some(as_text(token))
    } else {
        None
    }
}

/// The tokens of a line are what it spells, and it spells nothing else.
pub fn tokens_law(_line: &[u8])
    ensures spelled { Spells _line.now (tokens_of _line.now) }
    ensures alone { (tokens : List (List ℕ)) → Spells _line.now tokens → tokens ≡ tokens_of _line.now }
{}
