//! Cutting texts into parts.
ghost use Rattle.std.specs.Prelude.{◌≡◌, ◌<◌, ◌==◌, filter, length, map, nat_lt, IfOk};
ghost use Rattle.std.specs.List.{slice_split};
ghost use Rattle.mls_lines.specs.Tokens.{tokens_of};

use std::alloc::{AllocError, Global};

/// The parts of a text between such bytes.
pub(crate) fn cut(alloc: Global, text: &str, at: char) -> Result<Vec<&str>, AllocError>
    requires { at < 128 }
    ensures { IfOk result (λ parts. map (λ part. part.now) parts.items ≡ slice_split (λ b. b == at) text.now) }
{
    text.split(at).collect(alloc)
}

/// Those of some parts that have a byte.
#[tactic(auto, using(crate::proofs::Kept::kept_more))]
fn filled<'a>(alloc: Global, parts: &[&'a str]) -> Result<Vec<&'a str>, AllocError>
    ensures { IfOk result (λ filled. map (λ part. part.now) filled.items
        ≡ filter (λ part. nat_lt 0 (length part)) (map (λ part. part.now) parts.now)) }
{
    let mut filled = Vec::new(alloc);
    for part in parts {
        if !part.is_empty() {
            filled.push(*part)?;
        }
    }
    Ok(filled)
}

/// The tokens of a line.
pub(crate) fn tokens(alloc: Global, line: &str) -> Result<Vec<&str>, AllocError>
    ensures { IfOk result (λ tokens. map (λ token. token.now) tokens.items ≡ tokens_of line.now) }
{
    let parts = cut(alloc, line, ' ')?;
    let tokens = filled(alloc, &parts);
    drop(parts);
    tokens
}
