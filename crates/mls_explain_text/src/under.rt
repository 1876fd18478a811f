//! The lines of a text behind its first, as they stand under a line.
ghost use Rattle.std.specs.Prelude.{◌≡◌, ◌++◌, ◌<◌, length, string_bytes, OnOk};
ghost use Rattle.std.specs.List.{flat_map};
ghost use Rattle.mls_explain_text.specs.Under.{behind_first, filled, indented, told_lines, under_text};

use std::alloc::AllocError;

/// The first line of a text, which may be empty, and what stands behind its newline.
fn next_line(text: &str) -> (&str, &str)
    requires { 0 < length text.now }
    ensures lines { told_lines text.now ≡ filled result.0.now ++ told_lines result.1.now }
    ensures rest { length result.1.now < length text.now }
{
    match text.split_once('\n') {
        Some(parts) => parts,
        None => (text, ""),
    }
}

/// What stands behind the first line of a text that has a byte.
#[tactic(auto, using(crate::proofs::Cuts::behind, crate::proofs::Cuts::skips, crate::proofs::Cuts::ends))]
pub(crate) fn behind_first_line(told: &str) -> &str
    ensures { told_lines result.now ≡ behind_first (told_lines told.now) }
{
    let mut rest = told;
    while !rest.is_empty() {
        let (line, next) = next_line(rest);
        if !line.is_empty() {
            return next;
        }
        rest = next;
    }
    rest
}

/// Appends a line behind two spaces, and nothing for a line that has no byte.
fn push_indented(text: &mut String, line: &str) -> Result<(), AllocError>
    ensures { OnOk result (string_bytes text.new
        ≡ string_bytes text.old ++ flat_map indented (filled line.now)) }
{
    if line.is_empty() {
        return Ok(());
    }
    text.push_str("  ")?;
    text.push_str(line)?;
    text.push_str("\n")
}

/// Appends the lines of a text, each behind two spaces.
#[tactic(auto, using(crate::proofs::Cuts::indented_next, crate::proofs::Cuts::indented_all))]
fn push_lines(text: &mut String, told: &str) -> Result<(), AllocError>
    ensures { OnOk result (string_bytes text.new
        ≡ string_bytes text.old ++ flat_map indented (told_lines told.now)) }
{
    let mut rest = told;
    while !rest.is_empty() {
        let (line, next) = next_line(rest);
        push_indented(text, line)?;
        rest = next;
    }
    Ok(())
}

/// Appends the lines of a text behind its first, each behind two spaces. It takes memory for the text alone.
///
/// # Errors
/// `AllocError` where an allocation failed. The text may then have a part of them.
pub(crate) fn push_under(text: &mut String, told: &str) -> Result<(), AllocError>
    ensures { OnOk result (string_bytes text.new ≡ string_bytes text.old ++ under_text told.now) }
{
    push_lines(text, behind_first_line(told))
}
