//! Whom a line asks for.
ghost use Rattle.std.specs.Prelude.{◌≡◌, option_map, true};
ghost use Rattle.mls_durable.specs.Sessions.{addressed, at_space, behind_mark, has_variable as has_variable_at, marked};
ghost use Rattle.mls_durable.specs.Sessions.{spaced};

use crate::options::Asker;
use memchr::memchr;
use mls_requests::read_decimal;

/// The greatest number that a session's line begins with.
pub const MAX_SESSION: u64 = 4_294_967_294;

/// Whom a line asks for.
#[derive(Clone, Copy, Debug, PartialEq, Eq)]
pub enum Who {
    /// The one session of the service: it is the line of a script.
    Script(u32),
    /// No session: it doesn't begin with the number of one and a space.
    Nobody,
    /// The session whose number it begins with.
    Session(u32),
    /// That session, which only wants to know what would be answered.
    Trial(u32),
}

/// What stands before the first space of a line, and what stands behind it.
fn split_at_space(line: &[u8]) -> Option<(&[u8], &[u8])>
    ensures { option_map (λ p. (p.0.now, p.1.now)) result ≡ at_space line.now }
{
    let end = memchr(b' ', line)?;
    let (front, rest) = line.split_at(end);
    Some((front, &rest[1..]))
}

/// What stands behind `? `, where a line begins with that.
fn skip_mark(line: &[u8]) -> Option<&[u8]>
    ensures { option_map (λ l. l.now) result ≡ behind_mark line.now }
{
    match line {
        [b'?', b' ', behind @ ..] => Some(behind),
        _ => None,
    }
}

/// Whom a line asks for that begins with this number of a session, and what of it is the line of a script.
fn address_numbered(session: u32, line: &[u8]) -> (Who, &[u8])
    ensures { (result.0, result.1.now) ≡ marked session line.now (behind_mark line.now) }
{
    match skip_mark(line) {
        Some(behind) => (Who::Trial(session), behind),
        None => (Who::Session(session), line),
    }
}

/// Whom a line asks for that begins with the number of its session, and what of it is the line of a script.
fn address_each(line: &[u8]) -> (Who, &[u8])
    ensures { (result.0, result.1.now) ≡ spaced (at_space line.now) }
{
    let Some((digits, rest)) = split_at_space(line) else {
        return (Who::Nobody, &[]);
    };
    match read_decimal(digits, MAX_SESSION) {
        Some(session) => address_numbered(session as u32, rest),
        None => (Who::Nobody, &[]),
    }
}

/// Whom a line asks for, and what of it is the line of a script.
pub(crate) fn address(asker: Asker, line: &[u8]) -> (Who, &[u8])
    ensures { (result.0, result.1.now) ≡ addressed asker line.now }
{
    match asker {
        Asker::Session(session) => (Who::Script(session), line),
        Asker::EachLine => address_each(line),
    }
}

/// Whether a token of a line begins with `$`, as a variable does: byte by byte.
fn is_token_marked(line: &[u8]) -> bool
    ensures { result ≡ has_variable_at true line.now }
{
    let mut is_start = true;
    let mut rest = line;
    while let [byte, others @ ..] = rest {
        if is_start && *byte == b'$' {
            return true;
        }
        is_start = *byte == b' ';
        rest = others;
    }
    false
}

/// Whether a token of a line begins with `$`, as a variable does. Few lines have that byte at all.
pub(crate) fn has_variable(line: &[u8]) -> bool
    ensures { result ≡ has_variable_at true line.now }
{
    match memchr(b'$', line) {
        Some(_) => is_token_marked(line),
        None => false,
    }
}
