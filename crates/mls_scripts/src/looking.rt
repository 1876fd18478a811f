//! What a script that is fed asks next, what it asks ahead, and how that waits.
ghost use Rattle.std.specs.Prelude.{◌≡◌, ◌≢◌, ◌<◌, ◌≤◌, ◌++◌, ◌∷◌, [], length, option_map, not, nat_lt};
ghost use Rattle.std.specs.Prelude.{IfSome, IfOk, OnOk};
ghost use Rattle.std.specs.VecDeque.{deque_len, deque_capacity};
ghost use Rattle.mls_scripts.specs.Lines.{lines_of};
ghost use Rattle.mls_scripts.specs.Halves.{next_of};
ghost use Rattle.mls_scripts.specs.Asking.{asking, halt_at};

use crate::answer::Answer;
use crate::halves::{Asking, push_answer};
use crate::lines::first_line;
use mls_lines::{Line, LineFault, Names, Vars, read_line};
use std::alloc::AllocError;
use std::collections::VecDeque;

/// What stands next in a script.
#[derive(Clone, Copy)]
pub enum Next<'a> {
    /// Nothing: the script ends.
    End,
    /// A line that asks nothing: its fault.
    Fault(LineFault),
    /// A line that asks.
    Asks(Asking<'a>),
}

/// What stands next in a script, blank lines aside, and the bytes after it.
#[derive(Clone, Copy)]
pub struct Seen<'a> {
    pub next: Next<'a>,
    pub rest: &'a [u8],
}

/// Looks for the next line that isn't blank. It doesn't allocate.
#[tactic(auto, using(crate::proofs::HalfSteps::past_blank))]
pub(crate) fn look<'a>(names: &Names, vars: &Vars, bytes: &'a [u8]) -> Seen<'a>
    ensures next { next_of names.now vars.now.bound (lines_of bytes.now)
        ≡ halt_at names.now vars.now.bound result.next (lines_of result.rest.now) }
    ensures left { length result.rest.now ≤ length bytes.now }
    ensures less { result.next ≢ Next.End → length result.rest.now < length bytes.now }
{
    let mut rest = bytes;
    while let Some((line, more)) = first_line(rest) {
        match read_line(names, vars, line) {
            Ok(Line::Blank) => rest = more,
            Err(fault) => {
                return Seen {
                    next: Next::Fault(fault),
                    rest: more,
                };
            }
            Ok(Line::Ask { bind, ask }) => {
                return Seen {
                    next: Next::Asks(Asking { bind, ask }),
                    rest: more,
                };
            }
        }
    }
    Seen {
        next: Next::End,
        rest,
    }
}

/// Where a script halts: what it asks, where it doesn't end, and the bytes after that line.
#[derive(Clone, Copy)]
pub struct Halt<'a> {
    pub asks: Option<Asking<'a>>,
    pub rest: &'a [u8],
}

/// Goes over lines until one asks, and appends the answers to those on the way.
///
/// # Errors
/// `AllocError` where an allocation failed.
pub(crate) fn go_over<'a>(
    names: &Names,
    vars: &Vars,
    bytes: &'a [u8],
    text: &mut Vec<u8>,
) -> Result<Halt<'a>, AllocError>
    ensures text { OnOk result
        (text.new.items ≡ text.old.items ++ (next_of names.now vars.now.bound (lines_of bytes.now)).text) }
    ensures asks { IfOk result
        (λ h. option_map asking h.asks ≡ (next_of names.now vars.now.bound (lines_of bytes.now)).asks) }
    ensures rest { IfOk result
        (λ h. lines_of h.rest.now ≡ (next_of names.now vars.now.bound (lines_of bytes.now)).rest) }
    ensures left { IfOk result (λ h. length h.rest.now ≤ length bytes.now) }
    ensures less { IfOk result (λ h. IfSome h.asks (λ _. length h.rest.now < length bytes.now)) }
{
    let mut rest = bytes;
    loop {
        let Seen { next, rest: more } = look(names, vars, rest);
        match next {
            Next::Fault(fault) => {
                push_answer(text, Answer::Fault(fault))?;
                rest = more;
            }
            Next::Asks(asks) => {
                return Ok(Halt {
                    asks: Some(asks),
                    rest: more,
                });
            }
            Next::End => {
                return Ok(Halt {
                    asks: None,
                    rest: more,
                });
            }
        }
    }
}

/// Whether there is no room for one more behind those that wait.
pub(crate) fn is_full<T>(waiting: &VecDeque<T>) -> bool
    ensures { result ≡ not (nat_lt (deque_len waiting.now) (deque_capacity waiting.now)) }
{
    waiting.len() >= waiting.capacity()
}

/// Puts a copy behind those that wait, where there is room for it. It doesn't allocate.
pub(crate) fn enqueue<T: Copy>(waiting: &mut VecDeque<T>, item: &T)
    requires { deque_len waiting.old < deque_capacity waiting.old }
    ensures { waiting.new.items ≡ waiting.old.items ++ item.now ∷ [] }
{
    waiting.push_back_reserved(*item);
}
