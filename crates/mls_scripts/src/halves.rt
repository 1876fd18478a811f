//! The two halves of a script's step: what a line asks, and what is made of the answer.
ghost use Rattle.std.specs.Prelude.{◌≡◌, ◌<◌, ◌++◌, string_bytes, option_map, IfSome, IfOk, OnOk};
ghost use Rattle.mls_scripts.specs.Script.{answer_bytes, vars_after};
ghost use Rattle.mls_scripts.specs.Halves.{heard, vars_told};

use crate::answer::Answer;
use crate::output::write_answer;
use mls_lines::Vars;
use mls_monitor::Answer as Told;
use mls_requests::{Ask, Reply};
use std::alloc::{AllocError, Allocator};

/// What a line asks, and the variable that it binds, where it has one.
#[derive(Clone, Copy, Debug, PartialEq, Eq)]
pub struct Asking<'a> {
    pub bind: Option<&'a str>,
    pub ask: Ask,
}

/// Appends an answer.
///
/// # Errors
/// `AllocError` where an allocation failed.
pub fn push_answer(text: &mut Vec<u8>, answer: Answer) -> Result<(), AllocError>
    ensures { OnOk result (text.new.items ≡ text.old.items ++ answer_bytes answer) }
{
    match write_answer(text, answer) {
        Ok(()) => Ok(()),
        Err(_) => Err(AllocError),
    }
}

/// Makes the room that binding a line's variable needs, where it has one. That is done before the line is asked, so
/// that an object that was made is always bound.
///
/// # Errors
/// `AllocError` where an allocation failed. All variables stay as they were on both results.
pub(crate) fn make_room<V: Allocator + Copy>(
    vars: &mut Vars<V>,
    bind: Option<&str>,
) -> Result<Option<String<V>>, AllocError>
    ensures name { IfOk result (λ room. option_map string_bytes room ≡ option_map (λ name. name.now) bind.entry) }
    ensures room { IfOk result (λ room. IfSome room (λ _. 0 < vars.new.room)) }
    ensures same { vars.new.bound ≡ vars.old.bound }
{
    match bind {
        None => Ok(None),
        Some(name) => {
            let room = vars.reserve(name)?;
            Ok(Some(room))
        }
    }
}

/// Binds the variable of a line, where it has one, to the object that its request made, where it made one. It doesn't
/// allocate.
pub(crate) fn bind_reply<V: Allocator>(vars: &mut Vars<V>, room: Option<String<V>>, reply: Reply)
    requires { IfSome room (λ _. 0 < vars.old.room) }
    ensures { vars.new.bound ≡ vars_after vars.old.bound (option_map string_bytes room) reply }
{
    if let (Some(name), Reply::Created(object)) = (room, reply) {
        vars.bind_reserved(name, object);
    }
}

/// Binds the variable of a line, where it has one, to the object that its answer tells of, where it tells of one. It
/// doesn't allocate.
pub(crate) fn bind_heard<V: Allocator>(vars: &mut Vars<V>, room: Option<String<V>>, answer: &Answer)
    requires { IfSome room (λ _. 0 < vars.old.room) }
    ensures { vars.new.bound ≡ vars_told vars.old.bound (option_map string_bytes room) answer.now }
{
    if let Answer::Replied(reply) = answer {
        bind_reply(vars, room, *reply);
    }
}

/// What an answer is to an ask: one of another kind than the ask is none.
pub(crate) fn hear(ask: Option<Ask>, answer: &Told) -> Answer
    ensures { result ≡ heard ask answer.now }
{
    match ask {
        None => Answer::Nothing,
        Some(Ask::Submit(_)) => match answer {
            Told::Entry(entry) => Answer::Replied(entry.reply),
            Told::Held(_) => Answer::Nothing,
        },
        Some(Ask::Check(_, _, _)) => match answer {
            Told::Entry(_) => Answer::Nothing,
            Told::Held(held) => Answer::Held(*held),
        },
    }
}
