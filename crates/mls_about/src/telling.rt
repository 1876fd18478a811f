//! What is told of a subject or of an object, over a start file and a journal that were replayed.
ghost use Rattle.std.specs.Prelude.{◌≡◌, ◌≤◌, length, option_map, take, IfErr, IfOk};
ghost use Rattle.mls_replay.specs.Replays.{IsWithin};
ghost use Rattle.mls_rows.specs.Times.{rows_lent};
ghost use Rattle.mls_about.specs.About.{told_entries, TellsThing, TellsNamed, RefusesNamed};

use crate::object::object_rows;
use crate::subject::subject_rows;
use crate::thing::Thing;
use mls_marks::Marks;
use mls_replay::{QuestionFault, Replay};
use mls_requests::Entry;
use mls_rows::{Form, Listing};
use std::alloc::{AllocError, Global};

/// The first entries, so many of them.
fn first_entries(entries: &[Entry], number: u64) -> &[Entry]
    requires { number ≤ length entries.now }
    ensures { result.now ≡ take number entries.now }
{
    &entries[..number as usize]
}

/// The entries that are told of, where some are.
fn told_entries(entries: &[Entry], number: Option<u64>) -> Option<&[Entry]>
    requires { IsWithin number entries.now }
    ensures { option_map (λ lent. lent.now) result ≡ told_entries number entries.now }
{
    match number {
        Some(number) => Some(first_entries(entries, number)),
        None => None,
    }
}

/// What is told of a subject or of an object, in the state that is seen.
fn thing_rows(
    alloc: Global,
    form: Form,
    seen: &Replay,
    thing: Thing,
    marks: Option<&Marks>,
    entries: Option<&[Entry]>,
) -> Result<Vec<u8>, AllocError>
    ensures { IfOk result (λ bytes. TellsThing form seen.now (rows_lent marks.entry)
        (option_map (λ lent. lent.now) entries.entry) thing bytes.items) }
{
    let (names, state) = (seen.names(), seen.state());
    match thing {
        Thing::Subject(s) => subject_rows(alloc, form, names, state, s, marks, entries),
        Thing::Object(o) => {
            let start = seen.start();
            object_rows(alloc, form, names, start, state, o, marks, entries)
        }
    }
}

/// All that there is to tell of a subject or of an object, which a word names, in the state that a replay looks at. It
/// is a row each in a form. Of a subject: itself, its permissions with what their gets would be answered, what it
/// holds, what it may change; and where entries are told of, how many of the first so many it asked and how many of
/// these were denied, and those that ask for a permission for it or that one be rescinded. Of an object: itself, its
/// children, who may get it, who holds it, and those of the first entries that changed it. With marks the times of
/// entries are told. The answer is positive where there is a row.
///
/// # Errors
/// - `Object` where the word is to name an object, and is neither a name of the start's objects nor `#` and a number;
///   else `Subject` where it is neither such a word nor a name of the start's subjects.
/// - `Files` with `Memory` as soon as an allocation fails.
pub fn list_about(
    alloc: Global,
    form: Form,
    replay: &Replay,
    number: Option<u64>,
    marks: Option<&Marks>,
    word: &str,
    is_object: bool,
) -> Result<Listing, QuestionFault>
    requires { IsWithin number replay.now.entries }
    ensures ok { IfOk result
        (λ answer. TellsNamed form replay.now number (rows_lent marks.entry) word.now is_object
        answer.bytes.items answer.is_positive) }
    ensures fault { IfErr result (λ fault. RefusesNamed replay.now.names word.now is_object fault) }
{
    let thing = Thing::named(replay.names(), word, is_object)?;
    let entries = told_entries(replay.entries(), number);
    let bytes = thing_rows(alloc, form, replay, thing, marks, entries)?;
    let is_positive = bytes.len() != 0;
    Ok(Listing { bytes, is_positive })
}
