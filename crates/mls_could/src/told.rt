//! What could come about in the state that is seen.
ghost use Rattle.std.specs.Prelude.{◌≡◌, ℕ, IfErr, IfOk, OnOk, true};
ghost use Rattle.mls_could.specs.Actors.{are_known, is_actor, words_told, RefusesActors};
ghost use Rattle.mls_replay.specs.Naming.{object_word, or_fault};
ghost use Rattle.mls_could.specs.Rows.{RowsOfCould, TellsCould, RefusesCould};
ghost use Rattle.mls_futures.specs.Closure.{acts_in};
ghost use Rattle.mls_replay.specs.declared.command.CommandFault.TheVariants.{Memory};
ghost use Rattle.mls_replay.specs.declared.question_fault.QuestionFault.TheVariants.{Files, Object};
ghost use Rattle.mls_seen.specs.Files.{SeesThat};

use crate::actors::actors_of;
use crate::choice::Choice;
use crate::listed::list_could;
use mls_replay::{QuestionFault, named_object};
use mls_rows::{Form, Listing};
use mls_seen::Seen;
use mls_tables::{Mode, ObjectId};
use std::alloc::Global;

/// What becomes of the accesses to an object, in the state that is seen, whatever the actors do.
fn tell_acting(
    alloc: Global,
    form: Form,
    seen: &Seen,
    actors: &[bool],
    object: ObjectId,
    mode: Option<Mode>,
) -> Result<Listing, QuestionFault>
    ensures ok { IfOk result (λ answer. RowsOfCould seen.now.names seen.now.state (acts_in actors.now) object mode form
        answer.bytes.items answer.is_positive) }
    ensures fault { IfErr result (λ fault. fault ≡ Files Memory) }
{
    Ok(list_could(
        alloc,
        form,
        seen.names(),
        seen.state(),
        actors,
        object,
        mode,
    )?)
}

/// The object that a word names, by the names that are seen.
fn object_of(seen: &Seen, word: &str) -> Result<ObjectId, QuestionFault>
    ensures { result ≡ or_fault (object_word seen.now.names word.now) Object }
{
    named_object(seen.names(), word)
}

/// Who acts, in the state that is seen.
fn acting(
    alloc: Global,
    seen: &Seen,
    choice: Choice,
    words: Option<&str>,
) -> Result<Vec<bool>, QuestionFault>
    ensures ok { IfOk result (λ flags. (s : ℕ)
        → acts_in flags.items s ≡ is_actor seen.now.names seen.now.state choice (words_told words.entry) s) }
    ensures known { OnOk result (are_known seen.now.names seen.now.state (words_told words.entry) ≡ true) }
    ensures fault { IfErr result (λ fault. RefusesActors seen.now.names seen.now.state (words_told words.entry) fault) }
{
    actors_of(alloc, seen.names(), seen.state(), choice, words)
}

/// What becomes of the accesses to the object that a word names, in the state that is seen.
fn tell_word(
    alloc: Global,
    form: Form,
    seen: &Seen,
    choice: Choice,
    words: Option<&str>,
    word: &str,
    mode: Option<Mode>,
) -> Result<Listing, QuestionFault>
    ensures ok { IfOk result (λ answer. TellsCould form seen.now.names seen.now.state choice (words_told words.entry)
        word.now mode answer.bytes.items answer.is_positive) }
    ensures fault { IfErr result
        (λ fault. RefusesCould seen.now.names seen.now.state (words_told words.entry) word.now fault) }
{
    let object = object_of(seen, word)?;
    let actors = acting(alloc, seen, choice, words)?;
    let told = tell_acting(alloc, form, seen, &actors, object, mode);
    drop(actors);
    told
}

/// What becomes of the accesses to an object from the state on that is seen, over all futures of those who act. The
/// object is named by a name of the start, or by `#` and its number; without a mode all are asked for. The answer is
/// that of [`list_could`], in the form.
///
/// # Errors
/// - `Object` where the word is neither a name of the start's objects nor `#` and a number.
/// - `Subject` where one of the words of those who act names no known subject.
/// - `Files` with `Memory` as soon as an allocation fails.
pub fn who_could(
    alloc: Global,
    form: Form,
    seen: &Seen,
    choice: Choice,
    words: Option<&str>,
    word: &str,
    mode: Option<Mode>,
) -> Result<Listing, QuestionFault>
    ensures ok { IfOk result (λ answer. SeesThat seen.now.files seen.now.at
        (λ r. TellsCould form r.names r.state choice (words_told words.entry) word.now mode answer.bytes.items
        answer.is_positive)) }
    ensures fault { IfErr result (λ fault. SeesThat seen.now.files seen.now.at
        (λ r. RefusesCould r.names r.state (words_told words.entry) word.now fault)) }
{
    // that it is of the files
    let _ = seen.names();
    tell_word(alloc, form, seen, choice, words, word, mode)
}
