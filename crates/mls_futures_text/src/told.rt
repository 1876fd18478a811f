//! Whether an access could come about from the state that is seen.
ghost use Rattle.std.specs.Prelude.{◌≡◌, ℕ, IfErr, IfOk, OnOk, true};
ghost use Rattle.mls_futures.specs.Closure.{acts_in};
ghost use Rattle.mls_could.specs.Actors.{are_known, is_actor, words_told, RefusesActors};
ghost use Rattle.mls_futures_text.specs.Whether.{RowsWhether, TellsAccess, TellsWhether, RefusesWhether};
ghost use Rattle.mls_replay.specs.declared.command.CommandFault.TheVariants.{Memory};
ghost use Rattle.mls_replay.specs.declared.question_fault.QuestionFault.TheVariants.{Files};
ghost use Rattle.mls_seen.specs.Files.{SeesThat};

use crate::answered::list_whether;
use crate::asked::get_of;
use mls_could::{Choice, actors_of};
use mls_replay::QuestionFault;
use mls_rows::{Form, Listing};
use mls_seen::Seen;
use mls_tables::{Mode, ObjectId, SubjectId};
use std::alloc::Global;

/// Whether an access could come about, in the state that is seen, whatever the actors do.
fn tell_acting(
    alloc: Global,
    form: Form,
    seen: &Seen,
    actors: &[bool],
    access: &(SubjectId, ObjectId, Mode),
) -> Result<Listing, QuestionFault>
    ensures ok { IfOk result (λ answer. RowsWhether seen.now.names seen.now.state (acts_in actors.now) access.now form
        answer.bytes.items answer.is_positive) }
    ensures fault { IfErr result (λ fault. fault ≡ Files Memory) }
{
    Ok(list_whether(alloc, form, seen.names(), seen.state(), actors, access)?)
}

/// Who acts, in the state that is seen.
fn acting(
    alloc: Global,
    seen: &Seen,
    choice: Choice,
    words: Option<&str>,
) -> Result<Vec<bool>, QuestionFault>
    ensures ok { IfOk result (λ flags. (s : ℕ)
        → acts_in flags.items s ≡ is_actor seen.now.names seen.now.state choice (words_told words.entry) s) }
    ensures known { OnOk result (are_known seen.now.names seen.now.state (words_told words.entry) ≡ true) }
    ensures fault { IfErr result (λ fault. RefusesActors seen.now.names seen.now.state (words_told words.entry) fault) }
{
    actors_of(alloc, seen.names(), seen.state(), choice, words)
}

/// Whether an access could come about, in the state that is seen, whatever those do whom a question has act.
fn tell_access(
    alloc: Global,
    form: Form,
    seen: &Seen,
    choice: Choice,
    words: Option<&str>,
    access: &(SubjectId, ObjectId, Mode),
) -> Result<Listing, QuestionFault>
    ensures ok { IfOk result (λ answer. TellsAccess form seen.now.names seen.now.state choice (words_told words.entry)
        access.now answer.bytes.items answer.is_positive) }
    ensures fault { IfErr result (λ fault. RefusesActors seen.now.names seen.now.state (words_told words.entry) fault) }
{
    let actors = acting(alloc, seen, choice, words)?;
    let told = tell_acting(alloc, form, seen, &actors, access);
    drop(actors);
    told
}

/// Whether the access that a line asks for could come about, in the state that is seen.
fn tell_line(
    alloc: Global,
    form: Form,
    seen: &Seen,
    choice: Choice,
    words: Option<&str>,
    line: &[u8],
) -> Result<Listing, QuestionFault>
    ensures ok { IfOk result (λ answer. TellsWhether form seen.now.names seen.now.state choice (words_told words.entry)
        line.now answer.bytes.items answer.is_positive) }
    ensures fault { IfErr result
        (λ fault. RefusesWhether seen.now.names seen.now.state (words_told words.entry) line.now fault) }
{
    match get_of(alloc, seen.names(), line) {
        Ok(access) => tell_access(alloc, form, seen, choice, words, &access),
        Err(fault) => Err(QuestionFault::Line(fault)),
    }
}

/// Whether the access that a line asks for, which is to be a get, could come about from the state on that is seen, over
/// all futures of those who act: a script that brings it about, or why it never does. The answer is that of
/// [`list_whether`], in the form.
///
/// # Errors
/// - `Line` with the first fault of the line; with `BadForm` where it asks for no get.
/// - `Subject` where one of the words of those who act names no known subject.
/// - `Files` with `Memory` as soon as an allocation fails.
pub fn could(
    alloc: Global,
    form: Form,
    seen: &Seen,
    choice: Choice,
    words: Option<&str>,
    line: &[u8],
) -> Result<Listing, QuestionFault>
    ensures ok { IfOk result (λ answer. SeesThat seen.now.files seen.now.at
        (λ r. TellsWhether form r.names r.state choice (words_told words.entry) line.now answer.bytes.items
        answer.is_positive)) }
    ensures fault { IfErr result (λ fault. SeesThat seen.now.files seen.now.at
        (λ r. RefusesWhether r.names r.state (words_told words.entry) line.now fault)) }
{
    // that it is of the files
    let _ = seen.names();
    tell_line(alloc, form, seen, choice, words, line)
}
