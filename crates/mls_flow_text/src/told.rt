//! Where content of an object could flow from the state that is seen.
ghost use Rattle.std.specs.Prelude.{◌≡◌, ℕ, option_map, IfErr, IfOk, OnOk, true};
ghost use Rattle.mls_futures.specs.Closure.{acts_in};
ghost use Rattle.mls_could.specs.Actors.{are_known, is_actor, words_told, RefusesActors};
ghost use Rattle.mls_flow_text.specs.Asked.{RefusesFlow, RowsOfEnds, TellsEnds, TellsFlow};
ghost use Rattle.mls_replay.specs.declared.command.CommandFault.TheVariants.{Memory};
ghost use Rattle.mls_replay.specs.declared.question_fault.QuestionFault.TheVariants.{Files};
ghost use Rattle.mls_seen.specs.Files.{SeesThat};

use crate::ends::{Ends, ends_of};
use crate::listed::list_flows;
use crate::reaching::list_flow_to;
use mls_could::{Choice, actors_of};
use mls_replay::QuestionFault;
use mls_rows::{Form, Listing};
use mls_seen::Seen;
use std::alloc::Global;

/// Where content could flow, in the state that is seen, whatever the actors do.
fn tell_acting(
    alloc: Global,
    form: Form,
    seen: &Seen,
    actors: &[bool],
    ends: Ends,
) -> Result<Listing, QuestionFault>
    ensures ok { IfOk result (λ answer. RowsOfEnds seen.now.names seen.now.state (acts_in actors.now) ends form
        answer.bytes.items answer.is_positive) }
    ensures fault { IfErr result (λ fault. fault ≡ Files Memory) }
{
    let (names, state) = (seen.names(), seen.state());
    let Ends { from, to } = ends;
    match to {
        Some(to) => Ok(list_flow_to(alloc, form, names, state, actors, from, to)?),
        None => Ok(list_flows(alloc, form, names, state, actors, from)?),
    }
}

/// Who acts, in the state that is seen.
fn acting(
    alloc: Global,
    seen: &Seen,
    choice: Choice,
    words: Option<&str>,
) -> Result<Vec<bool>, QuestionFault>
    ensures ok { IfOk result (λ flags. (s : ℕ)
        → acts_in flags.items s ≡ is_actor seen.now.names seen.now.state choice (words_told words.entry) s) }
    ensures known { OnOk result (are_known seen.now.names seen.now.state (words_told words.entry) ≡ true) }
    ensures fault { IfErr result (λ fault. RefusesActors seen.now.names seen.now.state (words_told words.entry) fault) }
{
    actors_of(alloc, seen.names(), seen.state(), choice, words)
}

/// Where content could flow, in the state that is seen, whatever those do whom a question has act.
fn tell_ends(
    alloc: Global,
    form: Form,
    seen: &Seen,
    choice: Choice,
    words: Option<&str>,
    ends: Ends,
) -> Result<Listing, QuestionFault>
    ensures ok { IfOk result (λ answer. TellsEnds form seen.now.names seen.now.state choice (words_told words.entry)
        ends answer.bytes.items answer.is_positive) }
    ensures fault { IfErr result (λ fault. RefusesActors seen.now.names seen.now.state (words_told words.entry) fault) }
{
    let actors = acting(alloc, seen, choice, words)?;
    let told = tell_acting(alloc, form, seen, &actors, ends);
    drop(actors);
    told
}

/// Where content could flow of the object that a word names, in the state that is seen.
fn tell_words(
    alloc: Global,
    form: Form,
    seen: &Seen,
    choice: Choice,
    words: Option<&str>,
    from: &str,
    to: Option<&str>,
    is_object: bool,
) -> Result<Listing, QuestionFault>
    ensures ok { IfOk result (λ answer. TellsFlow form seen.now.names seen.now.state choice (words_told words.entry)
        from.now (option_map (λ word. word.now) to.entry) is_object answer.bytes.items answer.is_positive) }
    ensures fault { IfErr result (λ fault. RefusesFlow seen.now.names seen.now.state (words_told words.entry) from.now
        (option_map (λ word. word.now) to.entry) is_object fault) }
{
    match ends_of(seen.names(), from, to, is_object) {
        Ok(ends) => tell_ends(alloc, form, seen, choice, words, ends),
        Err(fault) => Err(fault),
    }
}

/// Where content of an object could flow from the state on that is seen, over all futures of those who act: to each
/// place by a shortest way, or to one that a word names. The object is named by a name of the start, or by `#` and its
/// number; the place by a subject's name, or else as an object. The answer is that of [`list_flows`], or of
/// [`list_flow_to`], in the form.
///
/// [`list_flow_to`]: crate::list_flow_to
///
/// # Errors
/// - `Object` where the first word is neither a name of the start's objects nor `#` and a number, or the other one is
///   to name an object and is neither; `Subject` where the other one names neither a subject nor an object.
/// - `Subject` where one of the words of those who act names no known subject.
/// - `Files` with `Memory` as soon as an allocation fails.
pub fn flow(
    alloc: Global,
    form: Form,
    seen: &Seen,
    choice: Choice,
    words: Option<&str>,
    from: &str,
    to: Option<&str>,
    is_object: bool,
) -> Result<Listing, QuestionFault>
    ensures ok { IfOk result (λ answer. SeesThat seen.now.files seen.now.at
        (λ r. TellsFlow form r.names r.state choice (words_told words.entry) from.now (option_map (λ word. word.now) to.entry) is_object
        answer.bytes.items answer.is_positive)) }
    ensures fault { IfErr result (λ fault. SeesThat seen.now.files seen.now.at
        (λ r. RefusesFlow r.names r.state (words_told words.entry) from.now (option_map (λ word. word.now) to.entry) is_object fault)) }
{
    // that it is of the files
    let _ = seen.names();
    tell_words(alloc, form, seen, choice, words, from, to, is_object)
}
