//! How the permissions that are asked for were used over a journal.
ghost use Rattle.std.specs.Prelude.{◌≡◌, IfErr, IfOk};
ghost use Rattle.mls_answers.specs.Used.{ListsUsageOf};
ghost use Rattle.mls_replay.specs.declared.command.CommandFault.TheVariants.{Memory};
ghost use Rattle.mls_replay.specs.declared.question_fault.QuestionFault.TheVariants.{Files};
ghost use Rattle.mls_rows.specs.Times.{rows_lent};
ghost use Rattle.mls_seen.specs.Histories.{ReplaysThat};
ghost use Rattle.mls_spans.specs.Listings.{RefusesNames};
ghost use Rattle.mls_spans.specs.UsageChosen.{IsUsageOf, ListsChosen, chosen_seen};

use mls_lines::Names;
use mls_marks::Marks;
use mls_replay::{QuestionFault, TextReplay};
use mls_rows::{Form, Listing};
use mls_seen::TextHistory;
use mls_spans::{Choice, States, Words, choose, list_usage_of};
use std::alloc::Global;

/// How the permissions of some states of a replay were used that are asked for, by these names.
fn list_chosen(
    alloc: Global,
    form: Form,
    names: &Names,
    replay: &TextReplay,
    marks: Option<&Marks>,
    choice: &Choice,
    states: States,
    never: bool,
) -> Result<Listing, QuestionFault>
    ensures ok { IfOk result (λ listing. IsUsageOf form names.now (rows_lent marks.entry) never
        (chosen_seen replay.now choice.now states) listing) }
    ensures fault { IfErr result (λ fault. fault ≡ Files Memory) }
{
    Ok(list_usage_of(alloc, form, names, replay, marks, choice, states, never)?)
}

/// How the permissions of some states of a replay were used that a filter asks for, by the names of its start.
#[tactic(auto, using(crate::proofs::Chosen::lists_chosen, crate::proofs::Chosen::refuses_memory))]
fn tell_chosen(
    alloc: Global,
    form: Form,
    replay: &TextReplay,
    marks: Option<&Marks>,
    states: States,
    words: &Words<'_>,
    never: bool,
) -> Result<Listing, QuestionFault>
    ensures ok { IfOk result
        (λ listing. ListsChosen form replay.now (rows_lent marks.entry) states words.now never listing) }
    ensures fault { IfErr result (λ fault. RefusesNames replay.now.names words.now fault) }
{
    let names = replay.names();
    match choose(names, words) {
        Ok(choice) => list_chosen(alloc, form, names, replay, marks, &choice, states, never),
        Err(fault) => Err(fault),
    }
}

/// How the permissions were used that a filter asks for, of the states from the one on that a history looks at, up to
/// another, where one is told, with times where there are marks; where only those are wanted that were never granted,
/// no others have rows. Of the filter the subject, the object and the mode count, not the states. The answer is that
/// of [`list_usage_of`], in the form.
///
/// # Errors
/// - `Subject` where the filter's word for a subject names none, else `Object` where that for an object names none.
/// - `Files` with `Memory` as soon as an allocation fails.
pub fn usage_of(
    alloc: Global,
    form: Form,
    history: &TextHistory,
    marks: Option<&Marks>,
    last: Option<u64>,
    words: &Words<'_>,
    never: bool,
) -> Result<Listing, QuestionFault>
    ensures ok { IfOk result (λ listing. ReplaysThat history.now.files history.now.at
        (λ r. ListsUsageOf form r (rows_lent marks.entry) history.now.at last words.now never listing)) }
    ensures fault { IfErr result (λ fault. ReplaysThat history.now.files history.now.at
        (λ r. RefusesNames r.names words.now fault)) }
{
    let first = history.number();
    let states = States { first, last };
    tell_chosen(alloc, form, history.replay(), marks, states, words, never)
}
