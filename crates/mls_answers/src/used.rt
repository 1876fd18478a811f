//! How permissions were used over a journal.
ghost use Rattle.std.specs.Prelude.{◌≡◌, IfErr, IfOk};
ghost use Rattle.mls_answers.specs.Histories.{ListsUsage};
ghost use Rattle.mls_replay.specs.declared.command.CommandFault.TheVariants.{Memory};
ghost use Rattle.mls_replay.specs.declared.question_fault.QuestionFault.TheVariants.{Files};
ghost use Rattle.mls_rows.specs.Times.{rows_lent};
ghost use Rattle.mls_seen.specs.Histories.{ReplaysThat};
ghost use Rattle.mls_spans.specs.UsageListings.{IsUsage, trust_seen, usages_seen};

use mls_marks::Marks;
use mls_replay::{QuestionFault, TextReplay};
use mls_rows::{Form, Listing};
use mls_seen::TextHistory;
use mls_spans::{States, list_usage};
use std::alloc::Global;

/// How the permissions of some states of a replay were used, by the names of its start.
fn tell_states(
    alloc: Global,
    form: Form,
    replay: &TextReplay,
    marks: Option<&Marks>,
    states: States,
) -> Result<Listing, QuestionFault>
    ensures ok { IfOk result (λ listing.
        IsUsage form replay.now.names (rows_lent marks.entry) (usages_seen replay.now states)
        (trust_seen replay.now states) listing) }
    ensures fault { IfErr result (λ fault. fault ≡ Files Memory) }
{
    Ok(list_usage(alloc, form, replay.names(), replay, marks, states)?)
}

/// How the permissions were used of the states from the one on that a history looks at, up to another, where one is
/// told, with times where there are marks. The answer is that of [`list_usage`], in the form.
///
/// # Errors
/// `Files` with `Memory` where an allocation failed.
pub fn usage(
    alloc: Global,
    form: Form,
    history: &TextHistory,
    marks: Option<&Marks>,
    last: Option<u64>,
) -> Result<Listing, QuestionFault>
    ensures ok { IfOk result (λ listing. ReplaysThat history.now.files history.now.at
        (λ r. ListsUsage form r (rows_lent marks.entry) history.now.at last listing)) }
    ensures fault { IfErr result (λ fault. fault ≡ Files Memory) }
{
    let first = history.number();
    tell_states(alloc, form, history.replay(), marks, States { first, last })
}
