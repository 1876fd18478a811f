//! Who held what over a journal.
ghost use Rattle.std.specs.Prelude.{◌≡◌, IfErr, IfOk};
ghost use Rattle.mls_rows.specs.Times.{rows_lent};
ghost use Rattle.mls_seen.specs.Histories.{ReplaysThat};
ghost use Rattle.mls_spans.specs.Listings.{ListsFrom, RefusesFrom};

use mls_marks::Marks;
use mls_replay::QuestionFault;
use mls_rows::{Form, Listing};
use mls_seen::TextHistory;
use mls_spans::{Words, list_held};
use std::alloc::Global;

/// The spans of states in which an access is held over a journal, of those that a filter asks for, with times where
/// there are marks. The answer is that of [`list_held`], in the form.
///
/// # Errors
/// Those of [`list_held`].
pub fn held(
    alloc: Global,
    form: Form,
    history: &TextHistory,
    marks: Option<&Marks>,
    words: &Words<'_>,
) -> Result<Listing, QuestionFault>
    ensures ok { IfOk result (λ listing. ReplaysThat history.now.files history.now.at
        (λ r. ListsFrom form r (rows_lent marks.entry) words.now listing)) }
    ensures fault { IfErr result (λ fault. ReplaysThat history.now.files history.now.at
        (λ r. RefusesFrom r words.now fault)) }
{
    list_held(alloc, form, history.replay(), marks, words)
}
