//! Who could ever get an object over a journal.
ghost use Rattle.std.specs.Prelude.{◌≡◌, IfErr, IfOk};
ghost use Rattle.mls_answers.specs.Histories.{ListsEver};
ghost use Rattle.mls_rows.specs.Times.{rows_lent};
ghost use Rattle.mls_seen.specs.Histories.{ReplaysThat};
ghost use Rattle.mls_spans.specs.EverListings.{RefusesWord};

use mls_marks::Marks;
use mls_replay::QuestionFault;
use mls_rows::{Form, Listing};
use mls_seen::History;
use mls_spans::{States, list_ever};
use mls_tables::Mode;
use std::alloc::Global;

/// Who could ever get the object that a word names, and when, in the states from the one on that a history looks at, up
/// to another, where one is told, with times where there are marks; without a mode all are asked for. The answer is
/// that of [`list_ever`], in the form.
///
/// # Errors
/// Those of [`list_ever`].
pub fn who_ever(
    alloc: Global,
    form: Form,
    history: &History,
    marks: Option<&Marks>,
    last: Option<u64>,
    word: &str,
    mode: Option<Mode>,
) -> Result<Listing, QuestionFault>
    ensures ok { IfOk result (λ listing. ReplaysThat history.now.files history.now.at
        (λ r. ListsEver form r (rows_lent marks.entry) history.now.at last mode word.now listing)) }
    ensures fault { IfErr result (λ fault. ReplaysThat history.now.files history.now.at
        (λ r. RefusesWord r.names word.now fault)) }
{
    let first = history.number();
    let states = States { first, last };
    list_ever(alloc, form, history.replay(), marks, states, word, mode)
}
