//! All about a subject or an object.
ghost use Rattle.std.specs.Prelude.{◌≡◌, IfErr, IfOk};
ghost use Rattle.mls_about.specs.About.{RefusesNamed};
ghost use Rattle.mls_replay.specs.Replays.{IsWithin};
ghost use Rattle.mls_rows.specs.Times.{rows_lent};
ghost use Rattle.mls_seen.specs.Histories.{ReplaysThat};
ghost use Rattle.mls_answers.specs.Describing.{number_told, TellsAbout};

use mls_about::list_about;
use mls_marks::Marks;
use mls_replay::QuestionFault;
use mls_rows::{Form, Listing};
use mls_seen::History;
use std::alloc::Global;

/// Of how many entries it is told, where there is a journal: of those before the state that is looked at.
fn number_told(history: &History, has_journal: bool) -> Option<u64>
    ensures number { result ≡ number_told has_journal history.now.at history.now.replayed.entries }
    ensures within { IsWithin result history.now.replayed.entries }
{
    // that the entries are so many
    let _ = history.replay();
    if has_journal {
        Some(history.number())
    } else {
        None
    }
}

/// All that there is to tell of a subject or of an object, which a word names, in the state that is looked at; where
/// there is a journal, also of the entries before that state, with their times where there are marks. The answer is
/// that of [`list_about`], in the form.
///
/// # Errors
/// Those of [`list_about`].
pub fn about(
    alloc: Global,
    form: Form,
    history: &History,
    has_journal: bool,
    marks: Option<&Marks>,
    word: &str,
    is_object: bool,
) -> Result<Listing, QuestionFault>
    ensures ok { IfOk result (λ answer. ReplaysThat history.now.files history.now.at
        (λ r. TellsAbout form r history.now.at has_journal (rows_lent marks.entry) word.now is_object answer)) }
    ensures fault { IfErr result (λ fault. ReplaysThat history.now.files history.now.at
        (λ r. RefusesNamed r.names word.now is_object fault)) }
{
    let number = number_told(history, has_journal);
    list_about(
        alloc,
        form,
        history.replay(),
        number,
        marks,
        word,
        is_object,
    )
}
