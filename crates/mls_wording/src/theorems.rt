//! What holds of all that is written by the names of a start. The functions do nothing: each is a law, which its
//! contract states.
ghost use Rattle.std.specs.Prelude.{◌≡◌, ◌<◌, ◌^◌, ℕ, None, Ok};
ghost use Rattle.mls_labels.specs.Label.{Label};
ghost use Rattle.mls_labels.specs.Scheme.{Scheme, IsScheme};
ghost use Rattle.mls_requests.specs.declared.request.Request.{Request};
ghost use Rattle.mls_journal.specs.EntryText.{LabelHasRanges, ActionHasRanges};
ghost use Rattle.mls_lines.specs.LineView.{Asks, submits};
ghost use Rattle.mls_lines.specs.Names.{Names as NamesView};
ghost use Rattle.mls_lines.specs.ScriptLine.{line_of};
ghost use Rattle.mls_wording.specs.ReadBack.{HasNames, HasSchemeLabels};
ghost use Rattle.mls_wording.specs.RequestText.{request_text};
ghost use Rattle.mls_wording.specs.Wording.{label_within, subject_text, object_text};

use mls_journal::entries_have_their_texts;
use mls_labels::{a_text_has_one_meaning, a_written_label_is_spelled};
use mls_lines::{Names, Vars, lines_law};

/// No two labels have one text in a scheme, whether the scheme has them or not.
pub fn labels_have_their_texts()
    ensures { (s : Scheme) (a b : Label) → IsScheme s → LabelHasRanges a → LabelHasRanges b
        → label_within s a ≡ label_within s b → a ≡ b }
{
    a_text_has_one_meaning();
    a_written_label_is_spelled();
    entries_have_their_texts();
}

/// No two subjects have one text, and no two objects, whether the start has names for them or not.
pub fn numbers_have_their_texts()
    ensures subjects { (names : NamesView) (s t : ℕ) → HasNames names → s < 2 ^ 16 → t < 2 ^ 16
        → subject_text names s ≡ subject_text names t → s ≡ t }
    ensures objects { (names : NamesView) (o p : ℕ) → HasNames names → o < 2 ^ 16 → p < 2 ^ 16
        → object_text names o ≡ object_text names p → o ≡ p }
{}

/// What is written of a request by the names of a start is read as a line that asks for just that request, where its
/// labels are within the bounds of the schemes, whatever variables are bound.
pub fn requests_are_read_back(names: &Names, vars: &Vars, line: &[u8])
    ensures { (r : Request) → HasNames names.now → r.subject < 2 ^ 16 → ActionHasRanges r.action
        → HasSchemeLabels names.now r.action → line.now ≡ request_text names.now r
        → line_of names.now vars.now.bound line.now ≡ Ok (Asks None (submits r.subject r.action)) }
{
    // both schemes are sound, as their bounds tell
    let _ = names.security().bounds();
    let _ = names.integrity().bounds();
    a_written_label_is_spelled();
    lines_law(names, vars, line);
}
