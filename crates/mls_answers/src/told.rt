//! Who may get what of an object.
ghost use Rattle.std.specs.Prelude.{◌≡◌, IfErr, IfOk};
ghost use Rattle.mls_answers.specs.Answers.{TellsWord, RefusesWord};
ghost use Rattle.mls_seen.specs.Files.{SeesThat};

use mls_explain_text::{list_who, modes_asked};
use mls_replay::{QuestionFault, named_object};
use mls_rows::{Form, Listing};
use mls_seen::Seen;
use mls_tables::Mode;
use std::alloc::Global;

/// Who may get what of the object that a word names, in the state that is seen.
fn tell_word(
    alloc: Global,
    form: Form,
    seen: &Seen,
    word: &str,
    mode: Option<Mode>,
) -> Result<Listing, QuestionFault>
    ensures ok { IfOk result
        (λ answer. TellsWord form seen.now.names seen.now.state word.now mode answer.bytes.items
        answer.is_positive) }
    ensures fault { IfErr result (λ fault. RefusesWord seen.now.names word.now fault) }
{
    let object = named_object(seen.names(), word)?;
    Ok(list_who(
        alloc,
        form,
        seen.names(),
        seen.state(),
        object,
        modes_asked(mode),
    )?)
}

/// Who may get what of an object in the state that is seen. The object is named by a name of the start, or by `#` and
/// its number; without a mode all are asked for. The answer is that of [`list_who`], in the form.
///
/// # Errors
/// - `Object` where the word is neither a name of the start's objects nor `#` and a number.
/// - `Files` with `Memory` as soon as an allocation fails.
pub fn who(
    alloc: Global,
    form: Form,
    seen: &Seen,
    word: &str,
    mode: Option<Mode>,
) -> Result<Listing, QuestionFault>
    ensures ok { IfOk result (λ answer. SeesThat seen.now.files seen.now.at
        (λ r. TellsWord form r.names r.state word.now mode answer.bytes.items answer.is_positive)) }
    ensures fault { IfErr result (λ fault. SeesThat seen.now.files seen.now.at
        (λ r. RefusesWord r.names word.now fault)) }
{
    // that it is of the files
    let _ = seen.names();
    tell_word(alloc, form, seen, word, mode)
}
