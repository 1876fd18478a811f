//! What subjects may change.
ghost use Rattle.std.specs.Prelude.{◌≡◌, option_map, IfErr, IfOk};
ghost use Rattle.mls_answers.specs.Answers.{TellsPowers, TellsChanges, RefusesSubject};
ghost use Rattle.mls_replay.specs.declared.command.CommandFault.TheVariants.{Memory};
ghost use Rattle.mls_replay.specs.declared.question_fault.QuestionFault.TheVariants.{Files};
ghost use Rattle.mls_seen.specs.Files.{SeesThat};

use mls_replay::{QuestionFault, named_subject};
use mls_review::{Asked, powers as listed};
use mls_rows::{Form, Listing};
use mls_seen::Seen;
use std::alloc::Global;

/// What may be changed in the state that is seen, by who is asked for.
fn tell(alloc: Global, form: Form, seen: &Seen, asked: Asked) -> Result<Listing, QuestionFault>
    ensures ok { IfOk result (λ answer. TellsPowers form seen.now.names seen.now.state asked
        answer.bytes.items answer.is_positive) }
    ensures fault { IfErr result (λ fault. fault ≡ Files Memory) }
{
    Ok(listed(alloc, form, seen.names(), seen.state(), asked)?)
}

/// What may be changed in the state that is seen, by the subject that a word names, or by all.
fn tell_word(
    alloc: Global,
    form: Form,
    seen: &Seen,
    word: Option<&str>,
    downgrades: bool,
) -> Result<Listing, QuestionFault>
    ensures ok { IfOk result (λ answer. TellsChanges form seen.now.names seen.now.state
        (option_map (λ lent. lent.now) word.entry) downgrades answer.bytes.items answer.is_positive) }
    ensures fault { IfErr result
        (λ fault. RefusesSubject seen.now.names (option_map (λ lent. lent.now) word.entry) fault) }
{
    match word {
        Some(word) => {
            let subject = Some(named_subject(seen.names(), word)?);
            tell(
                alloc,
                form,
                seen,
                Asked {
                    subject,
                    downgrades,
                },
            )
        }
        None => {
            let subject = None;
            tell(
                alloc,
                form,
                seen,
                Asked {
                    subject,
                    downgrades,
                },
            )
        }
    }
}

/// What the subject may change that a word names, by a name of the start or by `#` and its number, or each of all: in
/// the state that is seen. The answer is that of [`powers`](mls_review::powers), in the form.
///
/// # Errors
/// - `Subject` where the word is neither a name of the start's subjects nor `#` and a number.
/// - `Files` with `Memory` as soon as an allocation fails.
pub fn powers(
    alloc: Global,
    form: Form,
    seen: &Seen,
    word: Option<&str>,
    downgrades: bool,
) -> Result<Listing, QuestionFault>
    ensures ok { IfOk result (λ answer. SeesThat seen.now.files seen.now.at
        (λ r. TellsChanges form r.names r.state (option_map (λ lent. lent.now) word.entry) downgrades
        answer.bytes.items answer.is_positive)) }
    ensures fault { IfErr result (λ fault. SeesThat seen.now.files seen.now.at
        (λ r. RefusesSubject r.names (option_map (λ lent. lent.now) word.entry) fault)) }
{
    // that it is of the files
    let _ = seen.names();
    tell_word(alloc, form, seen, word, downgrades)
}
