//! Why a line or an entry is answered as it is.
ghost use Rattle.std.specs.Prelude.{◌≡◌, option_map, IfErr, IfOk};
ghost use Rattle.mls_answers.specs.Answers.{ExplainsAsk, ExplainsLine, ExplainsNext, ExplainsEither, RefusesLine};
ghost use Rattle.mls_answers.specs.Answers.{RefusesNext, RefusesEither};
ghost use Rattle.mls_replay.specs.declared.command.CommandFault.TheVariants.{Memory};
ghost use Rattle.mls_replay.specs.declared.question_fault.QuestionFault.TheVariants.{Files};
ghost use Rattle.mls_seen.specs.Files.{SeesThat};

use mls_explain_text::{list_explanation, read_question};
use mls_replay::QuestionFault;
use mls_requests::Ask;
use mls_rows::{Form, Listing};
use mls_seen::Seen;
use std::alloc::Global;

/// Explains what is asked, in the state that is seen.
fn explain_asked(
    alloc: Global,
    form: Form,
    seen: &Seen,
    asked: &Ask,
) -> Result<Listing, QuestionFault>
    ensures ok { IfOk result
        (λ answer. ExplainsAsk form seen.now.names seen.now.state asked.now answer.bytes.items
        answer.is_positive) }
    ensures fault { IfErr result (λ fault. fault ≡ Files Memory) }
{
    Ok(list_explanation(alloc, form, seen.names(), seen.state(), asked)?)
}

/// Explains a line.
fn explain_line(
    alloc: Global,
    form: Form,
    seen: &Seen,
    line: &[u8],
) -> Result<Listing, QuestionFault>
    ensures ok { IfOk result
        (λ answer. ExplainsLine form seen.now.names seen.now.state line.now answer.bytes.items
        answer.is_positive) }
    ensures fault { IfErr result (λ fault. RefusesLine seen.now.names line.now fault) }
{
    match read_question(alloc, seen.names(), line) {
        Ok(asked) => explain_asked(alloc, form, seen, &asked),
        Err(fault) => Err(QuestionFault::Line(fault)),
    }
}

/// Explains the request of the next entry.
fn explain_next(alloc: Global, form: Form, seen: &Seen) -> Result<Listing, QuestionFault>
    ensures ok { IfOk result (λ answer. ExplainsNext form seen.now answer.bytes.items answer.is_positive) }
    ensures fault { IfErr result (λ fault. RefusesNext seen.now fault) }
{
    match seen.next() {
        Some(entry) => explain_asked(alloc, form, seen, &Ask::Submit(entry.request)),
        None => Err(QuestionFault::NoEntry(seen.number())),
    }
}

/// Explains a line where there is one, else the next entry.
fn explain_either(
    alloc: Global,
    form: Form,
    seen: &Seen,
    line: Option<&[u8]>,
) -> Result<Listing, QuestionFault>
    ensures ok { IfOk result
        (λ answer. ExplainsEither form seen.now (option_map (λ bytes. bytes.now) line.entry)
        answer.bytes.items answer.is_positive) }
    ensures fault { IfErr result
        (λ fault. RefusesEither seen.now (option_map (λ bytes. bytes.now) line.entry) fault) }
{
    match line {
        Some(line) => explain_line(alloc, form, seen, line),
        None => explain_next(alloc, form, seen),
    }
}

/// Why a line is answered as it is in the state that is seen; without a line, why the next entry has its reply. The
/// answer is that of [`list_explanation`], in the form.
///
/// # Errors
/// - `Line` with the first fault of the line.
/// - `NoEntry` without a line, where the next entry isn't there or isn't known.
/// - `Files` with `Memory` as soon as an allocation fails.
pub fn explain(
    alloc: Global,
    form: Form,
    seen: &Seen,
    line: Option<&[u8]>,
) -> Result<Listing, QuestionFault>
    ensures ok { IfOk result (λ answer. SeesThat seen.now.files seen.now.at
        (λ r. ExplainsEither form r (option_map (λ bytes. bytes.now) line.entry) answer.bytes.items
        answer.is_positive)) }
    ensures fault { IfErr result (λ fault. SeesThat seen.now.files seen.now.at
        (λ r. RefusesEither r (option_map (λ bytes. bytes.now) line.entry) fault)) }
{
    // that it is of the files
    let _ = seen.names();
    explain_either(alloc, form, seen, line)
}
