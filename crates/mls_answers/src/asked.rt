//! What a line is answered.
ghost use Rattle.std.specs.Prelude.{◌≡◌, IfErr, IfOk};
ghost use Rattle.mls_answers.specs.Answers.{AnswersAsk, AnswersLine, RefusesLine};
ghost use Rattle.mls_replay.specs.declared.command.CommandFault.TheVariants.{Memory};
ghost use Rattle.mls_replay.specs.declared.question_fault.QuestionFault.TheVariants.{Files};
ghost use Rattle.mls_seen.specs.Files.{SeesThat};

use mls_explain_text::{list_answer, read_question};
use mls_replay::QuestionFault;
use mls_requests::Ask;
use mls_rows::{Form, Listing};
use mls_seen::Seen;
use std::alloc::Global;

/// What is asked is answered in the state that is seen.
fn answer_asked(
    alloc: Global,
    form: Form,
    seen: &Seen,
    asked: &Ask,
) -> Result<Listing, QuestionFault>
    ensures ok { IfOk result
        (λ answer. AnswersAsk form seen.now.state asked.now answer.bytes.items answer.is_positive) }
    ensures fault { IfErr result (λ fault. fault ≡ Files Memory) }
{
    Ok(list_answer(alloc, form, seen.state(), asked)?)
}

/// What a line is answered in the state that is seen.
fn answer_line(
    alloc: Global,
    form: Form,
    seen: &Seen,
    line: &[u8],
) -> Result<Listing, QuestionFault>
    ensures ok { IfOk result
        (λ answer. AnswersLine form seen.now.names seen.now.state line.now answer.bytes.items
        answer.is_positive) }
    ensures fault { IfErr result (λ fault. RefusesLine seen.now.names line.now fault) }
{
    match read_question(alloc, seen.names(), line) {
        Ok(asked) => answer_asked(alloc, form, seen, &asked),
        Err(fault) => Err(QuestionFault::Line(fault)),
    }
}

/// What a line of a script would be answered in the state that is seen. The answer is positive for `yes`, `created` and
/// `held`.
///
/// # Errors
/// - `Line` with the first fault of the line.
/// - `Files` with `Memory` as soon as an allocation fails.
pub fn ask(alloc: Global, form: Form, seen: &Seen, line: &[u8]) -> Result<Listing, QuestionFault>
    ensures ok { IfOk result (λ answer. SeesThat seen.now.files seen.now.at
        (λ r. AnswersLine form r.names r.state line.now answer.bytes.items answer.is_positive)) }
    ensures fault { IfErr result (λ fault. SeesThat seen.now.files seen.now.at
        (λ r. RefusesLine r.names line.now fault)) }
{
    // that it is of the files
    let _ = seen.names();
    answer_line(alloc, form, seen, line)
}
