//! What is suspicious in a state.
ghost use Rattle.std.specs.Prelude.{IfOk};
ghost use Rattle.mls_questions.specs.Linting.{FindsInStart};

use crate::starts::joined;
use mls_could::list_brought;
use mls_replay::QuestionFault;
use mls_review::lint_state;
use mls_rows::{Form, Listing};
use mls_seen::Seen;
use std::alloc::Global;

/// What is suspicious in the state that is seen, in a form: what its permissions are not used for, and what untrusted
/// subjects could bring about that it doesn't permit. The answer is positive where there is nothing.
///
/// # Errors
/// Why there is no answer.
pub(crate) fn state_findings(
    alloc: Global,
    form: Form,
    seen: &Seen,
) -> Result<Listing, QuestionFault>
    ensures { IfOk result (λ found. FindsInStart seen.now.names seen.now.state form found.bytes.items
        found.is_positive) }
{
    let found = lint_state(alloc, form, seen.names(), seen.state())?;
    let brought = list_brought(alloc, form, seen.names(), seen.state())?;
    let both = joined(found, &brought);
    drop(brought);
    Ok(both?)
}
