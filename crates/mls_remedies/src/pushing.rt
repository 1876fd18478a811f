//! A step of one subject, behind others.
ghost use Rattle.std.specs.Prelude.{◌≡◌, ◌++◌, ◌∷◌, [], OnOk};
ghost use Rattle.mls_remedies.specs.Steps.{own_step};

use crate::step::Step;
use mls_requests::Action;
use mls_tables::SubjectId;
use std::alloc::AllocError;

/// Adds a step of one subject.
pub(crate) fn push_own(
    steps: &mut Vec<Step>,
    s: SubjectId,
    action: Action,
) -> Result<(), AllocError>
    ensures { OnOk result (steps.new.items ≡ steps.old.items ++ own_step s action ∷ []) }
{
    let one = [Step::of(s, action)];
    steps.extend_from_slice(&one)?;
    Ok(())
}
