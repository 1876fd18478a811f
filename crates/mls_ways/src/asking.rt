//! A request that is granted, as the next of a script.
ghost use Rattle.std.specs.Prelude.{◌≡◌, ◌∷◌, ◌++◌, [], OnOk};
ghost use Rattle.mls_requests.specs.declared.reply.Reply.TheVariants.{Yes};
ghost use Rattle.mls_rules.specs.Rules.{reply, after};
ghost use Rattle.mls_ways.specs.Ways.{asks};

use mls_rules::{Action, Request, State, apply};
use mls_tables::SubjectId;
use std::alloc::AllocError;

/// Makes the change of a request that is answered yes, and adds it to a script.
///
/// # Errors
/// `AllocError` where an allocation failed; the change may have been made then, and the script lack it.
pub fn ask(
    state: &mut State,
    script: &mut Vec<Request>,
    subject: SubjectId,
    action: Action,
) -> Result<(), AllocError>
    requires { reply state.old (asks subject action) ≡ Yes }
    ensures state { OnOk result (state.new ≡ after state.old (asks subject action)) }
    ensures script { OnOk result (script.new.items ≡ script.old.items ++ asks subject action ∷ []) }
{
    let request = Request { subject, action };
    apply(state, &request)?;
    script.push(request)?;
    Ok(())
}
