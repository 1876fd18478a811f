//! The remedy of a request that is denied.
ghost use Rattle.std.specs.Prelude.{IsTrue, IfOk};
ghost use Rattle.mls_rules.specs.Rules.{is_defined};
ghost use Rattle.mls_explain_text.specs.Remedies.{IsRemedyAfter};

use mls_remedies::{Ending, Remedy, remedy_for};
use mls_requests::{Reply, Request};
use mls_rules::State;
use std::alloc::{AllocError, Global};

/// What is said that a request in the domain with this reply would take: its remedy where it is denied, else nothing.
pub(crate) fn remedy_told(
    alloc: Global,
    state: &State,
    request: &Request,
    reply: &Reply,
) -> Result<Remedy, AllocError>
    requires { IsTrue (is_defined state.now request.now) }
    ensures { IfOk result
        (λ remedy. IsRemedyAfter state.now request.now reply.now remedy.steps.items remedy.ending) }
{
    match reply {
        Reply::No(_) => remedy_for(alloc, state, request),
        _ => Ok(Remedy {
            steps: Vec::new(alloc),
            ending: Ending::Asked,
        }),
    }
}
