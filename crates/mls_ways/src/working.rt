//! Whether requests bring an access about.
ghost use Rattle.std.specs.Prelude.{◌≡◌, IfOk};
ghost use Rattle.mls_ways.specs.Lean.{brings};

use mls_rules::{Reply, Request, State, apply};
use mls_tables::{Mode, ObjectId, SubjectId};
use std::alloc::{AllocError, Global};

/// Makes the changes of requests, up to the first that isn't answered yes. Whether each is, and the access is held
/// then.
fn runs(
    state: &mut State,
    requests: &[Request],
    access: (SubjectId, ObjectId, Mode),
) -> Result<bool, AllocError>
    ensures { IfOk result (λ is. is ≡ brings state.old access requests.now) }
{
    for request in requests {
        match apply(state, request)? {
            Reply::Yes => {}
            Reply::Created(_) | Reply::No(_) | Reply::Undefined => return Ok(false),
        }
    }
    Ok(state.has_access(access.0, access.1, access.2))
}

/// Whether requests bring an access about in a state: each is answered yes in it and in those that it goes to, and the
/// access is held in the end.
pub(crate) fn brings(
    alloc: Global,
    first: &State,
    requests: &[Request],
    access: (SubjectId, ObjectId, Mode),
) -> Result<bool, AllocError>
    ensures { IfOk result (λ is. is ≡ brings first.now access requests.now) }
{
    let mut state = first.duplicate(alloc)?;
    let is = runs(&mut state, requests, access);
    drop(state);
    is
}
