//! Whether gets would be granted.
ghost use Rattle.std.specs.Prelude.{◌≡◌, ℕ, get_or, length, IfOk};
ghost use Rattle.std.specs.FinSet as set;
ghost use Rattle.mls_tables.specs.declared.limits.TheConstants.{MAX_SUBJECTS};
ghost use Rattle.mls_spans.specs.Turning.{differ as differ_in};
ghost use Rattle.mls_spans.specs.Windows.{would_grant as would_grant_in};

use crate::following::is_granted;
use mls_requests::{Action, Request};
use mls_rules::{State, decide};
use mls_tables::{MAX_SUBJECTS, Mode, Modes, ObjectId, SubjectId};
use std::alloc::{AllocError, Global};

/// Whether the get of an access would be granted.
pub(crate) fn would_grant(state: &State, s: SubjectId, o: ObjectId, x: Mode) -> bool
    ensures { result ≡ would_grant_in state.now (s, o, x) }
{
    let request = Request {
        subject: s,
        action: Action::Get(x, o),
    };
    is_granted(&decide(state, &request))
}

/// Whether two answers are not the same.
pub(crate) fn differ(a: bool, b: bool) -> bool
    ensures { result ≡ differ_in a b }
{
    if a { !b } else { b }
}

/// No modes, for each subject that there can be.
pub(crate) fn none_granted(alloc: Global) -> Result<Vec<Modes>, AllocError>
    ensures subjects { IfOk result (λ modes. length modes.items ≡ MAX_SUBJECTS) }
    ensures none { IfOk result (λ modes. (s : ℕ) → get_or modes.items s set.empty ≡ set.empty) }
{
    let mut modes = Vec::with_capacity(alloc, MAX_SUBJECTS as usize)?;
    for _s in 0..MAX_SUBJECTS {
        modes.push(Modes::empty())?;
    }
    Ok(modes)
}
