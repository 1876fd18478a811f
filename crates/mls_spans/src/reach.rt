//! Whose gets of an object may turn with an entry.
ghost use Rattle.std.specs.Prelude.{◌≡◌};
ghost use Rattle.mls_spans.specs.Turning.{everyone_where, just_where, reach as reach_in};
ghost use Rattle.mls_spans.specs.Turning.{has_made as has_made_in};

use mls_requests::{Action, Reply, Request};
use mls_tables::{ObjectId, SubjectId};

/// The subjects whose gets of an object may turn.
#[derive(Clone, Copy, Debug)]
pub(crate) enum Reach {
    Nobody,
    Just(SubjectId),
    Everyone,
}

/// Whether a reply tells that an object was made.
fn has_made(answer: Reply, o: ObjectId) -> bool
    ensures { result ≡ has_made_in answer o }
{
    match answer {
        Reply::Created(p) => o.number() == p.number(),
        Reply::Yes | Reply::No(_) | Reply::Undefined => false,
    }
}

impl Reach {
    /// All subjects where this is so, else none.
    fn everyone_where(is_so: bool) -> Reach
        ensures { result ≡ everyone_where is_so }
    {
        if is_so {
            Reach::Everyone
        } else {
            Reach::Nobody
        }
    }

    /// A subject where this is so, else none.
    fn just_where(is_so: bool, s: SubjectId) -> Reach
        ensures { result ≡ just_where is_so s }
    {
        if is_so { Reach::Just(s) } else { Reach::Nobody }
    }

    /// The subjects whose gets of an object may turn where a request is answered so. It is told whether the object
    /// began or ended to be active.
    pub(crate) fn of(request: &Request, answer: Reply, has_changed: bool, o: ObjectId) -> Reach
        ensures { result ≡ reach_in answer has_changed o request.now.subject request.now.action }
    {
        match request.action {
            Action::Get(..) | Action::Release(..) => Reach::Nobody,
            Action::Give(_, t, p) => Reach::just_where(o.number() == p.number(), t),
            Action::Rescind(_, t, p) => Reach::just_where(o.number() == p.number(), t),
            Action::Create(..) => Reach::everyone_where(has_made(answer, o)),
            Action::Delete(_) => Reach::everyone_where(has_changed),
            Action::SubjectLevel(_) => Reach::Just(request.subject),
            Action::ObjectLevel(p, _) => Reach::everyone_where(o.number() == p.number()),
        }
    }
}
