//! Which current accesses an entry may change.
ghost use Rattle.std.specs.Prelude.{◌≡◌};
ghost use Rattle.mls_sessions.specs.Touches.{touch_asked, touch_of, makes_access};
ghost use Rattle.mls_sessions.specs.Changes.{withdraws, is_change};

use mls_requests::{Action, Entry, Reply, Request};
use mls_tables::{Mode, ObjectId, SubjectId};

/// What an entry may change of the current accesses.
pub enum Touch {
    /// Nothing.
    Nothing,
    /// Whether this triple is one.
    One(SubjectId, ObjectId, Mode),
    /// Any triple: objects may be deleted.
    Many,
}

/// What a request may change of the current accesses, where it is granted.
fn touch_asked(request: &Request) -> Touch
    ensures { result ≡ touch_asked request.now.subject request.now.action }
{
    match request.action {
        Action::Get(x, o) | Action::Release(x, o) => Touch::One(request.subject, o, x),
        Action::Rescind(x, s, o) => Touch::One(s, o, x),
        Action::Delete(_) => Touch::Many,
        Action::Give(_, _, _)
        | Action::Create(_, _, _)
        | Action::SubjectLevel(_)
        | Action::ObjectLevel(_, _) => Touch::Nothing,
    }
}

/// What an entry may change of the current accesses.
pub(crate) fn touch_of(entry: &Entry) -> Touch
    ensures { result ≡ touch_of entry.now }
{
    match entry.reply {
        Reply::Yes | Reply::Created(_) => touch_asked(&entry.request),
        Reply::No(_) | Reply::Undefined => Touch::Nothing,
    }
}

/// Whether an entry, where it was granted, made the triple that it names a current access.
pub(crate) fn makes_access(entry: &Entry) -> bool
    ensures { result ≡ makes_access entry.now.request.action }
{
    matches!(entry.request.action, Action::Get(_, _))
}

/// Whether an action, where it is granted, takes an access or a permission away, or changes a label.
fn withdraws(action: &Action) -> bool
    ensures { result ≡ withdraws action.now }
{
    match action {
        Action::Release(_, _)
        | Action::Rescind(_, _, _)
        | Action::Delete(_)
        | Action::SubjectLevel(_)
        | Action::ObjectLevel(_, _) => true,
        Action::Get(_, _) | Action::Give(_, _, _) | Action::Create(_, _, _) => false,
    }
}

/// Whether an entry is a change: its request was granted, and takes away or changes a label.
pub(crate) fn is_change(entry: &Entry) -> bool
    ensures { result ≡ is_change entry.now }
{
    match entry.reply {
        Reply::Yes | Reply::Created(_) => withdraws(&entry.request.action),
        Reply::No(_) | Reply::Undefined => false,
    }
}
