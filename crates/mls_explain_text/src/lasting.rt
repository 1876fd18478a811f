//! The condition that is told of a denied get.
ghost use Rattle.std.specs.Prelude.{◌≡◌};
ghost use Rattle.mls_explain_text.specs.Lasting.{lasting, told_reason, told_reply};

use mls_explain::Way;
use mls_requests::{Reason, Reply};

/// The condition that always fails, of a get that is never granted: the first that fails, but in place of star
/// integrity.
fn lasting(reason: Reason) -> Reason
    ensures { result ≡ lasting reason }
{
    match reason {
        Reason::Star => Reason::Integrity,
        Reason::Discretionary
        | Reason::Simple
        | Reason::Integrity
        | Reason::Authority
        | Reason::Compatibility
        | Reason::Ceiling
        | Reason::Root
        | Reason::Full => reason,
    }
}

/// The condition that is told of a denied get: the first that fails, or of one that is never granted the one that
/// always fails.
pub(crate) fn told_reason(reason: Reason, way: Way) -> Reason
    ensures { result ≡ told_reason reason way }
{
    match way {
        Way::Never => lasting(reason),
        Way::Level(_) | Way::Released(_) => reason,
    }
}

/// The reply to a get with the condition that is told of it.
pub(crate) fn told_reply(reply: Reply, way: Way) -> Reply
    ensures { result ≡ told_reply reply way }
{
    match reply {
        Reply::No(reason) => Reply::No(told_reason(reason, way)),
        Reply::Yes | Reply::Created(_) | Reply::Undefined => reply,
    }
}
