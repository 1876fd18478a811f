//! What one start grants and another doesn't.
ghost use Rattle.std.specs.Prelude.{◌≡◌};
ghost use Rattle.mls_differences.specs.Breaking.{is_broken, is_grant, is_wanted};

use mls_requests::Reply;

/// Whether a reply grants.
fn is_grant(reply: &Reply) -> bool
    ensures { result ≡ is_grant reply.now }
{
    match reply {
        Reply::Yes | Reply::Created(_) => true,
        Reply::No(_) | Reply::Undefined => false,
    }
}

/// Whether the first of two replies grants and the second doesn't.
fn is_broken(first: &Reply, second: &Reply) -> bool
    ensures { result ≡ is_broken first.now second.now }
{
    is_grant(first) && !is_grant(second)
}

/// Whether a request with these replies of two starts is asked for: each, or only what the second start breaks.
pub fn is_wanted(broken: bool, first: &Reply, second: &Reply) -> bool
    ensures { result ≡ is_wanted broken first.now second.now }
{
    if broken {
        is_broken(first, second)
    } else {
        true
    }
}
