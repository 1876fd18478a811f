//! The remedy of a request.
ghost use Rattle.std.specs.Prelude.{◌≡◌, IsTrue, IfOk};
ghost use Rattle.mls_rules.specs.Rules.{is_defined};
ghost use Rattle.mls_remedies.specs.Remedies.{IsLed, IsRemedy};

use crate::changing::change_remedy;
use crate::getting::get_remedy;
use crate::remedy::Remedy;
use mls_requests::{Action, Request};
use mls_rules::State;
use std::alloc::{AllocError, Global};

/// The remedy of a request in the domain that is denied: requests in an order in which each is granted, and after which
/// the request that was asked is granted too, or the last of which is granted in its place.
///
/// - Of a get: the giving of its permission, where the matrix doesn't permit it, by the first three subjects that may
///   give it, or by the first that may once it has got write of the parent; then what the get takes of its subject in
///   that state, as [`way_of`](mls_explain::way_of) has it.
/// - Of any other request: the releases of what stands in the way of its label, by whoever holds it; then append or
///   write of the parent, where the subject may get that and is granted the request then; else the same request of the
///   first three subjects that are granted it.
///
/// # Errors
/// `AllocError` where an allocation failed.
pub fn remedy_for(alloc: Global, state: &State, request: &Request) -> Result<Remedy, AllocError>
    requires { IsTrue (is_defined state.now request.now) }
    ensures is { IfOk result (λ remedy. IsRemedy state.now request.now remedy.steps.items remedy.ending) }
    ensures leads { IfOk result (λ remedy. IsLed state.now request.now.subject request.now.action remedy.steps.items
        remedy.ending) }
{
    let s = request.subject;
    match &request.action {
        Action::Get(x, o) => get_remedy(alloc, state, s, *o, *x),
        action => change_remedy(alloc, state, s, action),
    }
}
