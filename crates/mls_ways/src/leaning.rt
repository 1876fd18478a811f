//! Scripts of which no request can be left out.
ghost use Rattle.std.specs.Prelude.{◌≡◌, ◌<◌, length, true, IfOk, MatchOption};
ghost use Rattle.mls_futures.specs.Closure.{acts_in};
ghost use Rattle.mls_futures.specs.Scripts.{AreOfActors};
ghost use Rattle.mls_ways.specs.Lean.{brings, without, IsLean};

use crate::working::brings;
use mls_rules::{Request, State};
use mls_tables::{Mode, ObjectId, SubjectId};
use std::alloc::{AllocError, Global};

/// Requests without the one at a place.
fn without(alloc: Global, n: usize, requests: &[Request]) -> Result<Vec<Request>, AllocError>
    requires { n < length requests.now }
    ensures { IfOk result (λ rest. rest.items ≡ without n requests.now) }
{
    let (front, rest) = requests.split_at(n);
    let mut found = Vec::from_slice(alloc, front)?;
    found.extend_from_slice(&rest[1..])?;
    Ok(found)
}

/// Whether requests bring an access about without the one at a place.
fn is_needless(
    alloc: Global,
    first: &State,
    requests: &[Request],
    access: &(SubjectId, ObjectId, Mode),
    n: usize,
) -> Result<bool, AllocError>
    requires { n < length requests.now }
    ensures { IfOk result (λ is. is ≡ brings first.now access.now (without n requests.now)) }
{
    let shorter = without(alloc, n, requests)?;
    let is = brings(alloc, first, &shorter, *access);
    drop(shorter);
    is
}

/// The first place of a request without which the others bring the access about, where there is one.
fn first_needless(
    alloc: Global,
    first: &State,
    requests: &[Request],
    access: &(SubjectId, ObjectId, Mode),
) -> Result<Option<usize>, AllocError>
    ensures { IfOk result (λ found. MatchOption found (IsLean first.now access.now requests.now)
        (λ n. (n < length requests.now) × (brings first.now access.now (without n requests.now) ≡ true))) }
{
    for n in 0..requests.len() {
        if is_needless(alloc, first, requests, access, n)? {
            return Ok(Some(n));
        }
    }
    Ok(None)
}

/// Leaves requests of actors out that bring an access about, one after the other, until none can be left out alone.
pub(crate) fn lean(
    alloc: Global,
    first: &State,
    actors: &[bool],
    requests: Vec<Request>,
    access: &(SubjectId, ObjectId, Mode),
) -> Result<Vec<Request>, AllocError>
    requires brings { brings first.now access.now requests.items ≡ true }
    requires of_actors { AreOfActors (acts_in actors.now) requests.items }
    ensures brings { IfOk result (λ lean. brings first.now access.now lean.items ≡ true) }
    ensures of_actors { IfOk result (λ lean. AreOfActors (acts_in actors.now) lean.items) }
    ensures lean { IfOk result (λ lean. IsLean first.now access.now lean.items) }
{
    let mut requests = requests;
    while let Some(n) = first_needless(alloc, first, &requests, access)? {
        requests = without(alloc, n, &requests)?;
    }
    Ok(requests)
}
