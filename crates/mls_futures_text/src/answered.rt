//! Whether an access could come about from a state on.
ghost use Rattle.std.specs.Prelude.{◌≡◌, ◌↔◌, IsTrue, IfOk, true, false};
ghost use Rattle.mls_state.specs.State.{is_subject, is_active};
ghost use Rattle.mls_state.specs.Properties.{IsSecure};
ghost use Rattle.mls_futures.specs.Closure.{acts_in, CouldGet};
ghost use Rattle.mls_futures_text.specs.Whether.{RowsOfScript, RowsOfNever, RowsWhether};

use crate::barriers::barriers;
use crate::written::{written_never, written_script};
use mls_futures::{
    could_get, no_future_has_what_the_closure_has_not, what_the_closure_has_comes_about,
};
use mls_lines::Names;
use mls_rows::{Form, Listing};
use mls_rules::State;
use mls_tables::{Mode, ObjectId, SubjectId};
use mls_ways::{Script, script_of};
use std::alloc::{AllocError, Global};

/// Whether an actor could get an access, where its subject and its object are there.
fn is_open(state: &State, actors: &[bool], access: &(SubjectId, ObjectId, Mode)) -> bool
    ensures is { IsTrue result ↔ CouldGet state.now (acts_in actors.now) access.now.0 access.now.1 access.now.2 }
    ensures subject { IsTrue result → IsTrue (is_subject state.now access.now.0) }
    ensures object { IsTrue result → IsTrue (is_active state.now access.now.1) }
{
    let (s, o, x) = *access;
    state.is_subject(s) && state.is_active(o) && could_get(state, actors, s, o, x)
}

/// The rows of the script that brings an access about.
fn script_rows(
    alloc: Global,
    form: Form,
    names: &Names,
    state: &State,
    actors: &[bool],
    access: &(SubjectId, ObjectId, Mode),
) -> Result<Listing, AllocError>
    requires secure { IsSecure state.now }
    requires subject { IsTrue (is_subject state.now access.now.0) }
    requires object { IsTrue (is_active state.now access.now.1) }
    requires could { CouldGet state.now (acts_in actors.now) access.now.0 access.now.1 access.now.2 }
    ensures rows { IfOk result (λ listing. RowsOfScript names.now state.now (acts_in actors.now) access.now form
        listing.bytes.items) }
    ensures positive { IfOk result (λ listing. listing.is_positive ≡ true) }
{
    state.agrees();
    what_the_closure_has_comes_about();
    let Script { releases, requests } = script_of(alloc, state, actors, *access)?;
    let listing = written_script(alloc, form, names, &releases, &requests);
    drop(releases);
    drop(requests);
    listing
}

/// The rows of the reasons why an access never comes about.
fn never_rows(
    alloc: Global,
    form: Form,
    names: &Names,
    state: &State,
    actors: &[bool],
    access: &(SubjectId, ObjectId, Mode),
) -> Result<Listing, AllocError>
    requires secure { IsSecure state.now }
    requires never { CouldGet state.now (acts_in actors.now) access.now.0 access.now.1 access.now.2 → ⊥ }
    ensures rows { IfOk result (λ listing. RowsOfNever names.now state.now (acts_in actors.now) access.now form
        listing.bytes.items) }
    ensures positive { IfOk result (λ listing. listing.is_positive ≡ false) }
{
    no_future_has_what_the_closure_has_not();
    let found = barriers(alloc, state, actors, access)?;
    let listing = written_never(alloc, form, names, &found);
    drop(found);
    listing
}

/// Whether an access could come about, from a secure state on, whatever the actors do, in a form: a script that brings
/// it about, or why it never does. The answer is positive where it could.
///
/// # Errors
/// `AllocError` where an allocation failed.
pub fn list_whether(
    alloc: Global,
    form: Form,
    names: &Names,
    state: &State,
    actors: &[bool],
    access: &(SubjectId, ObjectId, Mode),
) -> Result<Listing, AllocError>
    requires { IsSecure state.now }
    ensures { IfOk result (λ listing. RowsWhether names.now state.now (acts_in actors.now) access.now form
        listing.bytes.items listing.is_positive) }
{
    if is_open(state, actors, access) {
        return script_rows(alloc, form, names, state, actors, access);
    }
    never_rows(alloc, form, names, state, actors, access)
}
