//! What becomes of the accesses to an object, as rows.
ghost use Rattle.std.specs.Prelude.{◌≡◌, [], false, IsTrue, IfOk};
ghost use Rattle.mls_rows.specs.Rows.{bytes_of, form_of};
ghost use Rattle.mls_state.specs.State.{is_active};
ghost use Rattle.mls_state.specs.Properties.{IsSecure};
ghost use Rattle.mls_futures.specs.Closure.{acts_in};
ghost use Rattle.mls_could.specs.Rows.{foreseen_bytes, any_open, RowsOfActive, RowsOfCould};

use crate::foreseeing::foresee;
use crate::foreseen::Foreseen;
use mls_lines::Names;
use mls_rows::{Form, Listing, written};
use mls_rules::State;
use mls_tables::{Mode, ObjectId};
use std::alloc::{AllocError, Global};

/// Whether one of the accesses is held or could be.
fn any_open(found: &[Foreseen]) -> bool
    ensures { result ≡ any_open found.now }
{
    for one in found {
        if one.future.is_open() {
            return true;
        }
    }
    false
}

/// What becomes of the accesses to an active object.
fn list_active(
    alloc: Global,
    form: Form,
    names: &Names,
    state: &State,
    actors: &[bool],
    object: ObjectId,
    mode: Option<Mode>,
) -> Result<Listing, AllocError>
    requires secure { IsSecure state.now }
    requires object { IsTrue (is_active state.now object) }
    ensures { IfOk result (λ listing. RowsOfActive names.now state.now (acts_in actors.now) object mode form
        listing.bytes.items listing.is_positive) }
{
    // how many subjects there are
    let _ = state.subject_count();
    let found = foresee(alloc, state, actors, object, mode)?;
    let output = written(alloc, form, names, None, &found)?;
    let is_positive = any_open(&found);
    drop(found);
    Ok(Listing {
        bytes: output.into_bytes(),
        is_positive,
    })
}

/// What becomes of the accesses to an object, from a secure state on, whatever the actors do, in a form: a row for each
/// subject, by number, and mode that is asked for, or any, in their order. The access is held now; or it isn't, and
/// could come about; or it isn't, and never comes about. An object that isn't active has no row. The answer is positive
/// where one of the accesses is held or could be.
///
/// # Errors
/// `AllocError` where an allocation failed.
pub fn list_could(
    alloc: Global,
    form: Form,
    names: &Names,
    state: &State,
    actors: &[bool],
    object: ObjectId,
    mode: Option<Mode>,
) -> Result<Listing, AllocError>
    requires { IsSecure state.now }
    ensures { IfOk result (λ listing. RowsOfCould names.now state.now (acts_in actors.now) object mode form
        listing.bytes.items listing.is_positive) }
{
    if !state.is_active(object) {
        return Ok(Listing {
            bytes: Vec::new(alloc),
            is_positive: false,
        });
    }
    list_active(alloc, form, names, state, actors, object, mode)
}
