//! Who may get what of an object, as rows.
ghost use Rattle.std.specs.Prelude.{◌≡◌, ◌++◌, [], false, IsTrue, IfOk};
ghost use Rattle.mls_rows.specs.Rows.{bytes_of, form_of};
ghost use Rattle.mls_state.specs.State.{is_active};
ghost use Rattle.mls_explain_text.specs.WhoRows.{prospect_bytes, prospect_row, RowsOfActive, RowsOfWho};

use crate::outlook::Outlook;
use crate::prospect_line::is_open;
use mls_explain::{Prospect, prospects};
use mls_lines::Names;
use mls_rows::{Form, Listing, Output};
use mls_rules::State;
use mls_tables::{Modes, ObjectId};
use std::alloc::{AllocError, Global};

/// An output with the row of what a subject may get in this state.
fn with_row(
    alloc: Global,
    output: Output,
    names: &Names,
    state: &State,
    prospect: &Prospect,
) -> Result<Output, AllocError>
    ensures form { IfOk result (λ next. form_of next ≡ form_of output) }
    ensures bytes { IfOk result (λ next. bytes_of next
        ≡ bytes_of output ++ prospect_row names.now state.now (form_of output) prospect.now) }
{
    let row = Outlook::of(alloc, state, prospect)?;
    let next = output.with(names, None, &row);
    drop(row);
    next
}

/// The rows of what subjects may get in this state, in this form.
fn written(
    alloc: Global,
    form: Form,
    names: &Names,
    state: &State,
    prospects: &[Prospect],
) -> Result<Vec<u8>, AllocError>
    ensures { IfOk result (λ bytes. bytes.items ≡ prospect_bytes names.now state.now form prospects.now) }
{
    let mut output = Output::new(alloc, form);
    for prospect in prospects {
        output = with_row(alloc, output, names, state, prospect)?;
    }
    Ok(output.into_bytes())
}

/// Who may get what of an active object.
fn list_active(
    alloc: Global,
    form: Form,
    names: &Names,
    state: &State,
    object: ObjectId,
    modes: Modes,
) -> Result<Listing, AllocError>
    requires { IsTrue (is_active state.now object) }
    ensures { IfOk result (λ listing. RowsOfActive names.now state.now object modes form listing.bytes.items
        listing.is_positive) }
{
    // how many subjects there are
    let _ = state.subject_count();
    let found = prospects(alloc, state, object, modes)?;
    let bytes = written(alloc, form, names, state, &found)?;
    let is_positive = is_open(&found);
    drop(found);
    Ok(Listing { bytes, is_positive })
}

/// Who may get what of an object in this state, in a form: a row for each subject, by number, and mode, in their order,
/// in which the matrix permits the object, of the modes that are asked for. It has the reply to the get, and after a
/// denial what it would take of the subject alone: a current label, after releases if need be, or that nothing does. An
/// object that isn't active has no row. The answer is positive where one of the gets would be granted.
///
/// # Errors
/// `AllocError` where an allocation failed.
pub fn list_who(
    alloc: Global,
    form: Form,
    names: &Names,
    state: &State,
    object: ObjectId,
    modes: Modes,
) -> Result<Listing, AllocError>
    ensures { IfOk result (λ listing. RowsOfWho names.now state.now object modes form listing.bytes.items
        listing.is_positive) }
{
    if !state.is_active(object) {
        return Ok(Listing {
            bytes: Vec::new(alloc),
            is_positive: false,
        });
    }
    list_active(alloc, form, names, state, object, modes)
}
