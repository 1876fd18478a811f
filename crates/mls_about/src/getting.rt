//! Who may get an object.
ghost use Rattle.std.specs.Prelude.{◌≡◌, ◌++◌, IfOk, IsTrue, None};
ghost use Rattle.mls_explain_text.specs.Files.{modes_asked};
ghost use Rattle.mls_rows.specs.Rows.{bytes_of, form_of};
ghost use Rattle.mls_state.specs.State.{is_active};
ghost use Rattle.mls_about.specs.Gets.{AreGets, GetsOf, get_bytes, gets_bytes};

use mls_explain::{Prospect, prospects};
use mls_explain_text::{Outlook, modes_asked};
use mls_lines::Names;
use mls_rows::Output;
use mls_shared_rows::with_kind;
use mls_state::State;
use mls_tables::ObjectId;
use std::alloc::{AllocError, Global};

/// What becomes of the gets of an active object that the matrix permits.
fn gets_of_active(alloc: Global, state: &State, o: ObjectId) -> Result<Vec<Prospect>, AllocError>
    requires { IsTrue (is_active state.now o) }
    ensures { IfOk result (λ found. AreGets state.now o found.items) }
{
    // how many subjects there are
    let _ = state.subject_count();
    prospects(alloc, state, o, modes_asked(None))
}

/// What becomes of the gets of an object that the matrix permits, by subject, then by mode.
pub(crate) fn gets(alloc: Global, state: &State, o: ObjectId) -> Result<Vec<Prospect>, AllocError>
    ensures { IfOk result (λ found. GetsOf state.now o found.items) }
{
    if !state.is_active(o) {
        return Ok(Vec::new(alloc));
    }
    gets_of_active(alloc, state, o)
}

/// Adds the row of what a subject may get in this state.
fn with_get(
    alloc: Global,
    output: Output,
    names: &Names,
    state: &State,
    prospect: &Prospect,
) -> Result<Output, AllocError>
    ensures form { IfOk result (λ new. form_of new ≡ form_of output) }
    ensures bytes { IfOk result (λ new. bytes_of new
        ≡ bytes_of output ++ get_bytes (form_of output) names.now state.now prospect.now) }
{
    let row = Outlook::of(alloc, state, prospect)?;
    let new = with_kind(output, names, None, "who", &row);
    drop(row);
    new
}

/// Adds the rows of what subjects may get in this state.
pub(crate) fn with_gets(
    alloc: Global,
    output: Output,
    names: &Names,
    state: &State,
    found: &[Prospect],
) -> Result<Output, AllocError>
    ensures form { IfOk result (λ new. form_of new ≡ form_of output) }
    ensures bytes { IfOk result (λ new. bytes_of new
        ≡ bytes_of output ++ gets_bytes (form_of output) names.now state.now found.now) }
{
    let mut written = output;
    for prospect in found {
        written = with_get(alloc, written, names, state, prospect)?;
    }
    Ok(written)
}
