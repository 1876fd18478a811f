//! What is said of a start that is checked.
ghost use Rattle.std.specs.Prelude.{◌≡◌, IfOk, IsTrue, true};
ghost use Rattle.mls_rows.specs.Rows.{row_bytes};
ghost use Rattle.mls_answers.specs.Checking.{Checks, ChecksOver, check_line, check_members};

use crate::checked_row::CheckedRow;
use mls_monitor::Start;
use mls_rows::{Form, Output};
use mls_seen::Opened;
use mls_state::is_secure;
use std::alloc::{AllocError, Global};

/// Whether the state that a start opens with is secure, looked at from scratch.
fn opens_secure(alloc: Global, start: &Start) -> Result<bool, AllocError>
    ensures { IfOk result (λ secure. IsTrue secure) }
{
    let state = start.opening(alloc)?;
    let secure = is_secure(&state);
    drop(state);
    Ok(secure)
}

/// The row of a start that is checked, in a form.
fn written(alloc: Global, form: Form, row: &CheckedRow) -> Result<Vec<u8>, AllocError>
    ensures { IfOk result (λ bytes. bytes.items ≡ row_bytes form
        (check_line row.now.subjects row.now.objects row.now.cells row.now.accesses row.now.secure)
        (check_members row.now.subjects row.now.objects row.now.cells row.now.accesses row.now.secure)) }
{
    let output = Output::new(alloc, form).with_plain(row)?;
    Ok(output.into_bytes())
}

/// What is said of a start that is checked, in a form.
fn check_over(alloc: Global, form: Form, start: &Start) -> Result<Vec<u8>, AllocError>
    ensures { IfOk result (λ bytes. ChecksOver form start.now bytes.items) }
{
    let row = CheckedRow {
        subjects: u64::from(start.subject_count()),
        objects: u64::from(start.object_count()),
        cells: start.cell_count() as u64,
        accesses: start.access_count() as u64,
        secure: opens_secure(alloc, start)?,
    };
    written(alloc, form, &row)
}

/// What is said of a start file that was read, in a form: how many subjects, objects and cells its start has, how many
/// accesses where it has any, and whether it opens secure.
///
/// # Errors
/// `AllocError` where an allocation failed.
pub fn check(alloc: Global, form: Form, opened: &Opened) -> Result<Vec<u8>, AllocError>
    ensures { IfOk result (λ bytes. Checks form opened.now.file bytes.items) }
{
    // that the file says its start
    let _ = opened.names();
    check_over(alloc, form, opened.start())
}
