//! The rows of a state's triples: what the matrix permits, and what is accessed.
ghost use Rattle.std.specs.Prelude.{◌≡◌, ◌++◌, IfOk};
ghost use Rattle.mls_rows.specs.Rows.{bytes_of, form_of};
ghost use Rattle.mls_shared_rows.specs.StateRows.{cell_bytes, cells_bytes, table_bytes, triple_bytes};
ghost use Rattle.mls_snapshots.specs.States.{word_of};
ghost use Rattle.mls_state.specs.Tables.{triples_of};
ghost use Rattle.mls_tables.specs.declared.limits.TheConstants.{MAX_SUBJECTS, MAX_OBJECTS};
ghost use Rattle.mls_wording.specs.Where.{only_if};

use crate::kinds::with_kind;
use crate::triple_row::{TripleRow, word_of};
use mls_lines::Names;
use mls_rows::Output;
use mls_state::{State, Table};
use mls_tables::{MAX_OBJECTS, MAX_SUBJECTS, Mode, ObjectId, SubjectId};
use std::alloc::AllocError;

/// Adds the row of a triple, where it is there.
fn with_triple(
    output: Output,
    names: &Names,
    table: Table,
    triple: (SubjectId, ObjectId, Mode),
    there: bool,
) -> Result<Output, AllocError>
    ensures form { IfOk result (λ new. form_of new ≡ form_of output) }
    ensures bytes { IfOk result (λ new. bytes_of new ≡ bytes_of output
        ++ only_if there (triple_bytes (form_of output) (word_of table) names.now triple)) }
{
    if !there {
        return Ok(output);
    }
    let row = TripleRow { table, triple };
    with_kind(output, names, None, word_of(table), &row)
}

/// Adds the rows of the triples of a subject and an object, in the order of modes.
///
/// # Errors
/// `AllocError` where an allocation failed.
pub fn with_cell(
    output: Output,
    names: &Names,
    state: &State,
    table: Table,
    s: SubjectId,
    o: ObjectId,
) -> Result<Output, AllocError>
    ensures form { IfOk result (λ new. form_of new ≡ form_of output) }
    ensures bytes { IfOk result (λ new. bytes_of new ≡ bytes_of output
        ++ cell_bytes (form_of output) (word_of table) names.now (triples_of table state.now) s o) }
{
    let modes = table.modes(state, s, o);
    let (execute, read) = (modes.has(Mode::Execute), modes.has(Mode::Read));
    let (append, write) = (modes.has(Mode::Append), modes.has(Mode::Write));
    let output = with_triple(output, names, table, (s, o, Mode::Execute), execute)?;
    let output = with_triple(output, names, table, (s, o, Mode::Read), read)?;
    let output = with_triple(output, names, table, (s, o, Mode::Append), append)?;
    let output = with_triple(output, names, table, (s, o, Mode::Write), write)?;
    Ok(output)
}

/// Adds the rows of the triples of a subject, by object.
///
/// # Errors
/// `AllocError` where an allocation failed.
pub fn with_row(
    output: Output,
    names: &Names,
    state: &State,
    table: Table,
    s: SubjectId,
) -> Result<Output, AllocError>
    ensures form { IfOk result (λ new. form_of new ≡ form_of output) }
    ensures bytes { IfOk result (λ new. bytes_of new ≡ bytes_of output
        ++ cells_bytes (form_of output) (word_of table) names.now (triples_of table state.now) s MAX_OBJECTS) }
{
    // that triples name known subjects
    state.agrees();
    if !state.is_subject(s) {
        return Ok(output);
    }
    let mut written = output;
    for o in 0..MAX_OBJECTS {
        written = with_cell(written, names, state, table, s, ObjectId(o))?;
    }
    Ok(written)
}

/// Adds the rows of the triples of a table, by subject.
pub(crate) fn with_table(
    output: Output,
    names: &Names,
    state: &State,
    table: Table,
) -> Result<Output, AllocError>
    ensures form { IfOk result (λ new. form_of new ≡ form_of output) }
    ensures bytes { IfOk result (λ new. bytes_of new ≡ bytes_of output
        ++ table_bytes (form_of output) (word_of table) names.now (triples_of table state.now) MAX_SUBJECTS) }
{
    let mut written = output;
    for s in 0..MAX_SUBJECTS {
        written = with_row(written, names, state, table, SubjectId(s))?;
    }
    Ok(written)
}
