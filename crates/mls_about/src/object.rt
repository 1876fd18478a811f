//! What is told of an object.
ghost use Rattle.std.specs.Prelude.{◌≡◌, ◌++◌, option_map, IfOk};
ghost use Rattle.mls_rows.specs.Rows.{bytes_of, form_of};
ghost use Rattle.mls_rows.specs.Times.{rows_lent};
ghost use Rattle.mls_shared_rows.specs.StateRows.{object_bytes};
ghost use Rattle.mls_tables.specs.declared.limits.TheConstants.{MAX_SUBJECTS, MAX_OBJECTS};
ghost use Rattle.mls_about.specs.Gets.{gets_bytes};
ghost use Rattle.mls_about.specs.Objects.{is_this, is_child, child_bytes, children_bytes, column_bytes};
ghost use Rattle.mls_about.specs.Objects.{object_history, ShowsObject, TellsObject};

use crate::changing::with_all_changes;
use crate::child_row::ChildRow;
use crate::getting::{gets, with_gets};
use mls_explain::Prospect;
use mls_lines::Names;
use mls_marks::Marks;
use mls_monitor::Start;
use mls_requests::Entry;
use mls_rows::{Form, Output};
use mls_shared_rows::{with_cell, with_kind, with_object};
use mls_state::{State, Table};
use mls_tables::{MAX_OBJECTS, MAX_SUBJECTS, ObjectId, SubjectId};
use std::alloc::{AllocError, Global};

/// Whether an object is the parent that there is.
fn is_this(parent: Option<ObjectId>, o: ObjectId) -> bool
    ensures { result ≡ is_this parent o }
{
    match parent {
        Some(p) => p.number() == o.number(),
        None => false,
    }
}

/// Whether an object is active, and a child of another.
fn is_child(state: &State, o: ObjectId, child: ObjectId) -> bool
    ensures { result ≡ is_child state.now o child }
{
    state.is_active(child) && is_this(state.parent(child), o)
}

/// Adds the row of a child, of no other object.
fn with_child(
    output: Output,
    names: &Names,
    state: &State,
    o: ObjectId,
    child: ObjectId,
) -> Result<Output, AllocError>
    ensures form { IfOk result (λ new. form_of new ≡ form_of output) }
    ensures bytes { IfOk result (λ new. bytes_of new
        ≡ bytes_of output ++ child_bytes (form_of output) names.now state.now o child) }
{
    if !is_child(state, o, child) {
        return Ok(output);
    }
    with_kind(output, names, None, "child", &ChildRow { object: child })
}

/// Adds the rows of the children of an object, by number.
fn with_children(
    output: Output,
    names: &Names,
    state: &State,
    o: ObjectId,
) -> Result<Output, AllocError>
    ensures form { IfOk result (λ new. form_of new ≡ form_of output) }
    ensures bytes { IfOk result (λ new. bytes_of new
        ≡ bytes_of output ++ children_bytes (form_of output) names.now state.now o MAX_OBJECTS) }
{
    let mut written = output;
    for child in 0..MAX_OBJECTS {
        written = with_child(written, names, state, o, ObjectId(child))?;
    }
    Ok(written)
}

/// Adds the rows of the accesses to an object, by subject, then by mode.
fn with_column(
    output: Output,
    names: &Names,
    state: &State,
    o: ObjectId,
) -> Result<Output, AllocError>
    ensures form { IfOk result (λ new. form_of new ≡ form_of output) }
    ensures bytes { IfOk result (λ new. bytes_of new
        ≡ bytes_of output ++ column_bytes (form_of output) names.now state.now.accesses o MAX_SUBJECTS) }
{
    let mut written = output;
    for s in 0..MAX_SUBJECTS {
        written = with_cell(written, names, state, Table::Accesses, SubjectId(s), o)?;
    }
    Ok(written)
}

/// Adds the rows of the entries that changed an object, where there is a journal.
fn with_history(
    alloc: Global,
    output: Output,
    names: &Names,
    marks: Option<&Marks>,
    start: &Start,
    o: ObjectId,
    entries: Option<&[Entry]>,
) -> Result<Output, AllocError>
    ensures { IfOk result (λ new. bytes_of new ≡ bytes_of output
        ++ object_history (form_of output) names.now (rows_lent marks.entry) start.now o
        (option_map (λ lent. lent.now) entries.entry)) }
{
    match entries {
        Some(entries) => with_all_changes(alloc, output, names, marks, start, o, entries),
        None => Ok(output),
    }
}

/// Adds what there is of an object in a state, with these rows of who may get it.
fn with_now(
    alloc: Global,
    output: Output,
    names: &Names,
    state: &State,
    o: ObjectId,
    found: &[Prospect],
) -> Result<Output, AllocError>
    ensures form { IfOk result (λ new. form_of new ≡ form_of output) }
    ensures bytes { IfOk result (λ new. bytes_of new ≡ bytes_of output
        ++ (object_bytes (form_of output) names.now state.now o
        ++ (children_bytes (form_of output) names.now state.now o MAX_OBJECTS
        ++ (gets_bytes (form_of output) names.now state.now found.now
        ++ column_bytes (form_of output) names.now state.now.accesses o MAX_SUBJECTS)))) }
{
    let output = with_object(alloc, output, names, state, o)?;
    let output = with_children(output, names, state, o)?;
    let output = with_gets(alloc, output, names, state, found)?;
    with_column(output, names, state, o)
}

/// What there is of an object in a state.
fn object_now(
    alloc: Global,
    form: Form,
    names: &Names,
    state: &State,
    o: ObjectId,
) -> Result<Output, AllocError>
    ensures form { IfOk result (λ output. form_of output ≡ form) }
    ensures shows { IfOk result (λ output. ShowsObject form names.now state.now o (bytes_of output)) }
{
    let found = gets(alloc, state, o)?;
    let output = with_now(alloc, Output::new(alloc, form), names, state, o, &found);
    drop(found);
    output
}

/// What is told of an object: what there is of it in a state, and where there is a journal the entries that changed it.
pub(crate) fn object_rows(
    alloc: Global,
    form: Form,
    names: &Names,
    start: &Start,
    state: &State,
    o: ObjectId,
    marks: Option<&Marks>,
    entries: Option<&[Entry]>,
) -> Result<Vec<u8>, AllocError>
    ensures { IfOk result (λ bytes. TellsObject form names.now start.now state.now o (rows_lent marks.entry)
        (option_map (λ lent. lent.now) entries.entry) bytes.items) }
{
    let output = object_now(alloc, form, names, state, o)?;
    let output = with_history(alloc, output, names, marks, start, o, entries)?;
    Ok(output.into_bytes())
}
