//! The entries that changed an object.
ghost use Rattle.std.specs.Prelude.{◌≡◌, ◌++◌, IfOk, OnOk};
ghost use Rattle.mls_rows.specs.Rows.{bytes_of, form_of};
ghost use Rattle.mls_rows.specs.Times.{rows_lent};
ghost use Rattle.mls_rules.specs.Rules.{after};
ghost use Rattle.mls_about.specs.Entries.{is_on as is_on_object, differ, changed_bytes, changed_entry};

use crate::entry_row::with_entry;
use mls_explain_text::is_granted;
use mls_lines::Names;
use mls_marks::Marks;
use mls_monitor::Start;
use mls_requests::{Action, Entry};
use mls_rows::Output;
use mls_rules::{State, apply};
use mls_tables::ObjectId;
use std::alloc::{AllocError, Global};

/// Whether an action gives a permission on an object, rescinds one, or relabels it.
fn is_on(o: ObjectId, action: &Action) -> bool
    ensures { result ≡ is_on_object o action.now }
{
    match action {
        Action::Give(_, _, a) | Action::Rescind(_, _, a) | Action::ObjectLevel(a, _) => {
            a.number() == o.number()
        }
        Action::Get(..)
        | Action::Release(..)
        | Action::Create(..)
        | Action::Delete(_)
        | Action::SubjectLevel(_) => false,
    }
}

/// Whether of two answers one is yes and one no.
fn differ(a: bool, b: bool) -> bool
    ensures { result ≡ differ a b }
{
    if a { !b } else { b }
}

/// Adds the row of an entry where it changed an object, and goes on to the state after it.
fn with_change(
    alloc: Global,
    output: Output,
    names: &Names,
    marks: Option<&Marks>,
    state: &mut State,
    o: ObjectId,
    entry: &Entry,
) -> Result<Output, AllocError>
    ensures state { OnOk result (state.new ≡ after state.old entry.now.request) }
    ensures form { IfOk result (λ new. form_of new ≡ form_of output) }
    ensures bytes { IfOk result (λ new. bytes_of new ≡ bytes_of output
        ++ changed_entry (form_of output) names.now (rows_lent marks.entry) state.old o entry.now) }
{
    let was_active = state.is_active(o);
    apply(state, &entry.request)?;
    let began_or_ended = differ(was_active, state.is_active(o));
    if is_granted(entry.reply) && is_on(o, &entry.request.action) || began_or_ended {
        return with_entry(alloc, output, names, marks, entry);
    }
    Ok(output)
}

/// Adds the rows of the entries behind a state that changed an object. The state goes on to the last.
fn with_changes(
    alloc: Global,
    output: Output,
    names: &Names,
    marks: Option<&Marks>,
    state: &mut State,
    o: ObjectId,
    entries: &[Entry],
) -> Result<Output, AllocError>
    ensures form { IfOk result (λ new. form_of new ≡ form_of output) }
    ensures bytes { IfOk result (λ new. bytes_of new ≡ bytes_of output
        ++ changed_bytes (form_of output) names.now (rows_lent marks.entry) state.old o entries.now) }
{
    let mut written = output;
    for entry in entries {
        written = with_change(alloc, written, names, marks, state, o, entry)?;
    }
    Ok(written)
}

/// Adds the rows of the entries of a start that changed an object.
pub(crate) fn with_all_changes(
    alloc: Global,
    output: Output,
    names: &Names,
    marks: Option<&Marks>,
    start: &Start,
    o: ObjectId,
    entries: &[Entry],
) -> Result<Output, AllocError>
    ensures form { IfOk result (λ new. form_of new ≡ form_of output) }
    ensures bytes { IfOk result (λ new. bytes_of new ≡ bytes_of output
        ++ changed_bytes (form_of output) names.now (rows_lent marks.entry) start.now o entries.now) }
{
    let mut state = start.opening(alloc)?;
    let written = with_changes(alloc, output, names, marks, &mut state, o, entries);
    drop(state);
    written
}
