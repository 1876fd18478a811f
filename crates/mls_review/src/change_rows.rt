//! What subjects may change, as rows.
ghost use Rattle.std.specs.Prelude.{◌≡◌, ◌++◌, ◌==◌, not, IfOk, OnOk, length, map, string_bytes};
ghost use Rattle.std.specs.List.{flat_map};
ghost use Rattle.mls_review.specs.Granted.{change_view};
ghost use Rattle.mls_review.specs.PowerRows.{granted_line, granted_members, granted_row, powers_bytes, powers_text};
ghost use Rattle.mls_review.specs.Powers.{powers as powers_in};

use crate::authority::{Asked, changes};
use crate::change::Change;
use crate::change_lines::push_change_line;
use crate::change_members::{write_over, write_taken};
use json::Writer;
use mls_lines::Names;
use mls_marks::Marks;
use mls_rows::{Form, Listing, Told, written};
use mls_state::State;
use std::alloc::{AllocError, Allocator, Global};

impl Told for Change {
    ghost line = { λ names rows change. granted_line names (change_view change) };

    ghost members = { λ names rows change. granted_members names (change_view change) };

    fn push_line(
        &self,
        text: &mut String,
        names: &Names,
        _marks: Option<&Marks>,
    ) -> Result<(), AllocError> {
        push_change_line(text, names, self)
    }

    fn write_members(
        &self,
        writer: &mut Writer,
        names: &Names,
        _marks: Option<&Marks>,
    ) -> Result<(), AllocError> {
        match self {
            Change::Over(s, power, o) => write_over(writer, names, *s, *power, *o),
            Change::Labels(s, change, labels) => {
                write_taken(writer, *labels.allocator(), names, *s, *change, labels)
            }
        }
    }
}

/// What subjects may change, in a form.
fn changes_written(
    alloc: Global,
    form: Form,
    names: &Names,
    found: &[Change],
) -> Result<Vec<u8>, AllocError>
    ensures { IfOk result
        (λ bytes. bytes.items ≡ flat_map (granted_row form names.now) (map change_view found.now)) }
{
    let output = written(alloc, form, names, None, found)?;
    Ok(output.into_bytes())
}

/// What subjects may change, in a form, as an answer: a positive one where there is something.
fn listed(alloc: Global, form: Form, names: &Names, found: &[Change]) -> Result<Listing, AllocError>
    ensures bytes { IfOk result
        (λ listing. listing.bytes.items ≡ flat_map (granted_row form names.now) (map change_view found.now)) }
    ensures positive { IfOk result
        (λ listing. listing.is_positive ≡ not (length (map change_view found.now) == 0)) }
{
    let bytes = changes_written(alloc, form, names, found)?;
    let is_positive = !found.is_empty();
    Ok(Listing { bytes, is_positive })
}

/// What subjects may change in a state, a row each in this form. The answer is positive where there is a row.
///
/// # Errors
/// `AllocError` where an allocation failed.
pub fn powers<A: Allocator>(
    alloc: Global,
    form: Form,
    names: &Names,
    state: &State<A>,
    asked: Asked,
) -> Result<Listing, AllocError>
    ensures bytes { IfOk result (λ listing. listing.bytes.items ≡ powers_bytes form names.now state.now asked) }
    ensures positive { IfOk result
        (λ listing. listing.is_positive ≡ not (length (powers_in state.now asked) == 0)) }
{
    let found = changes(alloc, state, asked)?;
    let listing = listed(alloc, form, names, &found);
    drop(found);
    listing
}

/// Appends the lines of what subjects may change.
fn push_changes(text: &mut String, names: &Names, found: &[Change]) -> Result<(), AllocError>
    ensures { OnOk result (string_bytes text.new
        ≡ string_bytes text.old ++ flat_map (λ change. granted_line names.now (change_view change)) found.now) }
{
    for change in found {
        change.push_line(text, names, None)?;
    }
    Ok(())
}

/// Appends the lines of what subjects may change, as they are seen.
fn push_seen(text: &mut String, names: &Names, found: &[Change]) -> Result<(), AllocError>
    ensures { OnOk result (string_bytes text.new
        ≡ string_bytes text.old ++ flat_map (granted_line names.now) (map change_view found.now)) }
{
    push_changes(text, names, found)
}

/// Appends the lines of what subjects may change in a state.
///
/// # Errors
/// `AllocError` where an allocation failed. The text may then have a part of them.
pub fn push_powers<A: Allocator>(
    alloc: Global,
    text: &mut String,
    names: &Names,
    state: &State<A>,
    asked: Asked,
) -> Result<(), AllocError>
    ensures { OnOk result
        (string_bytes text.new ≡ string_bytes text.old ++ powers_text names.now state.now asked) }
{
    let found = changes(alloc, state, asked)?;
    let pushed = push_seen(text, names, &found);
    drop(found);
    pushed
}
