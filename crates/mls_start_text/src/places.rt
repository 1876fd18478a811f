//! What the names of a start file's cells stand for, those of the matrix and those of the accesses.
ghost use Rattle.std.specs.Prelude.{◌≡◌, ◌≢◌, ◌++◌, map, option_map, length, All, IfOk, IfErr, OnOk, Some, None};
ghost use Rattle.mls_requests.specs.ModeWords.{read_mode};
ghost use Rattle.mls_start_text.specs.Below.{IsPlacedBelow};
ghost use Rattle.mls_start_text.specs.Placing.{cell_triples, triples_of};
ghost use Rattle.mls_start_text.specs.PlaceViews.{triple_view};
ghost use Rattle.mls_start_text.specs.Views.{text_view, cell_view};

use crate::cell_text::CellText;
use crate::load_fault::LoadFault;
use crate::name_sets::NameSets;
use mls_requests::read_mode;
use mls_tables::Mode;
use serde_json::Value;
use std::alloc::Global;

/// A triple of a cell, by the places of its subject and its object.
#[derive(Clone, Copy)]
pub struct PlacedTriple {
    pub subject: usize,
    pub object: usize,
    pub mode: Mode,
}

/// The mode of a text that is a mode's word.
pub fn mode_of(value: &Value) -> Option<Mode>
    ensures { result ≡ read_mode (text_view value.now) }
{
    match value.as_str() {
        Some(word) => read_mode(word.as_bytes()),
        None => None,
    }
}

/// Adds the triples of a cell.
///
/// # Errors
/// `Unknown` where a name or a word is unknown, `Memory` where an allocation failed.
fn place_cell(
    triples: &mut Vec<PlacedTriple>,
    names: &NameSets,
    cell: &CellText<'_>,
) -> Result<(), LoadFault>
    ensures ok { OnOk result
        (option_map (λ more. map triple_view triples.old.items ++ more)
        (cell_triples names.now.subjects names.now.objects (cell_view cell.now))
        ≡ Some (map triple_view triples.new.items)) }
    ensures fault { IfErr result
        (λ fault. fault ≢ LoadFault.Memory → (fault ≡ LoadFault.Unknown)
        × (cell_triples names.now.subjects names.now.objects (cell_view cell.now) ≡ None)) }
{
    let Some(subject) = names.subjects.place(cell.subject) else {
        return Err(LoadFault::Unknown);
    };
    let Some(object) = names.objects.place(cell.object) else {
        return Err(LoadFault::Unknown);
    };
    for value in cell.modes {
        let Some(mode) = mode_of(value) else {
            return Err(LoadFault::Unknown);
        };
        triples.push(PlacedTriple {
            subject,
            object,
            mode,
        })?;
    }
    Ok(())
}

/// The triples of the cells.
///
/// # Errors
/// `Unknown` where a name or a word is unknown, `Memory` where an allocation failed.
pub(crate) fn place_cells(
    alloc: Global,
    names: &NameSets,
    cells: &[CellText<'_>],
) -> Result<Vec<PlacedTriple>, LoadFault>
    ensures ok { IfOk result
        (λ triples. triples_of names.now.subjects names.now.objects (map cell_view cells.now)
        ≡ Some (map triple_view triples.items)) }
    ensures places { IfOk result
        (λ triples. All (IsPlacedBelow (length names.now.subjects) (length names.now.objects)) triples.items) }
    ensures fault { IfErr result
        (λ fault. fault ≢ LoadFault.Memory → (fault ≡ LoadFault.Unknown)
        × (triples_of names.now.subjects names.now.objects (map cell_view cells.now) ≡ None)) }
{
    let mut triples = Vec::with_capacity(alloc, cells.len())?;
    for cell in cells {
        place_cell(&mut triples, names, cell)?;
    }
    Ok(triples)
}
