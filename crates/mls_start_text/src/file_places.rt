//! The profile of a start file, and its triples by the places of their names.
ghost use Rattle.std.specs.Prelude.{◌≡◌, ◌≢◌, length, IfOk, IfErr, Some, None};
ghost use Rattle.mls_start_text.specs.Below.{ArePlacedBelow};
ghost use Rattle.mls_start_text.specs.NameViews.{names_view};
ghost use Rattle.mls_start_text.specs.Placing.{placed_of};
ghost use Rattle.mls_start_text.specs.PlaceViews.{placed_view};
ghost use Rattle.mls_start_text.specs.Views.{file_view};

use crate::file_names::FileNames;
use crate::file_text::FileText;
use crate::load_fault::LoadFault;
use crate::places::{PlacedTriple, place_cells};
use mls_tree::Profile;
use std::alloc::Global;

/// What a start file says beside its names and labels: whether object numbers are used again, the triples that the
/// matrix permits, and those that are current accesses.
#[derive(Drop)]
pub struct FilePlaces {
    pub profile: Profile,
    pub cells: Vec<PlacedTriple>,
    pub accesses: Vec<PlacedTriple>,
}

impl FilePlaces {
    /// The profile and the triples of a file of these names.
    ///
    /// # Errors
    /// `Unknown` where a name or a word is unknown, `Memory` where an allocation failed.
    pub fn read(
        alloc: Global,
        names: &FileNames,
        file: &FileText<'_>,
    ) -> Result<FilePlaces, LoadFault>
        ensures ok { IfOk result (λ placed.
            placed_of (names_view names.now) (file_view file.now) ≡ Some (placed_view placed)) }
        ensures places { IfOk result (ArePlacedBelow (length names.now.sets.subjects) (length names.now.sets.objects)) }
        ensures fault { IfErr result (λ fault. fault ≢ LoadFault.Memory →
            (fault ≡ LoadFault.Unknown) × (placed_of (names_view names.now) (file_view file.now) ≡ None)) }
    {
        let cells = place_cells(alloc, &names.sets, &file.cells)?;
        let accesses = place_cells(alloc, &names.sets, &file.accesses)?;
        Ok(FilePlaces {
            profile: file.profile,
            cells,
            accesses,
        })
    }
}
