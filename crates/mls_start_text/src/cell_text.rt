//! A cell of the matrix or of the accesses, as the file has it.
ghost use Rattle.std.specs.Prelude.{◌≡◌, ◌≢◌, map, option_map, IfOk, IfErr, Some, None};
ghost use Rattle.serde_json.specs.View.{view};
ghost use Rattle.mls_start_text.specs.Each.{each_of};
ghost use Rattle.mls_start_text.specs.Texts.{cell_of};
ghost use Rattle.mls_start_text.specs.Views.{cell_view};

use crate::load_fault::LoadFault;
use crate::looking::{are_texts, list_in, member_count, text_in};
use serde_json::Value;
use std::alloc::Global;

/// A cell of the matrix or of the accesses: the names of a subject and of an object, and a list of texts that are to be
/// words of modes.
#[derive(Clone, Copy)]
pub struct CellText<'a> {
    pub subject: &'a str,
    pub object: &'a str,
    pub modes: &'a [Value],
}

impl<'a> CellText<'a> {
    /// The cell of a value, where it has a cell's members.
    #[tactic(auto, using(crate::proofs::Trees::texts_seen))]
    fn of(value: &'a Value) -> Option<CellText<'a>>
        ensures { option_map cell_view result ≡ cell_of (view value.now) }
    {
        if member_count(value) != 3 {
            return None;
        }
        let subject = text_in(value, "subject")?;
        let object = text_in(value, "object")?;
        let modes = list_in(value, "modes")?;
        if !are_texts(modes) {
            return None;
        }
        Some(CellText {
            subject,
            object,
            modes,
        })
    }

    /// The cells of a list.
    ///
    /// # Errors
    /// `Members` where a value has not a cell's members, `Memory` where an allocation failed.
    pub(crate) fn read_all(alloc: Global, list: &'a [Value]) -> Result<Vec<CellText<'a>>, LoadFault>
        ensures ok { IfOk result (λ rows. each_of cell_of (map view list.now) ≡ Some (map cell_view rows.items)) }
        ensures fault { IfErr result
            (λ fault. fault ≢ LoadFault.Memory → (fault ≡ LoadFault.Members)
            × (each_of cell_of (map view list.now) ≡ None)) }
    {
        let mut rows = Vec::with_capacity(alloc, list.len())?;
        for value in list {
            let Some(row) = CellText::of(value) else {
                return Err(LoadFault::Members);
            };
            rows.push(row)?;
        }
        Ok(rows)
    }
}
