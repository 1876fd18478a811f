//! A subject, as the file has it.
ghost use Rattle.std.specs.Prelude.{◌≡◌, ◌≢◌, map, option_map, IfOk, IfErr, Some, None};
ghost use Rattle.serde_json.specs.View.{view};
ghost use Rattle.mls_start_text.specs.Each.{each_of};
ghost use Rattle.mls_start_text.specs.Texts.{subject_of};
ghost use Rattle.mls_start_text.specs.Views.{subject_view};

use crate::load_fault::LoadFault;
use crate::looking::{bool_in, member_count, text_in};
use serde_json::Value;
use std::alloc::Global;

/// A subject: its name, its labels' texts, and whether it is trusted.
#[derive(Clone, Copy)]
pub struct SubjectText<'a> {
    pub name: &'a str,
    pub maximum: &'a str,
    pub current: &'a str,
    pub integrity: &'a str,
    pub trusted: bool,
}

impl<'a> SubjectText<'a> {
    /// The subject of a value, where it has a subject's members.
    fn of(value: &'a Value) -> Option<SubjectText<'a>>
        ensures { option_map subject_view result ≡ subject_of (view value.now) }
    {
        if member_count(value) != 5 {
            return None;
        }
        Some(SubjectText {
            name: text_in(value, "name")?,
            maximum: text_in(value, "maximum")?,
            current: text_in(value, "current")?,
            integrity: text_in(value, "integrity")?,
            trusted: bool_in(value, "trusted")?,
        })
    }

    /// The subjects of a list.
    ///
    /// # Errors
    /// `Members` where a value has not a subject's members, `Memory` where an allocation failed.
    pub(crate) fn read_all(
        alloc: Global,
        list: &'a [Value],
    ) -> Result<Vec<SubjectText<'a>>, LoadFault>
        ensures ok { IfOk result (λ rows. each_of subject_of (map view list.now) ≡ Some (map subject_view rows.items)) }
        ensures fault { IfErr result
            (λ fault. fault ≢ LoadFault.Memory → (fault ≡ LoadFault.Members)
            × (each_of subject_of (map view list.now) ≡ None)) }
    {
        let mut rows = Vec::with_capacity(alloc, list.len())?;
        for value in list {
            let Some(row) = SubjectText::of(value) else {
                return Err(LoadFault::Members);
            };
            rows.push(row)?;
        }
        Ok(rows)
    }
}
