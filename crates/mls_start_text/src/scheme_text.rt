//! A scheme's names, as the file has them.
ghost use Rattle.std.specs.Prelude.{◌≡◌, ◌≢◌, map, IfOk, IfErr, Some, None};
ghost use Rattle.serde_json.specs.View.{view};
ghost use Rattle.mls_start_text.specs.Looking.{texts_at};
ghost use Rattle.mls_start_text.specs.Texts.{scheme_of};
ghost use Rattle.mls_start_text.specs.Views.{scheme_view};

use crate::load_fault::LoadFault;
use crate::looking::{list_in, member_count};
use serde_json::Value;
use std::alloc::Global;

/// The names of a scheme's levels and categories.
#[derive(Drop)]
pub struct SchemeText<'a> {
    pub levels: Vec<&'a str>,
    pub categories: Vec<&'a str>,
}

/// The texts in a member that is a list of texts.
///
/// # Errors
/// `Members` where the member is not there or no such list, `Memory` where an allocation failed.
fn read_texts<'a>(alloc: Global, value: &'a Value, key: &str) -> Result<Vec<&'a str>, LoadFault>
    ensures ok { IfOk result (λ texts. texts_at key.now (view value.now) ≡ Some (map (λ text. text.now) texts.items)) }
    ensures fault { IfErr result
        (λ fault. fault ≢ LoadFault.Memory → (fault ≡ LoadFault.Members) × (texts_at key.now (view value.now) ≡ None)) }
{
    let Some(list) = list_in(value, key) else {
        return Err(LoadFault::Members);
    };
    let mut texts = Vec::with_capacity(alloc, list.len())?;
    for value in list {
        let Some(text) = value.as_str() else {
            return Err(LoadFault::Members);
        };
        texts.push(text)?;
    }
    Ok(texts)
}

impl SchemeText<'_> {
    /// The scheme of a value, where it has a scheme's members.
    ///
    /// # Errors
    /// `Members` where it has not, `Memory` where an allocation failed.
    pub(crate) fn read<'a>(alloc: Global, value: &'a Value) -> Result<SchemeText<'a>, LoadFault>
        ensures ok { IfOk result (λ text. scheme_of (view value.now) ≡ Some (scheme_view text)) }
        ensures fault { IfErr result
            (λ fault. fault ≢ LoadFault.Memory → (fault ≡ LoadFault.Members) × (scheme_of (view value.now) ≡ None)) }
    {
        if member_count(value) != 2 {
            return Err(LoadFault::Members);
        }
        let levels = read_texts(alloc, value, "levels")?;
        let categories = read_texts(alloc, value, "categories")?;
        Ok(SchemeText { levels, categories })
    }
}
