//! An object, as the file has it.
ghost use Rattle.std.specs.Prelude.{◌≡◌, ◌≢◌, map, option_map, IfOk, IfErr, Some, None};
ghost use Rattle.serde_json.specs.View.{view};
ghost use Rattle.mls_start_text.specs.Each.{each_of};
ghost use Rattle.mls_start_text.specs.Texts.{object_of, root_of, child_of};
ghost use Rattle.mls_start_text.specs.Views.{object_view, child_view};

use crate::load_fault::LoadFault;
use crate::looking::{is_null_in, member_count, text_in};
use serde_json::Value;
use std::alloc::Global;

/// An object, but for its parent: its name and its labels' texts.
#[derive(Clone, Copy)]
pub struct ObjectText<'a> {
    pub name: &'a str,
    pub security: &'a str,
    pub integrity: &'a str,
}

/// An object below the root, and its parent's name.
#[derive(Clone, Copy)]
pub struct ChildText<'a> {
    pub parent: &'a str,
    pub object: ObjectText<'a>,
}

impl<'a> ObjectText<'a> {
    /// The object of a value, where it has an object's members.
    fn of(value: &'a Value) -> Option<ObjectText<'a>>
        ensures { option_map object_view result ≡ object_of (view value.now) }
    {
        if member_count(value) != 4 {
            return None;
        }
        Some(ObjectText {
            name: text_in(value, "name")?,
            security: text_in(value, "security")?,
            integrity: text_in(value, "integrity")?,
        })
    }

    /// The root of a value, where it has the root's members.
    pub(crate) fn root(value: &'a Value) -> Option<ObjectText<'a>>
        ensures { option_map object_view result ≡ root_of (view value.now) }
    {
        if is_null_in(value, "parent") {
            ObjectText::of(value)
        } else {
            None
        }
    }
}

impl<'a> ChildText<'a> {
    /// The object below the root of a value, where it has the members of one.
    fn of(value: &'a Value) -> Option<ChildText<'a>>
        ensures { option_map child_view result ≡ child_of (view value.now) }
    {
        Some(ChildText {
            parent: text_in(value, "parent")?,
            object: ObjectText::of(value)?,
        })
    }

    /// The objects below the root of a list.
    ///
    /// # Errors
    /// `Members` where a value has not the members of one, `Memory` where an allocation failed.
    pub(crate) fn read_all(
        alloc: Global,
        list: &'a [Value],
    ) -> Result<Vec<ChildText<'a>>, LoadFault>
        ensures ok { IfOk result (λ rows. each_of child_of (map view list.now) ≡ Some (map child_view rows.items)) }
        ensures fault { IfErr result
            (λ fault. fault ≢ LoadFault.Memory → (fault ≡ LoadFault.Members)
            × (each_of child_of (map view list.now) ≡ None)) }
    {
        let mut rows = Vec::with_capacity(alloc, list.len())?;
        for value in list {
            let Some(row) = ChildText::of(value) else {
                return Err(LoadFault::Members);
            };
            rows.push(row)?;
        }
        Ok(rows)
    }
}
