//! What stands in the members of an object of the tree.
ghost use Rattle.std.specs.Prelude.{◌≡◌, map, is_some, option_map};
ghost use Rattle.serde_json.specs.Find.{as_str};
ghost use Rattle.serde_json.specs.View.{view};
ghost use Rattle.mls_start_text.specs.Each.{each_of};
ghost use Rattle.mls_start_text.specs.Looking.{member_count, text_at, bool_at, is_null_at, has_member, number_at};
ghost use Rattle.mls_start_text.specs.Looking.{list_at};

use serde_json::Value;

/// How many members an object has; a value of another type has none.
pub(crate) fn member_count(value: &Value) -> usize
    ensures { result ≡ member_count (view value.now) }
{
    match value.as_object() {
        Some(members) => members.len(),
        None => 0,
    }
}

/// The text in a member.
pub(crate) fn text_in<'a>(value: &'a Value, key: &str) -> Option<&'a str>
    ensures { option_map (λ text. text.now) result ≡ text_at key.now (view value.now) }
{
    value.get(key)?.as_str()
}

/// The truth value in a member.
pub(crate) fn bool_in(value: &Value, key: &str) -> Option<bool>
    ensures { result ≡ bool_at key.now (view value.now) }
{
    value.get(key)?.as_bool()
}

/// Whether a member is there, and null.
pub(crate) fn is_null_in(value: &Value, key: &str) -> bool
    ensures { result ≡ is_null_at key.now (view value.now) }
{
    match value.get(key) {
        Some(member) => member.is_null(),
        None => false,
    }
}

/// Whether a member is there, whatever it is.
pub(crate) fn has_member(value: &Value, key: &str) -> bool
    ensures { result ≡ has_member key.now (view value.now) }
{
    value.get(key).is_some()
}

/// The whole number in a member, which is written without a point or an exponent.
pub(crate) fn number_in(value: &Value, key: &str) -> Option<u64>
    ensures { result ≡ number_at key.now (view value.now) }
{
    value.get(key)?.as_u64()
}

/// The list in a member.
pub(crate) fn list_in<'a>(value: &'a Value, key: &str) -> Option<&'a [Value]>
    ensures { option_map (λ list. map view list.now) result ≡ list_at key.now (view value.now) }
{
    Some(value.get(key)?.as_array()?.as_slice())
}

/// Whether each value of a list is a text.
pub(crate) fn are_texts(list: &[Value]) -> bool
    ensures { result ≡ is_some (each_of as_str (map view list.now)) }
{
    for value in list {
        if !value.is_string() {
            return false;
        }
    }
    true
}
