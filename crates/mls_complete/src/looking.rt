//! What stands in the members of an object of the tree, some of which may be left out.
ghost use Rattle.std.specs.Prelude.{◌≡◌, map, is_some, option_map};
ghost use Rattle.serde_json.specs.Find.{as_str};
ghost use Rattle.serde_json.specs.View.{view};
ghost use Rattle.mls_start_text.specs.Each.{each_of};
ghost use Rattle.mls_start_text.specs.Looking.{member_count, text_at, has_member, number_at, list_at};
ghost use Rattle.mls_start_text.specs.Texts.{one_where};
ghost use Rattle.mls_complete.specs.Short.{text_or, bool_or, is_bare};

use serde_json::Value;

/// How many members an object has; a value of another type has none.
pub(crate) fn member_count(value: &Value) -> usize
    ensures { result ≡ member_count (view value.now) }
{
    match value.as_object() {
        Some(members) => members.len(),
        None => 0,
    }
}

/// Whether a member is there, whatever it is.
pub(crate) fn has_member(value: &Value, key: &str) -> bool
    ensures { result ≡ has_member key.now (view value.now) }
{
    value.get(key).is_some()
}

/// One for a member that is there.
pub(crate) fn one_where(value: &Value, key: &str) -> usize
    ensures { result ≡ one_where key.now (view value.now) }
{
    if has_member(value, key) { 1 } else { 0 }
}

/// The text in a member.
pub(crate) fn text_in<'a>(value: &'a Value, key: &str) -> Option<&'a str>
    ensures { option_map (λ text. text.now) result ≡ text_at key.now (view value.now) }
{
    value.get(key)?.as_str()
}

/// The text in a member, another where the member isn't there.
pub(crate) fn text_or<'a>(value: &'a Value, key: &str, other: &'a str) -> Option<&'a str>
    ensures { option_map (λ text. text.now) result ≡ text_or key.now other.now (view value.now) }
{
    match value.get(key) {
        Some(member) => member.as_str(),
        None => Some(other),
    }
}

/// The truth value in a member, another where the member isn't there.
pub(crate) fn bool_or(value: &Value, key: &str, other: bool) -> Option<bool>
    ensures { result ≡ bool_or key.now other (view value.now) }
{
    match value.get(key) {
        Some(member) => member.as_bool(),
        None => Some(other),
    }
}

/// Whether an object tells no parent: the member isn't there, or null.
pub(crate) fn is_bare(value: &Value) -> bool
    ensures { result ≡ is_bare (view value.now) }
{
    match value.get("parent") {
        Some(member) => member.is_null(),
        None => true,
    }
}

/// The whole number in a member, which is written without a point or an exponent.
pub(crate) fn number_in(value: &Value, key: &str) -> Option<u64>
    ensures { result ≡ number_at key.now (view value.now) }
{
    value.get(key)?.as_u64()
}

/// The list in a member.
pub(crate) fn list_in<'a>(value: &'a Value, key: &str) -> Option<&'a [Value]>
    ensures { option_map (λ list. map view list.now) result ≡ list_at key.now (view value.now) }
{
    Some(value.get(key)?.as_array()?.as_slice())
}

/// Whether each value of a list is a text.
pub(crate) fn are_texts(list: &[Value]) -> bool
    ensures { result ≡ is_some (each_of as_str (map view list.now)) }
{
    for value in list {
        if !value.is_string() {
            return false;
        }
    }
    true
}
