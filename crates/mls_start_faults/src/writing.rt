//! The JSON pointer to a place.
ghost use Rattle.std.specs.Prelude.{◌≡◌, ◌<◌, ◌++◌, ◌∷◌, map, string_bytes, IfOk, OnOk};
ghost use Rattle.std.specs.List.{flat_map};
ghost use Rattle.mls_start_faults.specs.Places.{key, number, byte_text, hex_digit, hex_text, step_text, pointer};
ghost use Rattle.mls_start_faults.specs.Places.{key_steps, number_steps, place_view, is_plain, located, located_view};

use crate::place::Place;
use crate::place_row::{PlaceRow, push_row};
use mls_wording::push_number;
use std::alloc::{AllocError, Global};

/// A hexadecimal digit.
fn hex_digit(number: u8) -> char
    requires { number < 16 }
    ensures digit { result ≡ hex_digit number }
    ensures ascii { result < 128 }
{
    if number < 10 {
        char::from(b'0' + number)
    } else {
        char::from(b'a' - 10 + number)
    }
}

/// Appends a byte by its hexadecimal digits.
fn push_hex(text: &mut String, byte: u8) -> Result<(), AllocError>
    ensures { OnOk result (string_bytes text.new ≡ string_bytes text.old ++ hex_text byte) }
{
    text.push_str("\\x")?;
    text.push(hex_digit(byte / 16))?;
    text.push(hex_digit(byte % 16))?;
    Ok(())
}

/// Whether a byte of a key stands for itself.
fn is_plain(byte: u8) -> bool
    ensures { result ≡ is_plain byte }
{
    32 < byte && (byte < 127 && byte != b'\\')
}

/// Appends a byte of a key.
fn push_byte(text: &mut String, byte: u8) -> Result<(), AllocError>
    ensures { OnOk result (string_bytes text.new ≡ string_bytes text.old ++ byte_text byte) }
{
    if byte == b'~' {
        text.push_str("~0")
    } else if byte == b'/' {
        text.push_str("~1")
    } else if is_plain(byte) {
        text.push(char::from(byte))
    } else {
        push_hex(text, byte)
    }
}

/// Appends the step to a member.
fn push_key(text: &mut String, member: &str) -> Result<(), AllocError>
    ensures { OnOk result (string_bytes text.new ≡ string_bytes text.old ++ step_text (key member.now)) }
{
    text.push_str("/")?;
    for byte in member.as_bytes() {
        push_byte(text, *byte)?;
    }
    Ok(())
}

/// Appends the step to an item.
fn push_item(text: &mut String, item: usize) -> Result<(), AllocError>
    ensures { OnOk result (string_bytes text.new ≡ string_bytes text.old ++ step_text (number item)) }
{
    text.push_str("/")?;
    push_number(text, item as u64)
}

/// Appends the step to a member, where there is one.
fn push_some_key(text: &mut String, member: Option<&str>) -> Result<(), AllocError>
    ensures { OnOk result
        (string_bytes text.new ≡ string_bytes text.old ++ flat_map step_text (key_steps member.entry)) }
{
    match member {
        Some(member) => push_key(text, member),
        None => Ok(()),
    }
}

/// Appends the step to an item, where there is one.
fn push_some_item(text: &mut String, item: Option<usize>) -> Result<(), AllocError>
    ensures { OnOk result (string_bytes text.new ≡ string_bytes text.old ++ flat_map step_text (number_steps item)) }
{
    match item {
        Some(item) => push_item(text, item),
        None => Ok(()),
    }
}

/// Appends the pointer to a place.
fn push_pointer(text: &mut String, place: Place<'_>) -> Result<(), AllocError>
    ensures { OnOk result
        (string_bytes text.new ≡ string_bytes text.old ++ pointer (place_view place.entry).0) }
{
    push_key(text, place.list)?;
    push_some_item(text, place.row)?;
    push_some_key(text, place.spot.member)?;
    push_some_item(text, place.spot.item)
}

/// The pointer to a place.
fn pointer_to(alloc: Global, place: Place<'_>) -> Result<String, AllocError>
    ensures { IfOk result (λ text. string_bytes text ≡ pointer (place_view place.entry).0) }
{
    let mut text = String::new(alloc);
    push_pointer(&mut text, place)?;
    Ok(text)
}

/// Adds a place.
pub(crate) fn push_place(found: &mut Vec<PlaceRow>, place: Place<'_>) -> Result<(), AllocError>
    ensures { OnOk result (map located_view found.new.items
        ≡ map located_view found.old.items ++ located (place_view place.entry)) }
{
    let words = place.spot.words;
    let pointer = pointer_to(*found.allocator(), place)?;
    push_row(found, pointer, words)
}
