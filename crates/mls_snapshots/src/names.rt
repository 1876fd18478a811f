//! Whether the names of a start file are those that the objects of an order are to have.
ghost use Rattle.std.specs.Prelude.{◌≡◌, ℕ, IsTrue, IfOk, Some, option_map, slice_get, length, string_bytes};
ghost use Rattle.mls_snapshots.specs.Renaming.{numbered, comes_before, is_taken, IsFirstFree, IsNameOf, IsNamed};
ghost use Rattle.mls_snapshots.specs.Renaming.{AreRenamed};

use crate::schemes::are_same_schemes;
use mls_lines::Names;
use mls_tables::{ObjectId, SubjectId};
use mls_wording::push_number;
use std::alloc::{AllocError, Global};

/// Whether two texts are the same.
pub(crate) fn is_same_text(one: &str, other: &str) -> bool
    ensures same { IsTrue result → one.now ≡ other.now }
    ensures accepted { one.now ≡ other.now → IsTrue result }
{
    one == other
}

/// Whether two names are both there and the same, or both not there.
fn is_same_name(one: Option<&str>, other: Option<&str>) -> bool
    ensures { IsTrue result
        → option_map (λ name. name.now) other.entry ≡ option_map (λ name. name.now) one.entry }
{
    match one {
        Some(name) => match other {
            Some(same) => name == same,
            None => false,
        },
        None => other.is_none(),
    }
}

/// Whether the subjects have the same names.
fn are_same_subjects(a: &Names, b: &Names) -> bool
    ensures { IsTrue result → b.now.subjects ≡ a.now.subjects }
{
    for s in 0..u16::MAX {
        let one = a.subject_name(SubjectId::new(s));
        let other = b.subject_name(SubjectId::new(s));
        if !is_same_name(one, other) {
            return false;
        }
        if one.is_none() {
            return true;
        }
    }
    false
}

/// The name of a number.
fn numbered(alloc: Global, m: u16) -> Result<String, AllocError>
    ensures { IfOk result (λ name. string_bytes name ≡ numbered m) }
{
    let mut name = String::new(alloc);
    name.push_str("o")?;
    push_number(&mut name, u64::from(m))?;
    Ok(name)
}

/// Whether a place is there, and before another.
fn comes_before(k: u16, place: Option<ObjectId>) -> bool
    ensures { result ≡ comes_before k place }
{
    match place {
        Some(j) => j.number() < k,
        None => false,
    }
}

/// Whether a name is taken for the object at a place.
fn is_taken(old: &Names, new: &Names, k: u16, name: &str) -> bool
    ensures { result ≡ is_taken old.now.objects new.now.objects k name.now }
{
    old.object(name).is_some() || comes_before(k, new.object(name))
}

/// Whether a name is the first of those of numbers, from an object's number on, that isn't taken.
fn is_first_free(
    alloc: Global,
    old: &Names,
    new: &Names,
    k: u16,
    o: ObjectId,
    name: &str,
) -> Result<bool, AllocError>
    ensures { IfOk result
        (λ first. IsTrue first → IsFirstFree old.now.objects new.now.objects k o name.now) }
{
    for m in o.number()..u16::MAX {
        let candidate = numbered(alloc, m)?;
        if !is_taken(old, new, k, candidate.as_str()) {
            return Ok(name == candidate.as_str());
        }
    }
    Ok(false)
}

/// Whether the object at a place has the name there that it is to have.
fn is_named(
    alloc: Global,
    old: &Names,
    new: &Names,
    k: u16,
    o: ObjectId,
) -> Result<bool, AllocError>
    ensures { IfOk result (λ named. IsTrue named → IsNamed old.now.objects new.now.objects k o) }
{
    let Some(name) = new.object_name(ObjectId::new(k)) else {
        return Ok(false);
    };
    match old.object_name(o) {
        Some(given) => Ok(is_same_text(name, given)),
        None => is_first_free(alloc, old, new, k, o, name),
    }
}

/// Whether each object of an order has the name that it is to have.
fn are_named(
    alloc: Global,
    old: &Names,
    new: &Names,
    order: &[ObjectId],
) -> Result<bool, AllocError>
    ensures { IfOk result (λ named. IsTrue named
        → (k o : ℕ) → slice_get order.now k ≡ Some o → IsNamed old.now.objects new.now.objects k o) }
{
    for (k, o) in order.iter().enumerate() {
        if k > u16::MAX as usize {
            return Ok(false);
        }
        if !is_named(alloc, old, new, k as u16, *o)? {
            return Ok(false);
        }
    }
    Ok(true)
}

/// Whether names are others with the objects of an order, of which there are as many.
pub(crate) fn are_renamed(
    alloc: Global,
    old: &Names,
    new: &Names,
    order: &[ObjectId],
) -> Result<bool, AllocError>
    requires { length new.now.objects ≡ length order.now }
    ensures { IfOk result (λ renamed. IsTrue renamed → AreRenamed old.now new.now order.now) }
{
    if !are_same_subjects(old, new) {
        return Ok(false);
    }
    if !are_same_schemes(alloc, old.security(), new.security())? {
        return Ok(false);
    }
    if !are_same_schemes(alloc, old.integrity(), new.integrity())? {
        return Ok(false);
    }
    are_named(alloc, old, new, order)
}
