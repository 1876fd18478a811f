//! Where the start that a file says is refused.
ghost use Rattle.std.specs.Prelude.{◌≡◌, ◌++◌, [], codes, nat_lt, slice_get, Some, if◌then◌else◌, OnOk, IfOk, map};
ghost use Rattle.mls_facts.specs.Numbered.{holds_of};
ghost use Rattle.mls_labels.specs.Label.{dominates};
ghost use Rattle.mls_start_text.specs.Labelling.{labels_of};
ghost use Rattle.mls_start_text.specs.LabelViews.{labels_view};
ghost use Rattle.mls_start_text.specs.Naming.{names_of};
ghost use Rattle.mls_start_text.specs.Views.{file_view};
ghost use Rattle.mls_start_faults.specs.Starts.{parent_of, is_in_cycle, before_words, before_place, before_places};
ghost use Rattle.mls_start_faults.specs.Starts.{current_place, current_places, object_labels};
ghost use Rattle.mls_start_faults.specs.Starts.{parent_labels, security_place, security_places, integrity_place};
ghost use Rattle.mls_start_faults.specs.Starts.{integrity_places, labelled_places, by_labels, start_found};
ghost use Rattle.mls_start_faults.specs.Places.{located_view, located, on_list, on_member, place_view};

use crate::accesses::accesses_found;
use crate::labels::known_names;
use crate::place::Place;
use crate::place_row::PlaceRow;
use crate::writing::push_place;
use mls_start::StartFault;
use mls_start_text::{FileLabels, FileText, LabelledChild};
use mls_state::{ObjectLabels, Subject};
use std::alloc::{AllocError, Global};

/// Adds the place of a place where something isn't as it is to be.
fn push_unless(
    found: &mut Vec<PlaceRow>,
    is_right: bool,
    place: Place<'_>,
) -> Result<(), AllocError>
    ensures { OnOk result
        (map located_view found.new.items
        ≡ map located_view found.old.items ++ (if is_right then [] else located (place_view place.entry))) }
{
    if is_right {
        Ok(())
    } else {
        push_place(found, place)
    }
}

/// Whether a parent's place is before this one.
fn is_before(parent: Option<usize>, n: usize) -> bool
    ensures { result ≡ holds_of (λ p. nat_lt p n) parent }
{
    match parent {
        Some(parent) => parent < n,
        None => false,
    }
}

/// The place of the parent of the object of a number.
fn parent_of(labels: &FileLabels, n: usize) -> Option<usize>
    ensures { result ≡ parent_of (labels_view labels.now).children n }
{
    if n == 0 {
        return None;
    }
    let child = labels.children.get(n - 1)?;
    child.parent
}

/// Whether the parents from an object on lead back to it.
fn is_in_cycle(labels: &FileLabels, n: usize) -> bool
    ensures { result ≡ is_in_cycle (labels_view labels.now).children n }
{
    let mut next = parent_of(labels, n);
    let mut left = labels.children.len();
    while left > 0 {
        let Some(parent) = next else {
            return false;
        };
        if parent == n {
            return true;
        }
        next = parent_of(labels, parent);
        left -= 1;
    }
    false
}

/// What is wrong with a parent that isn't before an object.
fn before_words(is_in_cycle: bool) -> &'static str
    ensures { result.now ≡ before_words is_in_cycle }
{
    if is_in_cycle {
        "not before it, in a cycle"
    } else {
        "not before it"
    }
}

/// Adds the place of an object, as one that doesn't stand behind its parent.
fn push_late(found: &mut Vec<PlaceRow>, labels: &FileLabels, n: usize) -> Result<(), AllocError>
    ensures { OnOk result (map located_view found.new.items ≡ map located_view found.old.items
        ++ located (on_member (codes "objects") n (codes "parent")
        (before_words (is_in_cycle (labels_view labels.now).children n)))) }
{
    let words = before_words(is_in_cycle(labels, n));
    push_place(found, Place::member("objects", n, "parent", words))
}

/// Adds the place of an object that doesn't stand behind its parent.
fn push_parent(
    found: &mut Vec<PlaceRow>,
    labels: &FileLabels,
    n: usize,
    child: &LabelledChild,
) -> Result<(), AllocError>
    ensures { OnOk result
        (map located_view found.new.items
        ≡ map located_view found.old.items ++ before_place (labels_view labels.now).children n child.now) }
{
    if is_before(child.parent, n) {
        return Ok(());
    }
    push_late(found, labels, n)
}

/// Adds the places of objects that don't stand behind their parents.
fn push_before(found: &mut Vec<PlaceRow>, labels: &FileLabels) -> Result<(), AllocError>
    ensures { OnOk result
        (map located_view found.new.items
        ≡ map located_view found.old.items ++ before_places (labels_view labels.now)) }
{
    for (n, child) in labels.children.iter().enumerate() {
        push_parent(found, labels, n + 1, child)?;
    }
    Ok(())
}

/// Adds the place of a subject whose maximum label doesn't dominate its current label.
fn push_subject(found: &mut Vec<PlaceRow>, n: usize, subject: &Subject) -> Result<(), AllocError>
    ensures { OnOk result
        (map located_view found.new.items
        ≡ map located_view found.old.items ++ current_place n subject.now) }
{
    let words = "maximum does not dominate it";
    let place = Place::member("subjects", n, "current", words);
    push_unless(found, subject.maximum.dominates(&subject.current), place)
}

/// Adds the places of subjects whose maximum label doesn't dominate their current label.
fn push_current(found: &mut Vec<PlaceRow>, labels: &FileLabels) -> Result<(), AllocError>
    ensures { OnOk result
        (map located_view found.new.items
        ≡ map located_view found.old.items ++ current_places (labels_view labels.now)) }
{
    for (n, subject) in labels.subjects.iter().enumerate() {
        push_subject(found, n, subject)?;
    }
    Ok(())
}

/// The labels of the object of a number.
fn labels_at(labels: &FileLabels, n: usize) -> Option<ObjectLabels>
    ensures { result ≡ slice_get (object_labels (labels_view labels.now)) n }
{
    if n == 0 {
        return Some(labels.root);
    }
    let child = labels.children.get(n - 1)?;
    Some(child.labels)
}

/// The labels of an object's parent.
fn parent_labels(labels: &FileLabels, child: &LabelledChild) -> Option<ObjectLabels>
    ensures { result ≡ parent_labels (object_labels (labels_view labels.now)) child.now }
{
    labels_at(labels, child.parent?)
}

/// Whether an object's security label dominates its parent's.
fn is_compatible(labels: &FileLabels, child: &LabelledChild) -> bool
    ensures { result ≡ holds_of (λ p. dominates child.now.labels.security p.security)
        (parent_labels (object_labels (labels_view labels.now)) child.now) }
{
    match parent_labels(labels, child) {
        Some(parent) => child.labels.security.dominates(&parent.security),
        None => false,
    }
}

/// Whether the integrity label of an object's parent dominates its own.
fn is_trustworthy(labels: &FileLabels, child: &LabelledChild) -> bool
    ensures { result ≡ holds_of (λ p. dominates p.integrity child.now.labels.integrity)
        (parent_labels (object_labels (labels_view labels.now)) child.now) }
{
    match parent_labels(labels, child) {
        Some(parent) => parent.integrity.dominates(&child.labels.integrity),
        None => false,
    }
}

/// Adds the place of an object whose security label doesn't dominate its parent's.
fn push_incompatible(
    found: &mut Vec<PlaceRow>,
    labels: &FileLabels,
    n: usize,
    child: &LabelledChild,
) -> Result<(), AllocError>
    ensures { OnOk result
        (map located_view found.new.items
        ≡ map located_view found.old.items ++ security_place (object_labels (labels_view labels.now)) n child.now) }
{
    let words = "does not dominate the parent's";
    let place = Place::member("objects", n, "security", words);
    push_unless(found, is_compatible(labels, child), place)
}

/// Adds the place of an object whose integrity label its parent's doesn't dominate.
fn push_untrustworthy(
    found: &mut Vec<PlaceRow>,
    labels: &FileLabels,
    n: usize,
    child: &LabelledChild,
) -> Result<(), AllocError>
    ensures { OnOk result
        (map located_view found.new.items
        ≡ map located_view found.old.items ++ integrity_place (object_labels (labels_view labels.now)) n child.now) }
{
    let words = "the parent's does not dominate it";
    let place = Place::member("objects", n, "integrity", words);
    push_unless(found, is_trustworthy(labels, child), place)
}

/// Adds the places of objects whose security label doesn't dominate their parent's.
fn push_security(found: &mut Vec<PlaceRow>, labels: &FileLabels) -> Result<(), AllocError>
    ensures { OnOk result
        (map located_view found.new.items
        ≡ map located_view found.old.items ++ security_places (labels_view labels.now)) }
{
    for (n, child) in labels.children.iter().enumerate() {
        push_incompatible(found, labels, n + 1, child)?;
    }
    Ok(())
}

/// Adds the places of objects whose integrity label their parent's doesn't dominate.
fn push_integrity(found: &mut Vec<PlaceRow>, labels: &FileLabels) -> Result<(), AllocError>
    ensures { OnOk result
        (map located_view found.new.items
        ≡ map located_view found.old.items ++ integrity_places (labels_view labels.now)) }
{
    for (n, child) in labels.children.iter().enumerate() {
        push_untrustworthy(found, labels, n + 1, child)?;
    }
    Ok(())
}

/// Adds the places of a file by its labels, for a fault that speaks of these and of parents.
fn push_labelled(
    found: &mut Vec<PlaceRow>,
    fault: StartFault,
    labels: &FileLabels,
) -> Result<(), AllocError>
    ensures { OnOk result
        (map located_view found.new.items
        ≡ map located_view found.old.items ++ labelled_places fault (labels_view labels.now)) }
{
    match fault {
        StartFault::BadParent => push_before(found, labels),
        StartFault::CurrentAboveMaximum => push_current(found, labels),
        StartFault::NotCompatible => push_security(found, labels),
        StartFault::IntegrityAboveParent => push_integrity(found, labels),
        StartFault::NoSubjects
        | StartFault::TooManySubjects
        | StartFault::TooManyObjects
        | StartFault::BadLabel
        | StartFault::NoSuchCell
        | StartFault::NotSecure => Ok(()),
    }
}

/// The labels of a file whose names and labels aren't refused.
///
/// # Errors
/// `AllocError` where an allocation failed; also where the names or the labels are refused, which no caller's are.
fn known_labels(alloc: Global, file: &FileText<'_>) -> Result<FileLabels, AllocError>
    ensures { IfOk result
        (λ labels. labels_of (names_of (file_view file.now)) (file_view file.now) ≡ Some (labels_view labels)) }
{
    let names = known_names(alloc, file)?;
    let labels = FileLabels::read(alloc, &names, file);
    drop(names);
    labels.map_err(|_| AllocError)
}

/// The places of a file by its labels, for a fault that speaks of these and of parents.
fn labelled_found(
    alloc: Global,
    fault: StartFault,
    file: &FileText<'_>,
) -> Result<Vec<PlaceRow>, AllocError>
    ensures { IfOk result
        (λ found. map located_view found.items ≡ by_labels (labelled_places fault) (file_view file.now)) }
{
    let labels = known_labels(alloc, file)?;
    let mut found = Vec::new(alloc);
    let pushed = push_labelled(&mut found, fault, &labels);
    drop(labels);
    pushed?;
    Ok(found)
}

/// The place of a member of the file.
fn list_found(alloc: Global, list: &str, words: &'static str) -> Result<Vec<PlaceRow>, AllocError>
    ensures { IfOk result (λ found. map located_view found.items ≡ located (on_list list.now words.now)) }
{
    let mut found = Vec::new(alloc);
    push_place(&mut found, Place::list(list, words))?;
    Ok(found)
}

/// The places of a file for a fault that starts have.
pub(crate) fn start_found(
    alloc: Global,
    fault: StartFault,
    file: FileText<'_>,
) -> Result<Vec<PlaceRow>, AllocError>
    ensures { IfOk result (λ found. map located_view found.items ≡ start_found fault (file_view file.entry)) }
{
    match fault {
        StartFault::NoSubjects => list_found(alloc, "subjects", "no subject"),
        StartFault::TooManySubjects => list_found(alloc, "subjects", "more than 256"),
        StartFault::TooManyObjects => list_found(alloc, "objects", "more than 4096"),
        StartFault::NotSecure => accesses_found(alloc, file),
        fault => labelled_found(alloc, fault, &file),
    }
}
