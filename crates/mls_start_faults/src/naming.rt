//! Where a file has names of subjects or objects that are refused.
ghost use Rattle.std.specs.Prelude.{◌≡◌, ◌++◌, map, codes, OnOk, IfOk};
ghost use Rattle.mls_start_text.specs.Texts.{subject_names, object_names};
ghost use Rattle.mls_start_text.specs.Views.{file_view};
ghost use Rattle.mls_start_faults.specs.Naming.{name_words, name_place, name_places, names_found};
ghost use Rattle.mls_start_faults.specs.Places.{located_view};

use crate::name_fault::{NameFault, name_faults};
use crate::place::Place;
use crate::place_row::PlaceRow;
use crate::writing::push_place;
use mls_start_text::FileText;
use std::alloc::{AllocError, Global};

/// The words for what is wrong with a name.
fn name_words(fault: NameFault) -> &'static str
    ensures { result.now ≡ name_words fault }
{
    match fault {
        NameFault::Bad => "bad name",
        NameFault::Repeated => "repeated name",
    }
}

/// Adds the place of a subject or an object whose name is refused.
fn push_name(
    found: &mut Vec<PlaceRow>,
    list: &str,
    n: usize,
    fault: Option<NameFault>,
) -> Result<(), AllocError>
    ensures { OnOk result
        (map located_view found.new.items
        ≡ map located_view found.old.items ++ name_place list.now n fault) }
{
    match fault {
        Some(fault) => push_place(found, Place::member(list, n, "name", name_words(fault))),
        None => Ok(()),
    }
}

/// Adds the places of the names that are refused in a list.
fn push_names(
    alloc: Global,
    found: &mut Vec<PlaceRow>,
    list: &str,
    names: &[&str],
) -> Result<(), AllocError>
    ensures { OnOk result
        (map located_view found.new.items
        ≡ map located_view found.old.items ++ name_places list.now (map (λ name. name.now) names.now)) }
{
    let faults = name_faults(alloc, names)?;
    for (n, fault) in faults.iter().enumerate() {
        push_name(found, list, n, *fault)?;
    }
    Ok(())
}

/// Adds the places of the subjects' names that are refused.
fn push_subject_names(
    alloc: Global,
    found: &mut Vec<PlaceRow>,
    file: &FileText<'_>,
) -> Result<(), AllocError>
    ensures { OnOk result
        (map located_view found.new.items
        ≡ map located_view found.old.items ++ name_places (codes "subjects") (subject_names (file_view file.now))) }
{
    let names = file.subject_names(alloc)?;
    push_names(alloc, found, "subjects", &names)
}

/// Adds the places of the objects' names that are refused.
fn push_object_names(
    alloc: Global,
    found: &mut Vec<PlaceRow>,
    file: &FileText<'_>,
) -> Result<(), AllocError>
    ensures { OnOk result
        (map located_view found.new.items
        ≡ map located_view found.old.items ++ name_places (codes "objects") (object_names (file_view file.now))) }
{
    let names = file.object_names(alloc)?;
    push_names(alloc, found, "objects", &names)
}

/// The places of a file's names that are refused.
pub(crate) fn names_found(alloc: Global, file: &FileText<'_>) -> Result<Vec<PlaceRow>, AllocError>
    ensures { IfOk result (λ found. map located_view found.items ≡ names_found (file_view file.now)) }
{
    let mut found = Vec::new(alloc);
    push_subject_names(alloc, &mut found, file)?;
    push_object_names(alloc, &mut found, file)?;
    Ok(found)
}
