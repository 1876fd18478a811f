//! Where a file has schemes that are refused.
ghost use Rattle.std.specs.Prelude.{◌≡◌, ◌++◌, [], map, length, nat_lt, if◌then◌else◌, OnOk, IfOk};
ghost use Rattle.mls_start_text.specs.Views.{scheme_view, file_view};
ghost use Rattle.mls_start_faults.specs.Each.{at_each};
ghost use Rattle.mls_start_faults.specs.NameFaults.{name_faults};
ghost use Rattle.mls_start_faults.specs.Naming.{bad_place, repeated_place, count_place, scheme_places, schemes_found};
ghost use Rattle.mls_start_faults.specs.Naming.{name_words};
ghost use Rattle.mls_start_faults.specs.Places.{located, located_view, on_name};

use crate::name_fault::{NameFault, name_faults};
use crate::place::Place;
use crate::place_row::PlaceRow;
use crate::writing::push_place;
use mls_labels::{MAX_CATEGORIES, MAX_LEVELS, SchemeFault};
use mls_start_text::{FileText, SchemeText};
use std::alloc::{AllocError, Global};

/// Adds the place of a name in a scheme that is no NAME.
fn push_bad(
    found: &mut Vec<PlaceRow>,
    scheme: &str,
    list: &str,
    k: usize,
    fault: Option<NameFault>,
) -> Result<(), AllocError>
    ensures { OnOk result
        (map located_view found.new.items
        ≡ map located_view found.old.items ++ bad_place scheme.now list.now k fault) }
{
    match fault {
        Some(NameFault::Bad) => push_place(found, Place::name(scheme, list, k, "bad name")),
        Some(NameFault::Repeated) | None => Ok(()),
    }
}

/// Adds the place of a name in a scheme, as one that stands before.
fn push_second(
    found: &mut Vec<PlaceRow>,
    scheme: &str,
    list: &str,
    k: usize,
) -> Result<(), AllocError>
    ensures { OnOk result (map located_view found.new.items ≡ map located_view found.old.items
        ++ located (on_name scheme.now list.now k (name_words NameFault.Repeated))) }
{
    push_place(found, Place::name(scheme, list, k, "repeated name"))
}

/// Adds the place of a NAME in a scheme that stands before in its list.
fn push_repeated(
    found: &mut Vec<PlaceRow>,
    scheme: &str,
    list: &str,
    k: usize,
    fault: Option<NameFault>,
) -> Result<(), AllocError>
    ensures { OnOk result
        (map located_view found.new.items
        ≡ map located_view found.old.items ++ repeated_place scheme.now list.now k fault) }
{
    match fault {
        Some(NameFault::Repeated) => push_second(found, scheme, list, k),
        Some(NameFault::Bad) | None => Ok(()),
    }
}

/// Adds the places of the names in a list of a scheme that are no NAMEs.
fn push_all_bad(
    alloc: Global,
    found: &mut Vec<PlaceRow>,
    scheme: &str,
    list: &str,
    names: &[&str],
) -> Result<(), AllocError>
    ensures { OnOk result
        (map located_view found.new.items
        ≡ map located_view found.old.items
        ++ at_each (bad_place scheme.now list.now) 0 (name_faults (map (λ name. name.now) names.now))) }
{
    let faults = name_faults(alloc, names)?;
    for (k, fault) in faults.iter().enumerate() {
        push_bad(found, scheme, list, k, *fault)?;
    }
    Ok(())
}

/// Adds the places of the NAMEs in a list of a scheme that stand before in it.
fn push_all_repeated(
    alloc: Global,
    found: &mut Vec<PlaceRow>,
    scheme: &str,
    list: &str,
    names: &[&str],
) -> Result<(), AllocError>
    ensures { OnOk result
        (map located_view found.new.items
        ≡ map located_view found.old.items
        ++ at_each (repeated_place scheme.now list.now) 0 (name_faults (map (λ name. name.now) names.now))) }
{
    let faults = name_faults(alloc, names)?;
    for (k, fault) in faults.iter().enumerate() {
        push_repeated(found, scheme, list, k, *fault)?;
    }
    Ok(())
}

/// Adds the place of a list of a scheme where there is something to be said of it.
fn push_count(
    found: &mut Vec<PlaceRow>,
    scheme: &str,
    list: &str,
    is_wrong: bool,
    words: &'static str,
) -> Result<(), AllocError>
    ensures { OnOk result
        (map located_view found.new.items
        ≡ map located_view found.old.items ++ (if is_wrong then count_place scheme.now list.now words.now else [])) }
{
    if is_wrong {
        push_place(found, Place::names(scheme, list, words))
    } else {
        Ok(())
    }
}

/// Adds the place of a list of a scheme that has more names than this.
#[tactic(auto, using(crate::proofs::NameLists::count_seen))]
fn push_many(
    found: &mut Vec<PlaceRow>,
    scheme: &str,
    list: &str,
    names: &[&str],
    most: usize,
    words: &'static str,
) -> Result<(), AllocError>
    ensures { OnOk result
        (map located_view found.new.items
        ≡ map located_view found.old.items
        ++ (if nat_lt most (length (map (λ name. name.now) names.now))
        then count_place scheme.now list.now words.now else [])) }
{
    push_count(found, scheme, list, names.len() > most, words)
}

/// Adds the places of a scheme for a fault that schemes have.
fn push_scheme(
    alloc: Global,
    found: &mut Vec<PlaceRow>,
    fault: SchemeFault,
    name: &str,
    scheme: &SchemeText<'_>,
) -> Result<(), AllocError>
    ensures { OnOk result
        (map located_view found.new.items
        ≡ map located_view found.old.items ++ scheme_places name.now fault (scheme_view scheme.now)) }
{
    let (levels, categories) = (&scheme.levels, &scheme.categories);
    match fault {
        SchemeFault::NoLevels => push_count(found, name, "levels", levels.len() == 0, "no level"),
        SchemeFault::TooManyLevels => {
            push_many(found, name, "levels", levels, MAX_LEVELS, "more than 16")
        }
        SchemeFault::TooManyCategories => {
            push_many(
                found,
                name,
                "categories",
                categories,
                MAX_CATEGORIES,
                "more than 256",
            )
        }
        SchemeFault::BadName => {
            push_all_bad(alloc, found, name, "levels", levels)?;
            push_all_bad(alloc, found, name, "categories", categories)
        }
        SchemeFault::RepeatedName => {
            push_all_repeated(alloc, found, name, "levels", levels)?;
            push_all_repeated(alloc, found, name, "categories", categories)
        }
        SchemeFault::Memory => Ok(()),
    }
}

/// The places of a file's schemes for a fault that schemes have.
pub(crate) fn schemes_found(
    alloc: Global,
    fault: SchemeFault,
    file: &FileText<'_>,
) -> Result<Vec<PlaceRow>, AllocError>
    ensures { IfOk result (λ found. map located_view found.items ≡ schemes_found fault (file_view file.now)) }
{
    let mut found = Vec::new(alloc);
    push_scheme(alloc, &mut found, fault, "security", &file.security)?;
    push_scheme(alloc, &mut found, fault, "integrity", &file.integrity)?;
    Ok(found)
}
