//! Where a file has label texts that are refused.
ghost use Rattle.std.specs.Prelude.{◌≡◌, ◌++◌, map, OnOk, IfOk};
ghost use Rattle.mls_start_text.specs.NameViews.{names_view};
ghost use Rattle.mls_start_text.specs.Naming.{names_of};
ghost use Rattle.mls_start_text.specs.Views.{subject_view, object_view, child_view, file_view};
ghost use Rattle.mls_start_faults.specs.Each.{at_each};
ghost use Rattle.mls_start_faults.specs.Labels.{label_words, label_place, subject_places, object_places, child_places};
ghost use Rattle.mls_start_faults.specs.Labels.{labels_found};
ghost use Rattle.mls_start_faults.specs.Places.{located_view};

use crate::place::Place;
use crate::place_row::PlaceRow;
use crate::writing::push_place;
use mls_labels::{LabelFault, Scheme};
use mls_start_text::{ChildText, FileNames, FileText, ObjectText, Schemes, SubjectText};
use std::alloc::{AllocError, Global};

/// The words for a label's fault.
fn label_words(fault: LabelFault) -> &'static str
    ensures { result.now ≡ label_words fault }
{
    match fault {
        LabelFault::BadForm => "bad form",
        LabelFault::UnknownLevel => "unknown level",
        LabelFault::UnknownCategory => "unknown category",
        LabelFault::RepeatedCategory => "repeated category",
    }
}

/// Adds the place of a member that is to be a label of a scheme, where it is refused.
fn push_label(
    found: &mut Vec<PlaceRow>,
    scheme: &Scheme,
    list: &str,
    n: usize,
    member: &str,
    label: &str,
) -> Result<(), AllocError>
    ensures { OnOk result
        (map located_view found.new.items
        ≡ map located_view found.old.items ++ label_place scheme.now list.now n member.now label.now) }
{
    match scheme.read(label) {
        Ok(_) => Ok(()),
        Err(fault) => push_place(found, Place::member(list, n, member, label_words(fault))),
    }
}

/// Adds the places of a subject's labels that are refused.
fn push_subject(
    found: &mut Vec<PlaceRow>,
    schemes: &Schemes,
    n: usize,
    subject: &SubjectText<'_>,
) -> Result<(), AllocError>
    ensures { OnOk result
        (map located_view found.new.items
        ≡ map located_view found.old.items
        ++ subject_places schemes.now.security schemes.now.integrity n (subject_view subject.now)) }
{
    let (security, integrity) = (&schemes.security, &schemes.integrity);
    push_label(found, security, "subjects", n, "maximum", subject.maximum)?;
    push_label(found, security, "subjects", n, "current", subject.current)?;
    push_label(
        found,
        integrity,
        "subjects",
        n,
        "integrity",
        subject.integrity,
    )
}

/// Adds the places of an object's labels that are refused.
fn push_object(
    found: &mut Vec<PlaceRow>,
    schemes: &Schemes,
    n: usize,
    object: &ObjectText<'_>,
) -> Result<(), AllocError>
    ensures { OnOk result
        (map located_view found.new.items
        ≡ map located_view found.old.items
        ++ object_places schemes.now.security schemes.now.integrity n (object_view object.now)) }
{
    push_label(
        found,
        &schemes.security,
        "objects",
        n,
        "security",
        object.security,
    )?;
    push_label(
        found,
        &schemes.integrity,
        "objects",
        n,
        "integrity",
        object.integrity,
    )
}

/// Adds the places of the labels of subjects.
fn push_subjects(
    found: &mut Vec<PlaceRow>,
    schemes: &Schemes,
    subjects: &[SubjectText<'_>],
) -> Result<(), AllocError>
    ensures { OnOk result
        (map located_view found.new.items
        ≡ map located_view found.old.items
        ++ at_each (subject_places schemes.now.security schemes.now.integrity) 0 (map subject_view subjects.now)) }
{
    for (n, subject) in subjects.iter().enumerate() {
        push_subject(found, schemes, n, subject)?;
    }
    Ok(())
}

/// Adds the places of the labels of objects below the root.
fn push_children(
    found: &mut Vec<PlaceRow>,
    schemes: &Schemes,
    children: &[ChildText<'_>],
) -> Result<(), AllocError>
    ensures { OnOk result
        (map located_view found.new.items
        ≡ map located_view found.old.items
        ++ at_each (child_places schemes.now.security schemes.now.integrity) 1 (map child_view children.now)) }
{
    for (n, child) in children.iter().enumerate() {
        push_object(found, schemes, n + 1, &child.object)?;
    }
    Ok(())
}

/// The places of a file's labels that these schemes refuse.
fn labels_by(
    alloc: Global,
    schemes: &Schemes,
    file: &FileText<'_>,
) -> Result<Vec<PlaceRow>, AllocError>
    requires security { schemes.now.security ≡ (file_view file.now).security }
    requires integrity { schemes.now.integrity ≡ (file_view file.now).integrity }
    ensures { IfOk result (λ found. map located_view found.items ≡ labels_found (file_view file.now)) }
{
    let mut found = Vec::new(alloc);
    push_subjects(&mut found, schemes, &file.subjects)?;
    push_object(&mut found, schemes, 0, &file.root)?;
    push_children(&mut found, schemes, &file.children)?;
    Ok(found)
}

/// The names in a file that aren't refused.
///
/// # Errors
/// `AllocError` where an allocation failed; also where the names are refused, which no caller's are.
pub(crate) fn known_names(alloc: Global, file: &FileText<'_>) -> Result<FileNames, AllocError>
    ensures { IfOk result (λ names. names_view names ≡ names_of (file_view file.now)) }
{
    FileNames::make(alloc, file).map_err(|_| AllocError)
}

/// The places of a file's labels that are refused.
///
/// # Errors
/// As `known_names`.
pub(crate) fn labels_found(alloc: Global, file: &FileText<'_>) -> Result<Vec<PlaceRow>, AllocError>
    ensures { IfOk result (λ found. map located_view found.items ≡ labels_found (file_view file.now)) }
{
    let names = known_names(alloc, file)?;
    let found = labels_by(alloc, &names.schemes, file);
    drop(names);
    found
}
