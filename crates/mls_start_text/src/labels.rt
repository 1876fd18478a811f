//! What the label texts of a start file mean.
ghost use Rattle.std.specs.Prelude.{◌≡◌, ◌≢◌, map, length, All, IfOk, IfErr, Some, None};
ghost use Rattle.mls_start_text.specs.Below.{HasParentBelow};
ghost use Rattle.mls_start_text.specs.Each.{each_of};
ghost use Rattle.mls_start_text.specs.Labelling.{label_in, labelled_subject, object_labels, labelled_child, labels_of};
ghost use Rattle.mls_start_text.specs.LabelViews.{labels_view};
ghost use Rattle.mls_start_text.specs.NameViews.{names_view};
ghost use Rattle.mls_start_text.specs.Views.{subject_view, object_view, child_view, file_view};

use crate::file_names::FileNames;
use crate::file_text::FileText;
use crate::load_fault::LoadFault;
use crate::object_text::{ChildText, ObjectText};
use crate::schemes::Schemes;
use crate::subject_text::SubjectText;
use mls_labels::{IntLabel, Label, NameSet, Scheme, SecLabel};
use mls_state::{ObjectLabels, Subject};
use std::alloc::Global;

/// An object below the root: the place of its parent, where its parent's name is an object's, and its labels.
#[derive(Clone, Copy)]
pub struct LabelledChild {
    pub parent: Option<usize>,
    pub labels: ObjectLabels,
}

/// The labels of a start file: the subjects, the root's labels, and the objects below it.
#[derive(Drop)]
pub struct FileLabels {
    pub subjects: Vec<Subject>,
    pub root: ObjectLabels,
    pub children: Vec<LabelledChild>,
}

/// The label that a text spells in a scheme.
fn read_label(scheme: &Scheme, text: &str) -> Option<Label>
    ensures { result ≡ label_in scheme.now text.now }
{
    scheme.read(text).ok()
}

/// A subject with its labels.
fn label_subject(schemes: &Schemes, subject: &SubjectText<'_>) -> Option<Subject>
    ensures { result ≡ labelled_subject schemes.now.security schemes.now.integrity (subject_view subject.now) }
{
    let maximum = read_label(&schemes.security, subject.maximum)?;
    let current = read_label(&schemes.security, subject.current)?;
    let integrity = read_label(&schemes.integrity, subject.integrity)?;
    Some(Subject {
        maximum: SecLabel::of(maximum),
        current: SecLabel::of(current),
        integrity: IntLabel::of(integrity),
        trusted: subject.trusted,
    })
}

/// An object's labels.
fn label_object(schemes: &Schemes, object: &ObjectText<'_>) -> Option<ObjectLabels>
    ensures { result ≡ object_labels schemes.now.security schemes.now.integrity (object_view object.now) }
{
    let security = read_label(&schemes.security, object.security)?;
    let integrity = read_label(&schemes.integrity, object.integrity)?;
    Some(ObjectLabels {
        security: SecLabel::of(security),
        integrity: IntLabel::of(integrity),
    })
}

/// An object below the root with its labels and its parent's place.
fn label_child(schemes: &Schemes, objects: &NameSet, child: &ChildText<'_>) -> Option<LabelledChild>
    ensures { result ≡ labelled_child schemes.now.security schemes.now.integrity objects.now (child_view child.now) }
{
    let labels = label_object(schemes, &child.object)?;
    let parent = objects.place(child.parent);
    Some(LabelledChild { parent, labels })
}

/// The subjects with their labels.
///
/// # Errors
/// `Label` where a text spells no label in its scheme, `Memory` where an allocation failed.
fn label_subjects(
    alloc: Global,
    schemes: &Schemes,
    subjects: &[SubjectText<'_>],
) -> Result<Vec<Subject>, LoadFault>
    ensures ok { IfOk result
        (λ rows. each_of (labelled_subject schemes.now.security schemes.now.integrity) (map subject_view subjects.now)
        ≡ Some rows.items) }
    ensures count { IfOk result (λ rows. length rows.items ≡ length subjects.now) }
    ensures fault { IfErr result
        (λ fault. fault ≢ LoadFault.Memory → (fault ≡ LoadFault.Label)
        × (each_of (labelled_subject schemes.now.security schemes.now.integrity) (map subject_view subjects.now)
        ≡ None)) }
{
    let mut rows = Vec::with_capacity(alloc, subjects.len())?;
    for subject in subjects {
        let Some(row) = label_subject(schemes, subject) else {
            return Err(LoadFault::Label);
        };
        rows.push(row)?;
    }
    Ok(rows)
}

/// The objects below the root with their labels and their parents' places.
///
/// # Errors
/// `Label` where a text spells no label in its scheme, `Memory` where an allocation failed.
fn label_children(
    alloc: Global,
    schemes: &Schemes,
    objects: &NameSet,
    children: &[ChildText<'_>],
) -> Result<Vec<LabelledChild>, LoadFault>
    ensures ok { IfOk result
        (λ rows. each_of (labelled_child schemes.now.security schemes.now.integrity objects.now)
        (map child_view children.now) ≡ Some rows.items) }
    ensures count { IfOk result (λ rows. length rows.items ≡ length children.now) }
    ensures parents { IfOk result (λ rows. All (HasParentBelow (length objects.now)) rows.items) }
    ensures fault { IfErr result
        (λ fault. fault ≢ LoadFault.Memory → (fault ≡ LoadFault.Label)
        × (each_of (labelled_child schemes.now.security schemes.now.integrity objects.now) (map child_view children.now)
        ≡ None)) }
{
    let mut rows = Vec::with_capacity(alloc, children.len())?;
    for child in children {
        let Some(row) = label_child(schemes, objects, child) else {
            return Err(LoadFault::Label);
        };
        rows.push(row)?;
    }
    Ok(rows)
}

impl FileLabels {
    /// The labels of a file, by its names: labels by its schemes, and the places of parents among its objects.
    ///
    /// # Errors
    /// `Label` where a text spells no label in its scheme, `Memory` where an allocation failed.
    pub fn read(
        alloc: Global,
        names: &FileNames,
        file: &FileText<'_>,
    ) -> Result<FileLabels, LoadFault>
        ensures ok { IfOk result
            (λ labels. labels_of (names_view names.now) (file_view file.now) ≡ Some (labels_view labels)) }
        ensures subjects { IfOk result (λ labels. length labels.subjects.items ≡ length file.now.subjects.items) }
        ensures children { IfOk result (λ labels. length labels.children.items ≡ length file.now.children.items) }
        ensures parents { IfOk result
            (λ labels. All (HasParentBelow (length names.now.sets.objects)) labels.children.items) }
        ensures fault { IfErr result
            (λ fault. fault ≢ LoadFault.Memory → (fault ≡ LoadFault.Label)
            × (labels_of (names_view names.now) (file_view file.now) ≡ None)) }
    {
        let schemes = &names.schemes;
        let Some(root) = label_object(schemes, &file.root) else {
            return Err(LoadFault::Label);
        };
        let subjects = label_subjects(alloc, schemes, &file.subjects)?;
        let children = label_children(alloc, schemes, &names.sets.objects, &file.children)?;
        Ok(FileLabels {
            subjects,
            root,
            children,
        })
    }
}
