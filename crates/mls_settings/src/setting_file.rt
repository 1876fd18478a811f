//! A start file as settings have it.
ghost use Rattle.std.specs.Prelude.{◌≡◌, ◌≢◌, map, IfErr, IfOk, Err, Ok};
ghost use Rattle.std.specs.List.{list_any};
ghost use Rattle.std.specs.Str.{bytes_eq};
ghost use Rattle.serde_json.specs.View.{view};
ghost use Rattle.mls_settings.specs.Settings.{RefusesSet, SaysSet, is_of_subject, load_set, object_with};
ghost use Rattle.mls_settings.specs.Settings.{set_all, set_child, set_file, set_object, set_subject, subject_with};
ghost use Rattle.mls_start_text.specs.Views.{child_view, file_view, object_view, subject_view};

use crate::setting::{Member, Setting};
use mls_start_file::{LoadFault, Loaded, load_file};
use mls_start_text::{ChildText, FileText, ObjectText, SubjectText, read_tree};
use serde_json::Value;
use std::alloc::{AllocError, Global};

/// A subject with a member set to a text.
fn subject_with<'a>(subject: SubjectText<'a>, member: Member, value: &'a str) -> SubjectText<'a>
    ensures { subject_view result ≡ subject_with member value.now (subject_view subject.entry) }
{
    let mut set = subject;
    match member {
        Member::Maximum => set.maximum = value,
        Member::Current => set.current = value,
        Member::Integrity => set.integrity = value,
        Member::Trusted => set.trusted = value == "true",
        Member::Security => {}
    }
    set
}

/// An object with a member set to a text.
fn object_with<'a>(object: ObjectText<'a>, member: Member, value: &'a str) -> ObjectText<'a>
    ensures { object_view result ≡ object_with member value.now (object_view object.entry) }
{
    let mut set = object;
    match member {
        Member::Integrity => set.integrity = value,
        Member::Security => set.security = value,
        Member::Maximum | Member::Current | Member::Trusted => {}
    }
    set
}

/// A subject as a setting has it, where it is the one of the setting's name.
fn set_subject<'a>(subject: SubjectText<'a>, setting: &Setting<'a>) -> SubjectText<'a>
    ensures { subject_view result ≡ set_subject setting.now (subject_view subject.entry) }
{
    if subject.name == setting.name {
        subject_with(subject, setting.member, setting.value)
    } else {
        subject
    }
}

/// An object as a setting has it, where it is the one of the setting's name.
fn set_object<'a>(object: ObjectText<'a>, setting: &Setting<'a>) -> ObjectText<'a>
    ensures { object_view result ≡ set_object setting.now (object_view object.entry) }
{
    if object.name == setting.name {
        object_with(object, setting.member, setting.value)
    } else {
        object
    }
}

/// Subjects as a setting has them.
fn set_subjects<'a>(
    alloc: Global,
    subjects: &[SubjectText<'a>],
    setting: &Setting<'a>,
) -> Result<Vec<SubjectText<'a>>, AllocError>
    ensures { IfOk result (λ set. map subject_view set.items
        ≡ map (set_subject setting.now) (map subject_view subjects.now)) }
{
    let mut set = Vec::new(alloc);
    for subject in subjects {
        set.push(set_subject(*subject, setting))?;
    }
    Ok(set)
}

/// An object below the root as a setting has it.
fn set_child<'a>(child: ChildText<'a>, setting: &Setting<'a>) -> ChildText<'a>
    ensures { child_view result ≡ set_child setting.now (child_view child.entry) }
{
    ChildText {
        parent: child.parent,
        object: set_object(child.object, setting),
    }
}

/// Objects below the root as a setting has them.
fn set_children<'a>(
    alloc: Global,
    children: &[ChildText<'a>],
    setting: &Setting<'a>,
) -> Result<Vec<ChildText<'a>>, AllocError>
    ensures { IfOk result (λ set. map child_view set.items
        ≡ map (set_child setting.now) (map child_view children.now)) }
{
    let mut set = Vec::new(alloc);
    for child in children {
        set.push(set_child(*child, setting))?;
    }
    Ok(set)
}

/// Whether one of some subjects has a name.
fn has_subject(subjects: &[SubjectText<'_>], name: &str) -> bool
    ensures { result ≡ list_any (λ s. bytes_eq s.name name.now) (map subject_view subjects.now) }
{
    for subject in subjects {
        if subject.name == name {
            return true;
        }
    }
    false
}

/// Whether a setting is of a subject of a file.
fn is_of_subject(file: &FileText<'_>, setting: &Setting<'_>) -> bool
    ensures { result ≡ is_of_subject (file_view file.now) setting.now.member setting.now.name.now }
{
    match setting.member {
        Member::Maximum | Member::Current | Member::Trusted => true,
        Member::Integrity => has_subject(&file.subjects, setting.name),
        Member::Security => false,
    }
}

/// A file with other subjects.
fn with_subjects<'a>(file: FileText<'a>, set: Vec<SubjectText<'a>>) -> FileText<'a>
    ensures { file_view result ≡ record (file_view file.entry) { subjects = map subject_view set.entry.items } }
{
    let FileText {
        profile,
        security,
        integrity,
        subjects,
        root,
        children,
        cells,
        accesses,
    } = file;
    drop(subjects);
    FileText {
        profile,
        security,
        integrity,
        subjects: set,
        root,
        children,
        cells,
        accesses,
    }
}

/// A file with another root and other objects below it.
fn with_objects<'a>(
    file: FileText<'a>,
    top: ObjectText<'a>,
    set: Vec<ChildText<'a>>,
) -> FileText<'a>
    ensures { file_view result
        ≡ record (file_view file.entry) { root = object_view top.entry; children = map child_view set.entry.items } }
{
    let FileText {
        profile,
        security,
        integrity,
        subjects,
        root: _,
        children,
        cells,
        accesses,
    } = file;
    drop(children);
    FileText {
        profile,
        security,
        integrity,
        subjects,
        root: top,
        children: set,
        cells,
        accesses,
    }
}

/// A file as a setting has it.
fn set_file<'a>(
    alloc: Global,
    file: FileText<'a>,
    setting: &Setting<'a>,
) -> Result<FileText<'a>, AllocError>
    ensures { IfOk result (λ set. file_view set ≡ set_file (file_view file.entry) setting.now) }
{
    if is_of_subject(&file, setting) {
        let subjects = set_subjects(alloc, &file.subjects, setting)?;
        return Ok(with_subjects(file, subjects));
    }
    let root = set_object(file.root, setting);
    let children = set_children(alloc, &file.children, setting)?;
    Ok(with_objects(file, root, children))
}

/// A file as settings have it, one after the other.
fn set_all<'a>(
    alloc: Global,
    file: FileText<'a>,
    settings: &[Setting<'a>],
) -> Result<FileText<'a>, AllocError>
    ensures { IfOk result (λ set. file_view set ≡ set_all (file_view file.entry) settings.now) }
{
    let mut set = file;
    for setting in settings {
        set = set_file(alloc, set, setting)?;
    }
    Ok(set)
}

/// The start of a tree as settings have it.
fn load_tree(alloc: Global, tree: &Value, settings: &[Setting<'_>]) -> Result<Loaded, LoadFault>
    ensures ok { IfOk result (λ loaded. load_set settings.now (view tree.now) ≡ Ok loaded) }
    ensures fault { IfErr result
        (λ fault. fault ≢ LoadFault.Memory → load_set settings.now (view tree.now) ≡ Err fault) }
{
    let file = FileText::read(alloc, tree)?;
    let set = set_all(alloc, file, settings)?;
    let loaded = load_file(alloc, &set);
    drop(set);
    loaded
}

/// The start that the bytes of a start file say as settings have it, and its names.
///
/// # Errors
/// The first fault of the file as the settings have it; `Memory` as soon as an allocation fails.
pub fn load_set(alloc: Global, bytes: &[u8], settings: &[Setting<'_>]) -> Result<Loaded, LoadFault>
    ensures ok { IfOk result (λ loaded. SaysSet bytes.now settings.now loaded) }
    ensures fault { IfErr result (λ fault. fault ≢ LoadFault.Memory → RefusesSet bytes.now settings.now fault) }
{
    let tree = read_tree(alloc, bytes)?;
    let loaded = load_tree(alloc, &tree, settings);
    drop(tree);
    loaded
}
