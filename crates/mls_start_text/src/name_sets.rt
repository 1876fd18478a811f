//! The names of a start file's subjects and objects.
ghost use Rattle.std.specs.Prelude.{◌≡◌, ◌≢◌, true, false, map, IfOk, IfErr, OnOk};
ghost use Rattle.std.specs.List.{list_all};
ghost use Rattle.mls_labels.specs.Names.{is_name};
ghost use Rattle.mls_start_text.specs.Naming.{are_names, names_fit};
ghost use Rattle.mls_start_text.specs.Texts.{subject_names, object_names};
ghost use Rattle.mls_start_text.specs.Views.{file_view};

use crate::file_text::FileText;
use crate::load_fault::LoadFault;
use mls_labels::{NameSet, NameSetFault, is_name};
use std::alloc::Global;

/// The names of the subjects and of the objects, whose places are their numbers.
#[derive(Drop)]
pub struct NameSets {
    pub subjects: NameSet,
    pub objects: NameSet,
}

/// Whether each of the texts is a name.
fn are_all_names(texts: &[&str]) -> bool
    ensures { result ≡ list_all is_name (map (λ text. text.now) texts.now) }
{
    for text in texts {
        if !is_name(text.as_bytes()) {
            return false;
        }
    }
    true
}

/// The set of these names.
///
/// # Errors
/// `Name` where one isn't a name or stands twice, `Memory` where an allocation failed.
fn make_set(alloc: Global, names: &[&str]) -> Result<NameSet, LoadFault>
    ensures ok { IfOk result (λ set. set ≡ map (λ name. name.now) names.now) }
    ensures fit { OnOk result (are_names (map (λ name. name.now) names.now) ≡ true) }
    ensures fault { IfErr result
        (λ fault. fault ≢ LoadFault.Memory → (fault ≡ LoadFault.Name)
        × (are_names (map (λ name. name.now) names.now) ≡ false)) }
{
    if !are_all_names(names) {
        return Err(LoadFault::Name);
    }
    match NameSet::from_names(alloc, names) {
        Ok(set) => Ok(set),
        Err(NameSetFault::Repeated) => Err(LoadFault::Name),
        Err(NameSetFault::Memory) => Err(LoadFault::Memory),
    }
}

/// The set of the subjects' names.
///
/// # Errors
/// `Name` where one isn't a name or stands twice, `Memory` where an allocation failed.
fn subject_set(alloc: Global, file: &FileText<'_>) -> Result<NameSet, LoadFault>
    ensures ok { IfOk result (λ set. set ≡ subject_names (file_view file.now)) }
    ensures fit { OnOk result (are_names (subject_names (file_view file.now)) ≡ true) }
    ensures fault { IfErr result
        (λ fault. fault ≢ LoadFault.Memory → (fault ≡ LoadFault.Name)
        × (are_names (subject_names (file_view file.now)) ≡ false)) }
{
    let names = file.subject_names(alloc)?;
    let set = make_set(alloc, &names);
    drop(names);
    set
}

/// The set of the objects' names.
///
/// # Errors
/// `Name` where one isn't a name or stands twice, `Memory` where an allocation failed.
fn object_set(alloc: Global, file: &FileText<'_>) -> Result<NameSet, LoadFault>
    ensures ok { IfOk result (λ set. set ≡ object_names (file_view file.now)) }
    ensures fit { OnOk result (are_names (object_names (file_view file.now)) ≡ true) }
    ensures fault { IfErr result
        (λ fault. fault ≢ LoadFault.Memory → (fault ≡ LoadFault.Name)
        × (are_names (object_names (file_view file.now)) ≡ false)) }
{
    let names = file.object_names(alloc)?;
    let set = make_set(alloc, &names);
    drop(names);
    set
}

impl NameSets {
    /// The names of a file's subjects and objects.
    ///
    /// # Errors
    /// `Name` where one isn't a name, or two subjects or two objects have one name; `Memory` where an allocation
    /// failed.
    pub(crate) fn make(alloc: Global, file: &FileText<'_>) -> Result<NameSets, LoadFault>
        ensures subjects { IfOk result (λ names. names.subjects ≡ subject_names (file_view file.now)) }
        ensures objects { IfOk result (λ names. names.objects ≡ object_names (file_view file.now)) }
        ensures fit { OnOk result (names_fit (file_view file.now) ≡ true) }
        ensures fault { IfErr result
            (λ fault. fault ≢ LoadFault.Memory → (fault ≡ LoadFault.Name) × (names_fit (file_view file.now) ≡ false)) }
    {
        let subjects = subject_set(alloc, file)?;
        match object_set(alloc, file) {
            Ok(objects) => Ok(NameSets { subjects, objects }),
            Err(fault) => {
                drop(subjects);
                Err(fault)
            }
        }
    }
}
