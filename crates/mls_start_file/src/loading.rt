//! Reading a start file, phase by phase over the whole of it.
ghost use Rattle.std.specs.Prelude.{◌≡◌, ◌≢◌, ◌+◌, ◌≤◌, length, All, IfOk, IfErr, OnOk, Ok, Err};
ghost use Rattle.mls_tables.specs.declared.limits.TheConstants.{MAX_SUBJECTS, MAX_OBJECTS};
ghost use Rattle.serde_json.specs.Data.{Data};
ghost use Rattle.serde_json.specs.View.{view};
ghost use Rattle.mls_start_text.specs.Below.{HasParentBelow};
ghost use Rattle.mls_start_text.specs.LabelViews.{labels_view};
ghost use Rattle.mls_start_file.specs.Loading.{start_labelled, start_named, load_of_file, load_of};
ghost use Rattle.mls_start_text.specs.NameViews.{names_view};
ghost use Rattle.mls_start_text.specs.Looking.{IsReadAs};
ghost use Rattle.mls_start_file.specs.Says.{RefusesStart};
ghost use Rattle.mls_start_file.specs.Ties.{AreTied};
ghost use Rattle.mls_start_text.specs.Views.{file_view};

use crate::building::build;
use crate::loaded::Loaded;
use mls_start::Start;
use mls_start_text::{FileLabels, FileNames, FilePlaces, FileText, LoadFault, read_tree};
use serde_json::Value;
use std::alloc::Global;

/// The start of a file of these names, with its labels.
///
/// # Errors
/// `Unknown` where a name or a mode's word is unknown, `Start` with the first fault of the start, `Memory` where an
/// allocation failed.
fn place_start(
    alloc: Global,
    names: &FileNames,
    labels: &FileLabels,
    file: &FileText<'_>,
) -> Result<Start, LoadFault>
    requires subjects { length names.now.sets.subjects ≡ length labels.now.subjects.items }
    requires objects { length names.now.sets.objects ≡ 1 + length labels.now.children.items }
    requires parents { All (HasParentBelow (length names.now.sets.objects)) labels.now.children.items }
    ensures ok { IfOk result
        (λ start. start_labelled (names_view names.now) (file_view file.now) (labels_view labels.now) ≡ Ok start) }
    ensures tied { IfOk result (AreTied (names_view names.now)) }
    ensures few { OnOk result
        ((length names.now.sets.subjects ≤ MAX_SUBJECTS) × (length names.now.sets.objects ≤ MAX_OBJECTS)) }
    ensures fault { IfErr result
        (λ fault. fault ≢ LoadFault.Memory
        → start_labelled (names_view names.now) (file_view file.now) (labels_view labels.now) ≡ Err fault) }
{
    let places = FilePlaces::read(alloc, names, file)?;
    let start = build(alloc, names, labels, &places);
    drop(places);
    start
}

/// The start of a file of these names.
///
/// # Errors
/// `Label` where a text spells no label in its scheme, and those of `place_start`.
fn label_start(alloc: Global, names: &FileNames, file: &FileText<'_>) -> Result<Start, LoadFault>
    requires subjects { length names.now.sets.subjects ≡ length file.now.subjects.items }
    requires objects { length names.now.sets.objects ≡ 1 + length file.now.children.items }
    ensures ok { IfOk result (λ start. start_named (names_view names.now) (file_view file.now) ≡ Ok start) }
    ensures tied { IfOk result (AreTied (names_view names.now)) }
    ensures few { OnOk result
        ((length names.now.sets.subjects ≤ MAX_SUBJECTS) × (length names.now.sets.objects ≤ MAX_OBJECTS)) }
    ensures fault { IfErr result
        (λ fault. fault ≢ LoadFault.Memory → start_named (names_view names.now) (file_view file.now) ≡ Err fault) }
{
    let labels = FileLabels::read(alloc, names, file)?;
    let start = place_start(alloc, names, &labels, file);
    drop(labels);
    start
}

/// The names and the start of a file.
///
/// # Errors
/// The first of these that applies to any part of the file: `Scheme` where a scheme is refused, `Name` where a name
/// isn't one or stands twice, `Label` where a text spells no label in its scheme, `Unknown` where a name or a mode's
/// word is unknown, `Start` with the first fault of the start; `Memory` as soon as an allocation fails.
pub fn load_file(alloc: Global, file: &FileText<'_>) -> Result<Loaded, LoadFault>
    ensures ok { IfOk result (λ loaded. load_of_file (file_view file.now) ≡ Ok loaded) }
    ensures fault { IfErr result (λ fault. fault ≢ LoadFault.Memory → load_of_file (file_view file.now) ≡ Err fault) }
{
    let names = FileNames::make(alloc, file)?;
    match label_start(alloc, &names, file) {
        Ok(start) => Ok(Loaded::new(names.into_names(), start)),
        Err(fault) => {
            drop(names);
            Err(fault)
        }
    }
}

/// The start and the names that a tree says.
///
/// # Errors
/// `Members` where the tree hasn't the members of a start file, and as `load_file`.
fn load_tree(alloc: Global, tree: &Value) -> Result<Loaded, LoadFault>
    ensures ok { IfOk result (λ loaded. load_of (view tree.now) ≡ Ok loaded) }
    ensures fault { IfErr result (λ fault. fault ≢ LoadFault.Memory → load_of (view tree.now) ≡ Err fault) }
{
    let file = FileText::read(alloc, tree)?;
    let loaded = load_file(alloc, &file);
    drop(file);
    loaded
}

/// Reads a start file: JSON in UTF-8 that nests at most 127 deep, whose members say the schemes, the subjects, the
/// objects, the matrix, the profile and the current accesses of a start; the last two may be left out.
///
/// # Errors
/// The first fault, in the order of [`LoadFault`], that applies to any part of the file; `Memory` as soon as an
/// allocation fails.
pub fn read_start(alloc: Global, bytes: &[u8]) -> Result<Loaded, LoadFault>
    ensures ok { IfOk result (λ loaded. (d : Data) × IsReadAs bytes.now d × (load_of d ≡ Ok loaded)) }
    ensures json { result ≡ Err LoadFault.Json → (d : Data) → ¬ IsReadAs bytes.now d }
    ensures fault { IfErr result
        (λ fault. fault ≢ LoadFault.Memory → fault ≢ LoadFault.Json → (d : Data) × IsReadAs bytes.now d
        × (load_of d ≡ Err fault)) }
    ensures refused { IfErr result (λ fault. fault ≢ LoadFault.Memory → RefusesStart bytes.now fault) }
    ensures read { (d : Data) → IsReadAs bytes.now d → result ≢ Err LoadFault.Memory → result ≡ load_of d }
    ensures unread { ((d : Data) → ¬ IsReadAs bytes.now d) → result ≢ Err LoadFault.Memory
        → result ≡ Err LoadFault.Json }
{
    let tree = read_tree(alloc, bytes)?;
    let loaded = load_tree(alloc, &tree);
    drop(tree);
    loaded
}
