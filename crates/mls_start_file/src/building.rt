//! The start of a start file's rows.
ghost use Rattle.std.specs.Prelude.{◌≡◌, ◌≢◌, ◌<◌, ◌≤◌, ◌+◌, ◌++◌, map, is_some, option_map, length, All, IfOk, IfErr};
ghost use Rattle.std.specs.Prelude.{IfNone, OnOk, Some, None, Ok, Err};
ghost use Rattle.std.specs.FinSet as set;
ghost use Rattle.mls_labels.specs.Scheme.{bounds_of};
ghost use Rattle.mls_tables.specs.declared.limits.TheConstants.{MAX_SUBJECTS, MAX_OBJECTS};
ghost use Rattle.mls_start_file.specs.Building.{count_fault};
ghost use Rattle.mls_start_text.specs.Below.{HasParentBelow, IsPlacedBelow, ArePlacedBelow};
ghost use Rattle.mls_start_text.specs.Each.{each_of};
ghost use Rattle.mls_start_text.specs.LabelViews.{labels_view};
ghost use Rattle.mls_start_file.specs.Loading.{needing, start_of};
ghost use Rattle.mls_start_text.specs.NameViews.{names_view};
ghost use Rattle.mls_start_file.specs.Ties.{HasCounts};
ghost use Rattle.mls_start_file.specs.Placing.{placed_child, rows_with};
ghost use Rattle.mls_start_text.specs.PlaceViews.{triple_view, placed_view};

use mls_start::{BuildRefused, Start, StartBuilder, StartFault};
use mls_start_text::{FileLabels, FileNames, FilePlaces, LabelledChild, LoadFault, PlacedTriple};
use mls_state::Subject;
use mls_tables::{MAX_OBJECTS, MAX_SUBJECTS, ObjectId, SubjectId};
use std::alloc::Global;

/// The fault of how many subjects and how many objects below the root there are.
fn count_fault(subjects: usize, children: usize) -> Option<StartFault>
    ensures fault { result ≡ count_fault subjects children }
    ensures few { IfNone result ((subjects ≤ MAX_SUBJECTS) × (children < MAX_OBJECTS)) }
{
    if subjects == 0 {
        Some(StartFault::NoSubjects)
    } else if subjects > MAX_SUBJECTS as usize {
        Some(StartFault::TooManySubjects)
    } else if children >= MAX_OBJECTS as usize {
        Some(StartFault::TooManyObjects)
    } else {
        None
    }
}

/// Whether each parent's name is an object's.
fn are_placed(children: &[LabelledChild]) -> bool
    ensures { result ≡ is_some (each_of placed_child children.now) }
{
    for child in children {
        if child.parent.is_none() {
            return false;
        }
    }
    true
}

/// Gives the builder the subjects.
fn add_subjects(builder: &mut StartBuilder, subjects: &[Subject]) -> Result<(), LoadFault>
    ensures ok { OnOk result (builder.new ≡ record builder.old { subjects = builder.old.subjects ++ subjects.now }) }
    ensures err { IfErr result (λ fault. fault ≡ LoadFault.Memory) }
{
    for subject in subjects {
        builder.subject(
            subject.maximum,
            subject.current,
            subject.integrity,
            subject.trusted,
        )?;
    }
    Ok(())
}

/// Gives the builder the objects below the root.
fn add_children(builder: &mut StartBuilder, children: &[LabelledChild]) -> Result<(), LoadFault>
    requires { All (HasParentBelow MAX_OBJECTS) children.now }
    ensures ok { OnOk result (builder.new ≡ record builder.old { objects = builder.new.objects }) }
    ensures objects { OnOk result
        (option_map (λ rows. builder.old.objects ++ rows) (each_of placed_child children.now)
        ≡ Some builder.new.objects) }
    ensures fault { IfErr result
        (λ fault. fault ≢ LoadFault.Memory → (fault ≡ LoadFault.Unknown) × (each_of placed_child children.now ≡ None)) }
{
    for child in children {
        let Some(parent) = child.parent else {
            return Err(LoadFault::Unknown);
        };
        let labels = child.labels;
        builder.object(
            ObjectId::new(parent as u16),
            labels.security,
            labels.integrity,
        )?;
    }
    Ok(())
}

/// Gives the builder the cells of the matrix.
fn add_cells(builder: &mut StartBuilder, triples: &[PlacedTriple]) -> Result<(), LoadFault>
    requires places { All (IsPlacedBelow MAX_SUBJECTS MAX_OBJECTS) triples.now }
    requires none { builder.old.cells ≡ set.empty }
    ensures ok { OnOk result (builder.new ≡ record builder.old {
      cells = set.from_list (map triple_view triples.now);
    }) }
    ensures err { IfErr result (λ fault. fault ≡ LoadFault.Memory) }
{
    for triple in triples {
        let subject = SubjectId::new(triple.subject as u16);
        let object = ObjectId::new(triple.object as u16);
        builder.allow(subject, object, triple.mode)?;
    }
    Ok(())
}

/// Gives the builder the current accesses.
fn add_accesses(builder: &mut StartBuilder, triples: &[PlacedTriple]) -> Result<(), LoadFault>
    requires places { All (IsPlacedBelow MAX_SUBJECTS MAX_OBJECTS) triples.now }
    requires none { builder.old.accesses ≡ set.empty }
    ensures ok { OnOk result (builder.new ≡ record builder.old {
      accesses = set.from_list (map triple_view triples.now);
    }) }
    ensures err { IfErr result (λ fault. fault ≡ LoadFault.Memory) }
{
    for triple in triples {
        let subject = SubjectId::new(triple.subject as u16);
        let object = ObjectId::new(triple.object as u16);
        builder.access(subject, object, triple.mode)?;
    }
    Ok(())
}

/// The builder of a file's rows.
///
/// # Errors
/// `Unknown` where a parent is unknown, `Memory` where an allocation failed.
fn fill(
    alloc: Global,
    names: &FileNames,
    labels: &FileLabels,
    places: &FilePlaces,
) -> Result<StartBuilder, LoadFault>
    requires parents { All (HasParentBelow MAX_OBJECTS) labels.now.children.items }
    requires places { ArePlacedBelow MAX_SUBJECTS MAX_OBJECTS places.now }
    ensures ok { IfOk result
        (λ builder. rows_with (names_view names.now) (labels_view labels.now) (placed_view places.now) ≡ Some builder) }
    ensures fault { IfErr result
        (λ fault. fault ≢ LoadFault.Memory → (fault ≡ LoadFault.Unknown)
        × (each_of placed_child labels.now.children.items ≡ None)) }
{
    let (security, integrity) = (
        names.schemes.security.bounds(),
        names.schemes.integrity.bounds(),
    );
    let root = labels.root;
    let mut builder = StartBuilder::new(alloc, security, integrity, root.security, root.integrity);
    builder.use_profile(places.profile);
    add_subjects(&mut builder, &labels.subjects)?;
    add_children(&mut builder, &labels.children)?;
    add_cells(&mut builder, &places.cells)?;
    add_accesses(&mut builder, &places.accesses)?;
    Ok(builder)
}

/// The start of a file's rows.
///
/// # Errors
/// `Unknown` where a parent is unknown, `Start` with the first fault of the rows, `Memory` where an allocation failed.
pub(crate) fn build(
    alloc: Global,
    names: &FileNames,
    labels: &FileLabels,
    places: &FilePlaces,
) -> Result<Start, LoadFault>
    requires parents { All (HasParentBelow (1 + length labels.now.children.items)) labels.now.children.items }
    requires places { ArePlacedBelow (length labels.now.subjects.items)
        (1 + length labels.now.children.items) places.now }
    ensures counts { IfOk result
        (HasCounts (length labels.now.subjects.items) (1 + length labels.now.children.items)
        (bounds_of names.now.schemes.security) (bounds_of names.now.schemes.integrity)) }
    ensures few { OnOk result
        ((length labels.now.subjects.items ≤ MAX_SUBJECTS) × (1 + length labels.now.children.items ≤ MAX_OBJECTS)) }
    ensures ok { IfOk result
        (λ start. needing
        (rows_with (names_view names.now) (labels_view labels.now) (placed_view places.now)) LoadFault.Unknown start_of
        ≡ Ok start) }
    ensures fault { IfErr result
        (λ fault. fault ≢ LoadFault.Memory
        → needing
        (rows_with (names_view names.now) (labels_view labels.now) (placed_view places.now)) LoadFault.Unknown start_of
        ≡ Err fault) }
{
    if !are_placed(&labels.children) {
        return Err(LoadFault::Unknown);
    }
    if let Some(fault) = count_fault(labels.subjects.len(), labels.children.len()) {
        return Err(LoadFault::Start(fault));
    }
    match fill(alloc, names, labels, places)?.build() {
        Ok(start) => Ok(start),
        Err(refused) => Err(LoadFault::Start(refused.fault)),
    }
}
