//! The names of a start's subjects and objects, and its schemes of labels.
ghost use Rattle.std.specs.Prelude.{◌≡◌, ◌≢◌, ◌≤◌, false, true, length, Some, None, IfNone, IfOk, IfErr, OnOk};
ghost use Rattle.std.specs.Prelude.{option_map, slice_get};
ghost use Rattle.mls_tables.specs.declared.limits.TheConstants.{MAX_SUBJECTS, MAX_OBJECTS};
ghost use Rattle.mls_labels.specs.Names.{has_twice};
ghost use Rattle.mls_labels.specs.Reading.{place_of};
ghost use Rattle.mls_lines.specs.Names.{texts, fault_of_counts, names_fault};

use crate::names_fault::NamesFault;
use mls_labels::{NameSet, NameSetFault, Scheme};
use mls_tables::{MAX_OBJECTS, MAX_SUBJECTS, ObjectId, SubjectId};
use std::alloc::{Allocator, Global};
use std::marker::Model;

/// The names of a start's subjects and of its objects, whose places are their numbers, and the schemes of its security
/// and its integrity labels. A subject and an object may have one name.
#[derive(Drop)]
pub struct Names<A: Allocator = Global> {
    subjects: NameSet<A>,
    objects: NameSet<A>,
    security: Scheme<A>,
    integrity: Scheme<A>,
}

impl<A: Allocator> Model for Names<A> {
    ghost use Rattle.std.specs.Prelude.{◌≤◌, length};
    ghost use Rattle.mls_tables.specs.declared.limits.TheConstants.{MAX_SUBJECTS, MAX_OBJECTS};
    ghost use Rattle.mls_lines.specs.Names.{Names, names_code};

    ghost Value = { Names };

    ghost coded = { names_code };

    ghost view = { λ n. record {
      subjects = n.subjects;
      objects = n.objects;
      security = n.security;
      integrity = n.integrity;
    } };

    ghost invariant = { λ n. (length n.subjects ≤ MAX_SUBJECTS) × (length n.objects ≤ MAX_OBJECTS) };
}

/// The fault of how many names there are.
fn count_fault(subjects: &[&str], objects: &[&str]) -> Option<NamesFault>
    ensures fault { result ≡ fault_of_counts (texts subjects.now) (texts objects.now) }
    ensures few { IfNone result ((length subjects.now ≤ MAX_SUBJECTS) × (length objects.now ≤ MAX_OBJECTS)) }
{
    if subjects.len() > MAX_SUBJECTS as usize {
        Some(NamesFault::TooManySubjects)
    } else if objects.len() > MAX_OBJECTS as usize {
        Some(NamesFault::TooManyObjects)
    } else {
        None
    }
}

/// The set of these names, or this fault where a name stands twice.
fn name_set<A: Allocator + Copy>(
    alloc: A,
    names: &[&str],
    repeated: NamesFault,
) -> Result<NameSet<A>, NamesFault>
    ensures ok { IfOk result (λ set. set ≡ texts names.now) }
    ensures once { OnOk result (has_twice (texts names.now) ≡ false) }
    ensures fault { IfErr result
        (λ fault. fault ≢ NamesFault.Memory → (fault ≡ repeated) × (has_twice (texts names.now) ≡ true)) }
{
    match NameSet::from_names(alloc, names) {
        Ok(names) => Ok(names),
        Err(NameSetFault::Repeated) => Err(repeated),
        Err(NameSetFault::Memory) => Err(NamesFault::Memory),
    }
}

/// The set of the subjects' names and that of the objects'.
fn name_sets<A: Allocator + Copy>(
    alloc: A,
    subjects: &[&str],
    objects: &[&str],
) -> Result<(NameSet<A>, NameSet<A>), NamesFault>
    ensures ok { IfOk result (λ p. (p.0 ≡ texts subjects.now) × (p.1 ≡ texts objects.now)) }
    ensures few { OnOk result ((length subjects.now ≤ MAX_SUBJECTS) × (length objects.now ≤ MAX_OBJECTS)) }
    ensures faultless { OnOk result (names_fault (texts subjects.now) (texts objects.now) ≡ None) }
    ensures fault { IfErr result
        (λ fault. fault ≢ NamesFault.Memory → names_fault (texts subjects.now) (texts objects.now) ≡ Some fault) }
    ensures memory { IfErr result
        (λ fault. fault ≡ NamesFault.Memory → fault_of_counts (texts subjects.now) (texts objects.now) ≡ None) }
{
    if let Some(fault) = count_fault(subjects, objects) {
        return Err(fault);
    }
    let subjects = name_set(alloc, subjects, NamesFault::RepeatedSubject)?;
    let objects = name_set(alloc, objects, NamesFault::RepeatedObject)?;
    Ok((subjects, objects))
}

/// The name in a place, or nothing where there are fewer names.
fn name_in<A: Allocator>(names: &NameSet<A>, place: u16) -> Option<&str>
    ensures { option_map (λ name. name.now) result ≡ slice_get names.now place }
{
    let place = place as usize;
    if place < names.len() {
        Some(names.name(place))
    } else {
        None
    }
}

impl<A: Allocator + Copy> Names<A> {
    /// The names of at most `MAX_SUBJECTS` subjects and `MAX_OBJECTS` objects in their order.
    ///
    /// # Errors
    /// The first fault of the names in the order of [`NamesFault`]; `Memory` where an allocation failed, which may come
    /// before a repeated name, but not before too many of them.
    pub fn new(
        alloc: A,
        subjects: &[&str],
        objects: &[&str],
        security: Scheme<A>,
        integrity: Scheme<A>,
    ) -> Result<Names<A>, NamesFault>
        ensures ok { IfOk result
            (λ n. n ≡ record {
              subjects = texts subjects.now;
              objects = texts objects.now;
              security = security;
              integrity = integrity;
            }) }
        ensures faultless { OnOk result (names_fault (texts subjects.now) (texts objects.now) ≡ None) }
        ensures fault { IfErr result
            (λ fault. fault ≢ NamesFault.Memory → names_fault (texts subjects.now) (texts objects.now) ≡ Some fault) }
        ensures memory { IfErr result
            (λ fault. fault ≡ NamesFault.Memory → fault_of_counts (texts subjects.now) (texts objects.now) ≡ None) }
    {
        match name_sets(alloc, subjects, objects) {
            Ok(sets) => Ok(Names::of_sets(sets.0, sets.1, security, integrity)),
            Err(fault) => Err(fault),
        }
    }
}

impl<A: Allocator> Names<A> {
    /// The names of these sets, whose places are their numbers, and these schemes. It doesn't allocate.
    pub fn of_sets(
        subjects: NameSet<A>,
        objects: NameSet<A>,
        security: Scheme<A>,
        integrity: Scheme<A>,
    ) -> Names<A>
        requires subjects { length subjects ≤ MAX_SUBJECTS }
        requires objects { length objects ≤ MAX_OBJECTS }
        ensures { result
            ≡ record { subjects = subjects; objects = objects; security = security; integrity = integrity } }
    {
        Names {
            subjects,
            objects,
            security,
            integrity,
        }
    }

    /// The subject of this name.
    pub fn subject(&self, name: &str) -> Option<SubjectId>
        ensures { result ≡ place_of self.now.subjects name.now }
    {
        let place = self.subjects.place(name)?;
        Some(SubjectId(place as u16))
    }

    /// The object of this name.
    pub fn object(&self, name: &str) -> Option<ObjectId>
        ensures { result ≡ place_of self.now.objects name.now }
    {
        let place = self.objects.place(name)?;
        Some(ObjectId(place as u16))
    }

    /// The name of a subject, or nothing where there is no subject of this number.
    pub fn subject_name(&self, s: SubjectId) -> Option<&str>
        ensures { option_map (λ name. name.now) result ≡ slice_get self.now.subjects s }
    {
        name_in(&self.subjects, s.0)
    }

    /// The name of an object, or nothing where the start has no object of this number.
    pub fn object_name(&self, o: ObjectId) -> Option<&str>
        ensures { option_map (λ name. name.now) result ≡ slice_get self.now.objects o }
    {
        name_in(&self.objects, o.0)
    }

    /// The scheme of the security labels.
    pub fn security(&self) -> &Scheme<A>
        ensures { result.now ≡ self.now.security }
    {
        &self.security
    }

    /// The scheme of the integrity labels.
    pub fn integrity(&self) -> &Scheme<A>
        ensures { result.now ≡ self.now.integrity }
    {
        &self.integrity
    }
}
