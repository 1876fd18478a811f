//! Names that two starts share.
ghost use Rattle.std.specs.Prelude.{◌≡◌, ◌++◌, IfOk, OnOk};
ghost use Rattle.mls_tables.specs.declared.limits.TheConstants.{MAX_SUBJECTS, MAX_OBJECTS};
ghost use Rattle.mls_differences.specs.Counterparts.{counterpart, shared, shared_as};

use mls_lines::Names;
use mls_tables::{MAX_OBJECTS, MAX_SUBJECTS, ObjectId, SubjectId};
use std::alloc::{AllocError, Global};

/// The numbers that a name has in two starts.
#[derive(Clone, Copy)]
pub(crate) struct Shared {
    pub first: u16,
    pub second: u16,
}

/// The subject of the second start that has the name of a subject of the first.
pub fn counterpart_subject(first: &Names, second: &Names, s: SubjectId) -> Option<SubjectId>
    ensures { result ≡ counterpart first.now.subjects second.now.subjects s }
{
    match first.subject_name(s) {
        Some(name) => second.subject(name),
        None => None,
    }
}

/// The object of the second start that has the name of an object of the first.
pub fn counterpart_object(first: &Names, second: &Names, o: ObjectId) -> Option<ObjectId>
    ensures { result ≡ counterpart first.now.objects second.now.objects o }
{
    match first.object_name(o) {
        Some(name) => second.object(name),
        None => None,
    }
}

/// Adds a subject of the first start and its counterpart, where it has one.
fn push_subject(
    found: &mut Vec<Shared>,
    first: &Names,
    second: &Names,
    n: u16,
) -> Result<(), AllocError>
    ensures { OnOk result (found.new.items
        ≡ found.old.items ++ shared_as n (counterpart first.now.subjects second.now.subjects n)) }
{
    if let Some(s) = counterpart_subject(first, second, SubjectId(n)) {
        found.push(Shared {
            first: n,
            second: s.number(),
        })?;
    }
    Ok(())
}

/// Adds an object of the first start and its counterpart, where it has one.
fn push_object(
    found: &mut Vec<Shared>,
    first: &Names,
    second: &Names,
    n: u16,
) -> Result<(), AllocError>
    ensures { OnOk result (found.new.items
        ≡ found.old.items ++ shared_as n (counterpart first.now.objects second.now.objects n)) }
{
    if let Some(o) = counterpart_object(first, second, ObjectId(n)) {
        found.push(Shared {
            first: n,
            second: o.number(),
        })?;
    }
    Ok(())
}

/// The subjects that both starts have, by the numbers of the first.
#[tactic(auto, using(crate::proofs::Growing::shared_none))]
pub(crate) fn shared_subjects(
    alloc: Global,
    first: &Names,
    second: &Names,
) -> Result<Vec<Shared>, AllocError>
    ensures { IfOk result
        (λ found. found.items ≡ shared first.now.subjects second.now.subjects MAX_SUBJECTS) }
{
    let mut found = Vec::new(alloc);
    for n in 0..MAX_SUBJECTS {
        push_subject(&mut found, first, second, n)?;
    }
    Ok(found)
}

/// The objects that both starts have, by the numbers of the first.
#[tactic(auto, using(crate::proofs::Growing::shared_none))]
pub(crate) fn shared_objects(
    alloc: Global,
    first: &Names,
    second: &Names,
) -> Result<Vec<Shared>, AllocError>
    ensures { IfOk result
        (λ found. found.items ≡ shared first.now.objects second.now.objects MAX_OBJECTS) }
{
    let mut found = Vec::new(alloc);
    for n in 0..MAX_OBJECTS {
        push_object(&mut found, first, second, n)?;
    }
    Ok(found)
}
