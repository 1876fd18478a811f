//! Each fault alone, and two at once: the first in the order of the faults is returned, whatever the order of the
//! calls.
use crate::seen::sees;
use crate::standard::{integrity, security};
use mls_labels::Bounds;
use mls_start::{StartBuilder, StartFault};
use mls_tables::{Mode, ObjectId, SubjectId};
use std::alloc::{AllocError, Global};
use std::process::Abort;
use std::test::Fail;

const ROOT: ObjectId = ObjectId(0);

/// The faults in their order.
const FAULTS: [StartFault; 10] = [
    StartFault::NoSubjects,
    StartFault::TooManySubjects,
    StartFault::TooManyObjects,
    StartFault::BadLabel,
    StartFault::BadParent,
    StartFault::CurrentAboveMaximum,
    StartFault::NotCompatible,
    StartFault::IntegrityAboveParent,
    StartFault::NoSuchCell,
    StartFault::NotSecure,
];

/// Gives so many subjects C, C, lo.
fn add_subjects(builder: &mut StartBuilder<Global>, count: u16) -> Result<(), AllocError> {
    for _ in 0..count {
        builder.subject(security(1, 0), security(1, 0), integrity(0), false)?;
    }
    Ok(())
}

/// Gives so many objects C lo below the root.
fn add_objects(builder: &mut StartBuilder<Global>, count: u16) -> Result<(), AllocError> {
    for _ in 0..count {
        builder.object(ROOT, security(1, 0), integrity(0))?;
    }
    Ok(())
}

/// Gives what makes a fault apply below a root that is C lo.
fn add_wrong(builder: &mut StartBuilder<Global>, fault: StartFault) -> Result<(), AllocError> {
    let (label, low) = (security(1, 0), integrity(0));
    match fault {
        StartFault::NoSubjects => Ok(()),
        StartFault::TooManySubjects => add_subjects(builder, 257),
        StartFault::TooManyObjects => add_objects(builder, 4096),
        StartFault::BadLabel => builder.object(ROOT, security(4, 0), low),
        StartFault::BadParent => builder.object(ObjectId(5000), label, low),
        StartFault::CurrentAboveMaximum => builder.subject(label, security(2, 0), low, false),
        StartFault::NotCompatible => builder.object(ROOT, security(0, 0), low),
        StartFault::IntegrityAboveParent => builder.object(ROOT, label, integrity(1)),
        StartFault::NoSuchCell => builder.allow(SubjectId(300), ROOT, Mode::Read),
        StartFault::NotSecure => builder.access(SubjectId(0), ROOT, Mode::Read),
    }
}

/// Gives what makes a fault apply below a root that is U hi.
fn add_worked(builder: &mut StartBuilder<Global>, fault: StartFault) -> Result<(), AllocError> {
    let (open, middle) = (security(0, 0), security(1, 0));
    let (low, high) = (integrity(0), integrity(1));
    match fault {
        StartFault::BadLabel => builder.subject(security(4, 0), open, high, false),
        StartFault::BadParent => builder.object(ObjectId(1), open, high),
        StartFault::CurrentAboveMaximum => builder.subject(middle, security(2, 0), high, false),
        StartFault::NotCompatible => {
            builder.object(ROOT, middle, high)?;
            builder.object(ObjectId(1), open, high)
        }
        StartFault::IntegrityAboveParent => {
            builder.object(ROOT, open, low)?;
            builder.object(ObjectId(1), open, high)
        }
        StartFault::NoSuchCell => builder.access(SubjectId(9), ROOT, Mode::Read),
        other => add_wrong(builder, other),
    }
}

/// Gives a subject unless there is to be none, and then what makes the faults apply, in this order.
fn add_all(
    builder: &mut StartBuilder<Global>,
    faults: &[StartFault],
    worked: bool,
) -> Result<(), AllocError> {
    if !faults.contains(&StartFault::NoSubjects) {
        add_subjects(builder, 1)?;
    }
    for fault in faults {
        if worked {
            add_worked(builder, *fault)?;
        } else {
            add_wrong(builder, *fault)?;
        }
    }
    Ok(())
}

/// Asserts that a start isn't built, for a fault. Returns the builder, or nothing where the start was built.
fn refused(
    rt: &impl Abort,
    builder: StartBuilder<Global>,
    fault: StartFault,
) -> Option<StartBuilder<Global>> {
    match builder.build() {
        Ok(_) => None,
        Err(refused) => {
            sees(rt, refused.fault == fault, "the fault");
            Some(refused.builder)
        }
    }
}

/// Asserts that a start isn't built, for a fault, and not where it is tried again.
fn is_refused_twice(rt: &impl Abort, builder: StartBuilder<Global>, fault: StartFault) {
    match refused(rt, builder, fault) {
        Some(builder) => sees(rt, refused(rt, builder, fault).is_some(), "a refusal"),
        None => sees(rt, false, "a refusal"),
    }
}

/// Asserts that the first of the faults, given in this order, is `first`, below a root C lo, or U hi where `worked`.
fn finds(
    rt: &impl Abort,
    alloc: Global,
    faults: &[StartFault],
    first: StartFault,
    worked: bool,
) -> Result<(), AllocError> {
    let (label, trust) = if worked {
        (security(0, 0), integrity(1))
    } else {
        (security(1, 0), integrity(0))
    };
    let mut builder = StartBuilder::new(alloc, Bounds::new(4, 2), Bounds::new(2, 0), label, trust);
    let added = add_all(&mut builder, faults, worked);
    is_refused_twice(rt, builder, first);
    added
}

#[test]
fn each_fault_is_found(rt: HostRuntime) -> Result<(), Fail> {
    for fault in FAULTS {
        finds(&rt, rt.alloc(), &[fault], fault, false)?;
        finds(&rt, rt.alloc(), &[fault], fault, true)?;
    }
    Ok(())
}

/// Whether both faults can apply: where there is no subject, none has a wrong label and there aren't too many.
fn can_meet(lesser: StartFault, greater: StartFault) -> bool {
    lesser != StartFault::NoSubjects
        || (greater != StartFault::TooManySubjects && greater != StartFault::CurrentAboveMaximum)
}

/// Asserts of a fault and each lesser one that the lesser is found, whichever is given first.
fn lesser_is_found(
    rt: &impl Abort,
    alloc: Global,
    lesser: &[StartFault],
    greater: StartFault,
) -> Result<(), AllocError> {
    for fault in lesser {
        if can_meet(*fault, greater) {
            finds(rt, alloc, &[*fault, greater], *fault, false)?;
            finds(rt, alloc, &[greater, *fault], *fault, false)?;
        }
    }
    Ok(())
}

#[test]
fn of_two_faults_the_lesser_is_found(rt: HostRuntime) -> Result<(), Fail> {
    for (n, greater) in FAULTS.iter().enumerate() {
        lesser_is_found(&rt, rt.alloc(), &FAULTS[..n], *greater)?;
    }
    Ok(())
}
