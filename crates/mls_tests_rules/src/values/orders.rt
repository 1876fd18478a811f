//! What the indexes list as many accesses come and go, in several orders.
ghost use Rattle.std.specs.Prelude.{◌<◌, ◌≤◌};

use crate::values::seen::sees;
use crate::values::sets::covers;
use mls_tables::{AccessSet, MAX_OBJECTS, Mode, ObjectId, SubjectId};
use std::alloc::{AllocError, Global};
use std::process::Abort;
use std::test::Fail;

/// The number at a place of an order of the even count of numbers below one: they rise, they fall, or the odd ones
/// come first.
fn in_order(order: u8, count: u16, k: u16) -> u16
    requires few { count ≤ 4096 }
    requires place { k < count }
{
    if order == 0 {
        k
    } else if order == 1 {
        count - 1 - k
    } else if k < count / 2 {
        2 * k + 1
    } else {
        2 * (k - count / 2)
    }
}

/// The access of a number: that of one subject to each of 4,092 objects, or of each of 256 subjects to one object.
fn access(one_subject: bool, n: u16) -> (u16, u16) {
    if one_subject { (1, n) } else { (n, 0) }
}

/// How many accesses there are.
fn count_of(one_subject: bool) -> u16 {
    if one_subject { 4092 } else { 256 }
}

/// Has all subjects access all objects, in the order in which the numbers rise, or fall.
fn hold(
    rt: &impl Abort,
    set: &mut AccessSet,
    one_subject: bool,
    order: u8,
) -> Result<(), AllocError> {
    let count = count_of(one_subject);
    sees(rt, count <= 4096, "few");
    for k in 0..count {
        if set.columns() < MAX_OBJECTS && (one_subject || k == 0) {
            set.add_object()?;
        }
        let (s, o) = access(one_subject, in_order(order, count, k));
        covers(rt, set, s, o);
        sees(
            rt,
            set.insert(SubjectId(s), ObjectId(o), Mode::Write)?,
            "a new access",
        );
    }
    Ok(())
}

/// How many accesses are listed with the subject that holds all objects, or with the object that all subjects hold.
fn listed(set: &AccessSet, one_subject: bool, s: u16, o: u16) -> usize
    requires subject { s < set.now.subjects }
    requires object { o < set.now.columns }
{
    if one_subject {
        set.objects_of(SubjectId(s)).len()
    } else {
        set.subjects_of(ObjectId(o)).len()
    }
}

/// Takes the accesses away in an order, and asserts how many are listed.
fn release(rt: &impl Abort, set: &mut AccessSet, one_subject: bool, order: u8) {
    let count = count_of(one_subject);
    sees(rt, count <= 4096, "few");
    for k in 0..count {
        let (s, o) = access(one_subject, in_order(order, count, k));
        covers(rt, set, s, o);
        sees(
            rt,
            listed(set, one_subject, s, o) == (count - k) as usize,
            "how many are held",
        );
        sees(
            rt,
            set.remove(SubjectId(s), ObjectId(o), Mode::Write),
            "an access",
        );
        covers(rt, set, s, o);
        sees(rt, listed(set, !one_subject, s, o) == 0, "none held");
    }
}

/// Asserts that nobody holds anything.
fn none_is_listed(rt: &impl Abort, set: &AccessSet) {
    for n in 0..set.subjects() {
        sees(
            rt,
            set.objects_of(SubjectId(n)).is_empty(),
            "objects of a subject",
        );
    }
    for n in 0..set.columns() {
        sees(
            rt,
            set.subjects_of(ObjectId(n)).is_empty(),
            "subjects of an object",
        );
    }
}

/// Has all accesses held, and takes them away in an order.
fn hold_and_release(
    rt: &impl Abort,
    alloc: Global,
    one_subject: bool,
    order: u8,
) -> Result<(), AllocError> {
    let mut set = AccessSet::new(alloc, if one_subject { 2 } else { 256 })?;
    let held = hold(rt, &mut set, one_subject, 0);
    if held.is_ok() {
        release(rt, &mut set, one_subject, order);
        none_is_listed(rt, &set);
    }
    drop(set);
    held
}

#[test]
fn all_accesses_are_released_in_three_orders(rt: HostRuntime) -> Result<(), Fail> {
    for order in 0..3u8 {
        hold_and_release(&rt, rt.alloc(), true, order)?;
        hold_and_release(&rt, rt.alloc(), false, order)?;
    }
    Ok(())
}

/// Asserts that the subjects are so many, and that their numbers rise from 0 by a step.
fn are_each(rt: &impl Abort, subjects: &[SubjectId], count: usize, step: usize) {
    sees(rt, subjects.len() == count, "how many are listed");
    for (k, s) in subjects.iter().enumerate() {
        sees(
            rt,
            Some(s.number() as usize) == k.checked_mul(step),
            "the order",
        );
    }
}

/// Takes the access of each subject with an odd number away.
fn remove_odd(rt: &impl Abort, set: &mut AccessSet) {
    for n in 0..128u16 {
        covers(rt, set, 2 * n + 1, 0);
        sees(
            rt,
            set.remove(SubjectId(2 * n + 1), ObjectId(0), Mode::Write),
            "an access",
        );
    }
}

/// Asserts that all 256 subjects are listed, ascending, though they came in another order; and then those with even
/// numbers.
fn are_listed(rt: &impl Abort, set: &mut AccessSet) {
    covers(rt, set, 255, 0);
    are_each(rt, set.subjects_of(ObjectId(0)), 256, 1);
    remove_odd(rt, set);
    covers(rt, set, 255, 0);
    are_each(rt, set.subjects_of(ObjectId(0)), 128, 2);
    sees(rt, set.objects_of(SubjectId(255)).is_empty(), "an odd one");
    covers(rt, set, 254, 0);
    sees(
        rt,
        set.objects_of(SubjectId(254)) == [ObjectId(0)].as_slice(),
        "an even one",
    );
    set.drop_object(ObjectId(0));
    none_is_listed(rt, set);
}

#[test]
fn subjects_are_listed_in_order(rt: HostRuntime) -> Result<(), Fail> {
    let mut set = AccessSet::new(rt.alloc(), 256)?;
    let held = hold(&rt, &mut set, false, 1);
    if held.is_ok() {
        are_listed(&rt, &mut set);
    }
    drop(set);
    held?;
    Ok(())
}
