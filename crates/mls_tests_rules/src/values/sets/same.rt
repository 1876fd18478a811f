//! Sets of accesses that are compared, with their indexes.
use super::covers;
use crate::values::seen::{MODES, sees};
use mls_tables::{AccessSet, ObjectId, SubjectId};
use std::alloc::Allocator;
use std::process::Abort;

/// Asserts that two sets have the same cells of a subject and an object.
fn same_cell<A: Allocator>(
    rt: &impl Abort,
    set: &AccessSet<A>,
    wanted: &AccessSet,
    s: u16,
    o: u16,
) {
    covers(rt, set, s, o);
    covers(rt, wanted, s, o);
    let (s, o) = (SubjectId(s), ObjectId(o));
    for x in &MODES {
        sees(
            rt,
            set.contains(s, o, *x) == wanted.contains(s, o, *x),
            "a triple",
        );
    }
    sees(
        rt,
        set.objects_of(s) == wanted.objects_of(s),
        "what a subject holds",
    );
    sees(
        rt,
        set.subjects_of(o) == wanted.subjects_of(o),
        "who holds an object",
    );
}

/// Asserts that two sets have the same cells of a subject, and list the same with it.
fn same_row<A: Allocator>(rt: &impl Abort, set: &AccessSet<A>, wanted: &AccessSet, s: u16) {
    for o in 0..set.columns() {
        same_cell(rt, set, wanted, s, o);
    }
}

/// Asserts that two sets are the same, and so are their indexes.
pub fn same_sets<A: Allocator>(rt: &impl Abort, set: &AccessSet<A>, wanted: &AccessSet) {
    sees(
        rt,
        set.subjects() == wanted.subjects() && set.columns() == wanted.columns(),
        "the size",
    );
    for s in 0..set.subjects() {
        same_row(rt, set, wanted, s);
    }
}
