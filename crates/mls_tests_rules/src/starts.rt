//! Starts that are built by calls: the largest, and why others are refused. What start files lead to is in
//! .ci/check-starts.
use crate::seen::{knows, sees};
use crate::standard::{begun, built, integrity, security};
use mls_rules::tests_are_of_all;
use mls_start::{Start, StartBuilder};
use mls_state::{State, is_secure};
use mls_tables::{Mode, ObjectId, SubjectId};
use mls_tree::inferiors_reach;
use std::alloc::{AllocError, Allocator, Global};
use std::process::Abort;
use std::test::Fail;

mod faults;

const MODES: [Mode; 4] = [Mode::Write, Mode::Append, Mode::Read, Mode::Execute];

/// Asserts what a start counts.
pub fn counts<A: Allocator>(
    rt: &impl Abort,
    start: &Start<A>,
    subjects: u16,
    objects: u16,
    cells: usize,
) {
    sees(rt, start.subject_count() == subjects, "how many subjects");
    sees(rt, start.object_count() == objects, "how many objects");
    sees(rt, start.cell_count() == cells, "how many cells");
}

/// Permits all modes to a subject at an object.
fn allow_all<A: Allocator>(
    builder: &mut StartBuilder<A>,
    s: SubjectId,
    o: ObjectId,
) -> Result<(), AllocError> {
    for x in MODES {
        builder.allow(s, o, x)?;
    }
    Ok(())
}

/// Asserts that a state permits all modes.
fn permits<A: Allocator>(rt: &impl Abort, state: &State<A>, s: SubjectId, o: ObjectId) {
    knows(rt, state, s, o);
    let allowed = state.allowed(s, o);
    sees(rt, MODES.iter().all(|x| allowed.has(*x)), "modes");
    sees(rt, state.accesses(s, o).is_empty(), "no access");
}

/// Permits all modes to a subject at all objects.
fn allow_row<A: Allocator>(builder: &mut StartBuilder<A>, s: SubjectId) -> Result<(), AllocError> {
    for n in 0..4096 {
        allow_all(builder, s, ObjectId(n))?;
    }
    Ok(())
}

/// Permits all modes to 256 subjects, the last first, at 4,096 objects.
fn allow_table<A: Allocator>(builder: &mut StartBuilder<A>) -> Result<(), AllocError> {
    for s in (0..256).rev() {
        allow_row(builder, SubjectId(s))?;
    }
    Ok(())
}

/// Gives 256 subjects U, U, hi, and 4,095 objects U hi, each below the one before.
fn give_chain<A: Allocator>(builder: &mut StartBuilder<A>) -> Result<(), AllocError> {
    let (open, high) = (security(0, 0), integrity(1));
    for n in 0..4095 {
        builder.object(ObjectId(n), open, high)?;
        if n < 256 {
            builder.subject(open, open, high, false)?;
        }
    }
    Ok(())
}

/// A start of 256 subjects, 4,096 objects in a chain, and the full matrix, which comes before them and whose last cell
/// stands once more behind them.
fn largest(alloc: Global) -> Result<Start<Global>, AllocError> {
    let mut builder = begun(alloc);
    allow_table(&mut builder)?;
    give_chain(&mut builder)?;
    allow_all(&mut builder, SubjectId(255), ObjectId(4095))?;
    built(builder)
}

/// Asserts that an object U hi stands below another, with this right below it.
fn stands(rt: &impl Abort, state: &State<Global>, o: u16, parent: u16, children: &[ObjectId]) {
    let o = ObjectId(o);
    knows(rt, state, SubjectId(255), o);
    sees(rt, state.object_label(o) == security(0, 0), "a label");
    sees(rt, state.object_integrity(o) == integrity(1), "integrity");
    sees(rt, state.parent(o) == Some(ObjectId(parent)), "a parent");
    sees(rt, state.children(o) == children, "children");
}

/// Asserts what the opening of that start has and permits.
fn opens_largest(rt: &impl Abort, alloc: Global, start: &Start<Global>) -> Result<(), AllocError> {
    let state = start.opening(alloc)?;
    sees(rt, is_secure(&state), "a secure state");
    sees(rt, state.next() == 4096, "the next number");
    stands(rt, &state, 4095, 4094, &[]);
    stands(rt, &state, 1, 0, &[ObjectId(2)]);
    knows(rt, &state, SubjectId(255), ObjectId(0));
    sees(rt, state.parent(ObjectId(0)).is_none(), "the root");
    let below = state.children(ObjectId(0));
    sees(rt, below == [ObjectId(1)].as_slice(), "below the root");
    permits(rt, &state, SubjectId(255), ObjectId(4095));
    drop(state);
    Ok(())
}

#[test]
fn the_largest_start_with_a_full_matrix(rt: HostRuntime) -> Result<(), Fail> {
    let start = largest(rt.alloc())?;
    counts(&rt, &start, 256, 4096, 4_194_304);
    let opened = opens_largest(&rt, rt.alloc(), &start);
    drop(start);
    opened?;
    tests_are_of_all();
    inferiors_reach();
    Ok(())
}
