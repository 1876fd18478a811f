//! Sets of accesses, a table of steps each: their triples and what their indexes list, also where each allocation is
//! refused in turn: then the set is compared with one that met no refusal after each step.
ghost use Rattle.std.specs.Prelude.{◌<◌};

use crate::values::beside::{Pair, Row, refused_in_turn, take_row};
use crate::values::seen::{are, are_subjects, has_just, sees};
use mls_tables::{
    AccessSet, MAX_OBJECTS, Mode, ObjectId, SubjectId, indexes_give_each_triple_once,
};
use refusing::Refusing;
use runs::RUNS;
use same::same_sets;
use std::alloc::{AllocError, Allocator, Global};
use std::process::Abort;
use std::test::Fail;
use steps::{FILLED, GROUP, LARGEST, Step, WORKED};

mod runs;
mod same;
mod steps;

/// Two runs of objects, and numbers without a column: one between them, and one that follows the second.
const DROPPED: [ObjectId; 7] = [
    ObjectId(1),
    ObjectId(2),
    ObjectId(3),
    ObjectId(9),
    ObjectId(5),
    ObjectId(6),
    ObjectId(7),
];

/// Asserts that a set has a row for a subject and a column for an object.
pub fn covers<A: Allocator>(rt: &impl Abort, set: &AccessSet<A>, s: u16, o: u16)
    ensures row { s < set.now.subjects }
    ensures column { o < set.now.columns }
{
    sees(rt, s < set.subjects() && o < set.columns(), "a cell");
}

/// Sees what a step tells of a set.
fn look<A: Allocator>(rt: &impl Abort, set: &AccessSet<A>, step: &Step) {
    match step {
        Step::Has(s, o, modes) => {
            covers(rt, set, *s, *o);
            let found = set.modes(SubjectId(*s), ObjectId(*o));
            sees(
                rt,
                has_just(found, modes) && found.is_empty() == modes.is_empty(),
                "modes",
            );
        }
        Step::Contains(s, o, x, there) => {
            covers(rt, set, *s, *o);
            sees(
                rt,
                set.contains(SubjectId(*s), ObjectId(*o), *x) == *there,
                "a triple",
            );
        }
        Step::Lists(s, objects) => {
            covers(rt, set, *s, 0);
            sees(
                rt,
                are(set.objects_of(SubjectId(*s)), objects),
                "what a subject holds",
            );
        }
        Step::Holders(o, subjects) => {
            covers(rt, set, 0, *o);
            sees(
                rt,
                are_subjects(set.subjects_of(ObjectId(*o)), subjects),
                "who accesses an object",
            );
        }
        _ => {}
    }
}

/// Takes a step.
fn take<A: Allocator>(
    rt: &impl Abort,
    set: &mut AccessSet<A>,
    step: &Step,
) -> Result<(), AllocError> {
    match step {
        Step::Widen => {
            sees(rt, set.columns() < MAX_OBJECTS, "room for a column");
            set.add_object()?;
        }
        Step::Insert(s, o, x, new) => {
            covers(rt, set, *s, *o);
            let inserted = set.insert(SubjectId(*s), ObjectId(*o), *x)?;
            sees(rt, inserted == *new, "what is inserted");
        }
        Step::Remove(s, o, x, there) => {
            covers(rt, set, *s, *o);
            sees(
                rt,
                set.remove(SubjectId(*s), ObjectId(*o), *x) == *there,
                "what is removed",
            );
        }
        Step::Drop(o) => {
            covers(rt, set, 0, *o);
            set.drop_object(ObjectId(*o));
        }
        Step::DropGroup => set.drop_objects(&[ObjectId(1), ObjectId(3)]),
        Step::DropRuns => set.drop_objects(&DROPPED),
        other => look(rt, set, other),
    }
    Ok(())
}

/// A set, and beside it one that meets no refusal.
#[derive(Drop)]
struct Sets<A: Allocator> {
    set: AccessSet<A>,
    heap: A,
    wanted: AccessSet,
}

/// Sets as large as can be aren't compared.
impl<A: Allocator + Copy> Pair for Sets<A> {
    type Step = Step;

    type Copied = AccessSet<A>;

    fn take(&mut self, rt: &impl Abort, step: &Step) -> Result<(), AllocError> {
        take(rt, &mut self.set, step)
    }

    fn follow(&mut self, rt: &impl Abort, step: &Step) -> Result<(), AllocError> {
        take(rt, &mut self.wanted, step)
    }

    fn compare(&self, rt: &impl Abort) {
        self.compare_copy(rt, &self.set);
    }

    fn compare_refused(&self, rt: &impl Abort) {
        self.compare_copy(rt, &self.set);
    }

    fn copied(&self) -> Result<AccessSet<A>, AllocError> {
        self.set.duplicate(self.heap)
    }

    fn compare_copy(&self, rt: &impl Abort, copy: &AccessSet<A>) {
        if copy.columns() < 8 {
            same_sets(rt, copy, &self.wanted);
        }
    }

    fn look(rt: &impl Abort, copy: &AccessSet<A>, step: &Step) {
        look(rt, copy, step);
    }
}

/// A set without accesses, made again where an allocation failed.
fn made<A: Allocator + Copy>(
    rt: &impl Abort,
    heap: A,
    subjects: u16,
) -> Result<AccessSet<A>, AllocError> {
    sees(rt, subjects >= 1 && subjects <= 256, "subjects");
    match AccessSet::new(heap, subjects) {
        Ok(set) => Ok(set),
        Err(_) => AccessSet::new(heap, subjects),
    }
}

/// Takes the steps of a row where the allocation of a number is refused, and returns whether it was.
fn is_refused(
    rt: &impl Abort,
    alloc: Global,
    number: u64,
    subjects: u16,
    row: &Row<'_, Step>,
) -> Result<bool, AllocError> {
    let heap = Refusing::new(alloc, number);
    let wanted = made(rt, alloc, subjects)?;
    let set = made(rt, &heap, subjects)?;
    let mut pair = Sets {
        set,
        heap: &heap,
        wanted,
    };
    let taken = take_row(rt, &mut pair, row);
    drop(pair);
    taken?;
    Ok(heap.has_refused())
}

#[test]
fn sets_have_what_is_inserted(rt: HostRuntime) -> Result<(), Fail> {
    for (subjects, row) in &[WORKED, GROUP, RUNS, FILLED, LARGEST] {
        refused_in_turn(&rt, 5, |number| {
            is_refused(&rt, rt.alloc(), number, *subjects, row)
        })?;
    }
    indexes_give_each_triple_once();
    Ok(())
}
