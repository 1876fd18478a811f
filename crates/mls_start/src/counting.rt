//! How many triples the tables of a state have.
ghost use Rattle.std.specs.Prelude.{◌≡◌, ◌++◌, [], ◌∷◌, if◌then◌else◌, IfOk, OnOk};
ghost use Rattle.std.specs.FinSet as set;
ghost use Rattle.mls_tables.specs.Once.{accesses_at};
ghost use Rattle.mls_tables.specs.declared.limits.TheConstants.{MAX_OBJECTS};
ghost use Rattle.mls_start.specs.TripleLists.{row_below, rows_below};
ghost use Rattle.mls_start.specs.Sources.{HasCounts};
ghost use Rattle.mls_state.specs.Tables.{triples_of};

use crate::counts::Counts;
use crate::start_builder::cells::drop_repeats;
use mls_state::{State, Table};
use mls_tables::{MAX_OBJECTS, Mode, ObjectId, SubjectId};
use std::alloc::{AllocError, Allocator};

/// Adds a triple, where it is there.
fn push_triple<A: Allocator>(
    triples: &mut Vec<(SubjectId, ObjectId, Mode), A>,
    triple: (SubjectId, ObjectId, Mode),
    there: bool,
) -> Result<(), AllocError>
    ensures { OnOk result (triples.new.items ≡ triples.old.items ++ (if there then triple ∷ [] else [])) }
{
    if there {
        triples.push(triple)?;
    }
    Ok(())
}

/// Adds the triples of a subject and an object, in the order of modes.
fn push_cell<A: Allocator>(
    triples: &mut Vec<(SubjectId, ObjectId, Mode), A>,
    state: &State<A>,
    table: Table,
    s: SubjectId,
    o: ObjectId,
) -> Result<(), AllocError>
    ensures { OnOk result
        (triples.new.items ≡ triples.old.items ++ accesses_at (triples_of table state.now) s o) }
{
    let modes = table.modes(state, s, o);
    push_triple(triples, (s, o, Mode::Execute), modes.has(Mode::Execute))?;
    push_triple(triples, (s, o, Mode::Read), modes.has(Mode::Read))?;
    push_triple(triples, (s, o, Mode::Append), modes.has(Mode::Append))?;
    push_triple(triples, (s, o, Mode::Write), modes.has(Mode::Write))?;
    Ok(())
}

/// Adds the triples of a subject, by object.
fn push_row<A: Allocator>(
    triples: &mut Vec<(SubjectId, ObjectId, Mode), A>,
    state: &State<A>,
    table: Table,
    s: SubjectId,
) -> Result<(), AllocError>
    ensures { OnOk result
        (triples.new.items ≡ triples.old.items ++ row_below (triples_of table state.now) s MAX_OBJECTS) }
{
    for o in 0..MAX_OBJECTS {
        push_cell(triples, state, table, s, ObjectId(o))?;
    }
    Ok(())
}

/// Adds the triples of a table, by subject.
fn push_table<A: Allocator>(
    triples: &mut Vec<(SubjectId, ObjectId, Mode), A>,
    state: &State<A>,
    table: Table,
    subjects: u16,
) -> Result<(), AllocError>
    ensures { OnOk result (triples.new.items
        ≡ triples.old.items ++ rows_below (triples_of table state.now) subjects MAX_OBJECTS) }
{
    for s in 0..subjects {
        push_row(triples, state, table, SubjectId(s))?;
    }
    Ok(())
}

/// How many triples a table has. It allocates room for them, and gives it back.
#[tactic(auto, using(crate::proofs::TripleLists::counted))]
fn count_table<A: Allocator>(alloc: A, state: &State<A>, table: Table) -> Result<usize, AllocError>
    ensures { IfOk result (λ count. count ≡ set.len (triples_of table state.now)) }
{
    state.agrees();
    let mut triples = Vec::new(alloc);
    push_table(&mut triples, state, table, state.subject_count())?;
    drop_repeats(&mut triples);
    Ok(triples.len())
}

/// How many triples the matrix permits, and how many are current accesses.
pub(crate) fn count_triples<A: Allocator + Clone>(
    alloc: &A,
    state: &State<A>,
) -> Result<Counts, AllocError>
    ensures { IfOk result (λ counts. HasCounts state.now counts) }
{
    let cells = count_table(alloc.clone()?, state, Table::Matrix)?;
    let accesses = count_table(alloc.clone()?, state, Table::Accesses)?;
    Ok(Counts { cells, accesses })
}
