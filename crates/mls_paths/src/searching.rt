//! The search: breadth first, from an object, each place once.
ghost use Rattle.std.specs.Prelude.{◌≡◌, ◌+◌, ◌<◌, IsTrue, IfOk, OnOk, false, replicate, set, true};
ghost use Rattle.mls_state.specs.State.{is_active};
ghost use Rattle.mls_flows.specs.declared.place.Place.TheVariants.{Object};
ghost use Rattle.mls_paths.specs.declared.numbering.TheConstants.{PLACES};
ghost use Rattle.mls_paths.specs.Found.{IsFlow};
ghost use Rattle.mls_paths.specs.Hands.{acts_of, AreTakers, Hands, IsGround};
ghost use Rattle.mls_paths.specs.Searching.{IsSearch, Visits, Expands};

use crate::ground::Ground;
use crate::numbering::{PLACES, place_of};
use crate::passing::pass;
use crate::reached::{Came, Reached};
use mls_flows::Place;
use mls_rules::State;
use mls_tables::{MAX_SUBJECTS, ObjectId, SubjectId};
use std::alloc::{AllocError, Global};

/// Adds the place of a number, where it isn't there yet and content comes to it by one hand from the place at an index.
fn visit(
    found: &mut Vec<Reached>,
    marked: &mut Vec<bool>,
    state: &State,
    ground: Ground<'_>,
    takers: &[Option<(SubjectId, ObjectId)>],
    at: usize,
    from: &Reached,
    n: u16,
) -> Result<(), AllocError>
    requires ground { IsGround state.now ground }
    requires takers { AreTakers state.now (acts_of ground) takers.now }
    requires search { IsSearch (Hands state.now ground) found.old.items marked.old.items at from.now }
    requires number { n < PLACES }
    ensures { OnOk result
        (Visits (Hands state.now ground.entry) found.old.items found.new.items marked.new.items at from.now n) }
{
    if marked[n as usize] {
        return Ok(());
    }
    let place = place_of(n);
    if let Some(hand) = pass(state, ground, takers, &from.place, &place) {
        marked[n as usize] = true;
        let came = Some(Came { before: at, hand });
        let steps = from.steps + 1;
        found.push(Reached { place, steps, came })?;
    }
    Ok(())
}

/// Adds the places that aren't there yet and to which content comes by one hand from the place at an index.
fn expand(
    found: &mut Vec<Reached>,
    marked: &mut Vec<bool>,
    state: &State,
    ground: Ground<'_>,
    takers: &[Option<(SubjectId, ObjectId)>],
    at: usize,
    from: &Reached,
) -> Result<(), AllocError>
    requires ground { IsGround state.now ground }
    requires takers { AreTakers state.now (acts_of ground) takers.now }
    requires search { IsSearch (Hands state.now ground) found.old.items marked.old.items at from.now }
    ensures { OnOk result
        (Expands (Hands state.now ground.entry) found.old.items found.new.items marked.new.items at from.now PLACES) }
{
    for n in 0..PLACES {
        visit(found, marked, state, ground, takers, at, from, n)?;
    }
    Ok(())
}

/// Marks of all places, of which just that of a number is set.
fn first_marks(alloc: Global, n: u16) -> Result<Vec<bool>, AllocError>
    requires { n < PLACES }
    ensures { IfOk result (λ marks. marks.items ≡ set (replicate PLACES false) n true) }
{
    let mut marks = Vec::from_elem(alloc, false, PLACES as usize)?;
    marks[n as usize] = true;
    Ok(marks)
}

/// The places that content could reach from an object, breadth first: from each place that was found, in turn, by the
/// numbers of the places to which it comes.
pub(crate) fn search(
    alloc: Global,
    state: &State,
    ground: Ground<'_>,
    takers: &[Option<(SubjectId, ObjectId)>],
    from: ObjectId,
) -> Result<Vec<Reached>, AllocError>
    requires ground { IsGround state.now ground }
    requires takers { AreTakers state.now (acts_of ground) takers.now }
    requires object { IsTrue (is_active state.now from) }
    ensures { IfOk result (λ found. IsFlow (Hands state.now ground.entry) (Object from) found.items) }
{
    state.agrees();
    let _ = state.subject_count();
    let mut marked = first_marks(alloc, MAX_SUBJECTS + from.number())?;
    let mut found = Vec::new(alloc);
    found.push(Reached {
        place: Place::Object(from),
        steps: 0,
        came: None,
    })?;
    let mut at = 0;
    while at < found.len() {
        let place = found[at];
        expand(&mut found, &mut marked, state, ground, takers, at, &place)?;
        at += 1;
    }
    drop(marked);
    Ok(found)
}
