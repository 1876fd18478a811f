//! States of rows.
ghost use Rattle.std.specs.Prelude.{◌≡◌, ◌<◌, ℕ, Some, None, false, IsTrue, IsSome, IfSome, IfOk, OnOk, All};
ghost use Rattle.std.specs.Prelude.{slice_index_or};
ghost use Rattle.std.specs.FinMap as map;
ghost use Rattle.std.specs.FinSet as set;
ghost use Rattle.mls_tables.specs.declared.limits.TheConstants.{MAX_OBJECTS};
ghost use Rattle.mls_state.specs.First.{with_triples};
ghost use Rattle.mls_state.specs.Properties.{HasTree, HasWholeTables, is_known};
ghost use Rattle.mls_state.specs.State.{State as StateView, is_active};
ghost use Rattle.mls_snapshots.specs.Rebuilding.{IsNamed, AreObjectsOf, IsPart, IsBelow};
ghost use Rattle.mls_snapshots.specs.Saying.{SaysAll};

use crate::state_line::ObjectParts;
use crate::state_rows::StateRows;
use mls_lines::Names;
use mls_state::{ObjectLabels, State};
use mls_tables::{MAX_OBJECTS, MAX_SUBJECTS, Mode, ObjectId, SubjectId};
use std::alloc::{AllocError, Global};

/// The root.
const ROOT: ObjectId = ObjectId(0);

/// What is said of an object.
fn said_of(objects: &[Option<ObjectParts>], o: ObjectId) -> Option<ObjectParts>
    ensures { result ≡ slice_index_or objects.now o None }
{
    match objects.get(o.number() as usize) {
        Some(said) => *said,
        None => None,
    }
}

/// Adds an object below another, where that one is active and the object isn't.
fn add_below(
    state: &mut State,
    o: ObjectId,
    parent: ObjectId,
    labels: &ObjectLabels,
) -> Result<(), AllocError>
    ensures part { OnOk result ((v : StateView) → HasTree v → IsBelow v o labels.now parent
        → IsPart v state.old → IsPart v state.new) }
    ensures kept { OnOk result ((q : ℕ) → IsTrue (is_active state.old q) → IsTrue (is_active state.new q)) }
    ensures there { OnOk result
        (o < MAX_OBJECTS → IsTrue (is_active state.old parent) → IsTrue (is_active state.new o)) }
{
    if o.number() >= MAX_OBJECTS || state.is_active(o) || !state.is_active(parent) {
        return Ok(());
    }
    state.add_object_at(o, parent, &labels.security, &labels.integrity)?;
    Ok(())
}

/// Adds an object that rows say below its parent, where that is active and the object isn't. Returns whether it did.
fn add_said(
    state: &mut State,
    objects: &[Option<ObjectParts>],
    o: ObjectId,
) -> Result<bool, AllocError>
    ensures part { OnOk result ((v : StateView) → AreObjectsOf v objects.now
        → IsPart v state.old → IsPart v state.new) }
    ensures kept { OnOk result ((q : ℕ) → IsTrue (is_active state.old q) → IsTrue (is_active state.new q)) }
    ensures there { OnOk result ((v : StateView) → AreObjectsOf v objects.now
        → (p : ℕ) → map.get v.parent o ≡ Some p → IsTrue (is_active state.old p) → IsTrue (is_active state.new o)) }
    ensures same { IfOk result (λ added. added ≡ false → state.new ≡ state.old) }
{
    if state.is_active(o) {
        return Ok(false);
    }
    let Some(parts) = said_of(objects, o) else {
        return Ok(false);
    };
    let Some(parent) = parts.parent else {
        return Ok(false);
    };
    if !state.is_active(parent) {
        return Ok(false);
    }
    add_below(state, o, parent, &parts.labels)?;
    Ok(true)
}

/// Adds each object that rows say below its parent, where that is active. Returns whether one was added.
fn add_each(state: &mut State, objects: &[Option<ObjectParts>]) -> Result<bool, AllocError>
    ensures part { OnOk result ((v : StateView) → AreObjectsOf v objects.now
        → IsPart v state.old → IsPart v state.new) }
    ensures kept { OnOk result ((q : ℕ) → IsTrue (is_active state.old q) → IsTrue (is_active state.new q)) }
    ensures there { OnOk result ((v : StateView) → AreObjectsOf v objects.now
        → (o p : ℕ) → map.get v.parent o ≡ Some p → IsTrue (is_active state.old p) → IsTrue (is_active state.new o)) }
    ensures same { IfOk result (λ added. added ≡ false → state.new ≡ state.old) }
{
    let mut is_any = false;
    for n in 0..MAX_OBJECTS {
        let added = add_said(state, objects, ObjectId::new(n))?;
        if added {
            is_any = true;
        }
    }
    Ok(is_any)
}

/// Adds all objects that rows say. A parent may have a greater number than its child, so rows are gone through again as
/// long as one is added: a row of text may say any parent, and no way up is walked by calls.
fn place_all(state: &mut State, objects: &[Option<ObjectParts>]) -> Result<(), AllocError>
    ensures part { OnOk result ((v : StateView) → AreObjectsOf v objects.now
        → IsPart v state.old → IsPart v state.new) }
    ensures all { OnOk result ((v : StateView) → AreObjectsOf v objects.now → IsPart v state.old
        → (o : ℕ) → IsTrue (is_active v o) → IsTrue (is_active state.new o)) }
{
    for _n in 0..MAX_OBJECTS {
        let added = add_each(state, objects)?;
        if !added {
            return Ok(());
        }
    }
    Ok(())
}

/// Puts a triple into the matrix, where it names what is there.
fn give_known(state: &mut State, cell: &(SubjectId, ObjectId, Mode))
    ensures known { IsTrue (is_known state.old cell.now)
        → state.new ≡ record state.old { matrix = set.insert state.old.matrix cell.now } }
    ensures rest { state.new ≡ record state.old { matrix = state.new.matrix } }
{
    if !state.is_subject(cell.0) {
        return;
    }
    if !state.is_active(cell.1) {
        return;
    }
    state.give(cell.0, cell.1, cell.2);
}

/// Adds a current access, where it names what is there.
fn access_known(state: &mut State, triple: &(SubjectId, ObjectId, Mode)) -> Result<(), AllocError>
    ensures known { OnOk result (IsTrue (is_known state.old triple.now)
        → state.new ≡ record state.old { accesses = set.insert state.old.accesses triple.now }) }
    ensures rest { OnOk result (state.new ≡ record state.old { accesses = state.new.accesses }) }
{
    if !state.is_subject(triple.0) {
        return Ok(());
    }
    if !state.is_active(triple.1) {
        return Ok(());
    }
    state.put_access(triple.0, triple.1, triple.2)?;
    Ok(())
}

/// Puts triples into the matrix, as far as they name what is there.
fn give_each(state: &mut State, cells: &[(SubjectId, ObjectId, Mode)])
    ensures { All (λ t. IsTrue (is_known state.old t)) cells.now
        → state.new ≡ record state.old { matrix = with_triples state.old.matrix cells.now } }
{
    for cell in cells {
        give_known(state, cell);
    }
}

/// Adds current accesses, as far as they name what is there.
fn access_each(state: &mut State, triples: &[(SubjectId, ObjectId, Mode)]) -> Result<(), AllocError>
    ensures { OnOk result (All (λ t. IsTrue (is_known state.old t)) triples.now
        → state.new ≡ record state.old { accesses = with_triples state.old.accesses triples.now }) }
{
    for triple in triples {
        access_known(state, triple)?;
    }
    Ok(())
}

/// Adds the objects that rows say, and takes the numbers below their next one as used.
fn add_objects(state: &mut State, rows: &StateRows) -> Result<(), AllocError>
    ensures { OnOk result ((v : StateView) → HasTree v → HasWholeTables v → SaysAll v rows.now
        → IsPart v state.old → state.new ≡ record v { accesses = set.empty; matrix = set.empty }) }
{
    place_all(state, &rows.objects)?;
    let next = rows.next;
    if next > MAX_OBJECTS {
        return Ok(());
    }
    state.agrees();
    state.skip_to(next)?;
    Ok(())
}

/// Adds what rows say behind the subjects and the root.
fn complete(state: &mut State, rows: &StateRows) -> Result<(), AllocError>
    ensures { OnOk result ((v : StateView) → HasTree v → HasWholeTables v → SaysAll v rows.now
        → IsPart v state.old → state.new ≡ v) }
{
    add_objects(state, rows)?;
    give_each(state, &rows.cells);
    access_each(state, &rows.accesses)?;
    Ok(())
}

/// The state of the subjects and the root of rows, if these are as many as a state has.
fn first_state(alloc: Global, names: &Names, rows: &StateRows) -> Result<Option<State>, AllocError>
    ensures some { (v : StateView) → IsNamed names.now v → SaysAll v rows.now → IfOk result (λ begun. IsSome begun) }
    ensures part { (v : StateView) → IsNamed names.now v → SaysAll v rows.now
        → IfOk result (λ begun. IfSome begun (λ u. IsPart v u)) }
{
    let count = rows.subjects.len();
    if count == 0 {
        return Ok(None);
    }
    if count > MAX_SUBJECTS as usize {
        return Ok(None);
    }
    let Some(root) = said_of(&rows.objects, ROOT) else {
        return Ok(None);
    };
    let bounds = (names.security().bounds(), names.integrity().bounds());
    let state = State::first(
        alloc,
        &rows.subjects,
        root.labels,
        bounds.0,
        bounds.1,
        rows.profile,
    )?;
    Ok(Some(state))
}

/// The state that rows say, if they say all of one; any other where they don't.
pub(crate) fn rebuild(
    alloc: Global,
    names: &Names,
    rows: &StateRows,
) -> Result<Option<State>, AllocError>
    ensures { (v : StateView) → IsNamed names.now v → SaysAll v rows.now
        → IfOk result (λ rebuilt. rebuilt ≡ Some v) }
{
    let Some(mut state) = first_state(alloc, names, rows)? else {
        return Ok(None);
    };
    match complete(&mut state, rows) {
        Ok(()) => Ok(Some(state)),
        Err(AllocError) => {
            drop(state);
            Err(AllocError)
        }
    }
}
