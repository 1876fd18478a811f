//! For whom an object could be made, through which it gets content.
ghost use Rattle.std.specs.Prelude.{◌≡◌, ◌↔◌, IsTrue, IfOk, slice_get};
ghost use Rattle.mls_tables.specs.declared.limits.TheConstants.{MAX_OBJECTS};
ghost use Rattle.mls_state.specs.State.{is_subject, is_active};
ghost use Rattle.mls_paths.specs.Hands.{acts_of, AreTakers, AreWriters, IsFit, IsGround, TakesBelow, TakesBy};
ghost use Rattle.mls_paths.specs.Hands.{WritesBy, entry_of};

use crate::ground::{Ground, could, is_actor};
use mls_rules::State;
use mls_tables::{MAX_OBJECTS, Mode, ObjectId, SubjectId};
use std::alloc::{AllocError, Global};

/// The first actor that could get write of an object, where there is one.
fn writer_of(state: &State, ground: Ground<'_>, o: ObjectId) -> Option<SubjectId>
    requires { IsGround state.now ground }
    ensures { WritesBy state.now (acts_of ground.entry) o result }
{
    for n in 0..state.subject_count() {
        let s = SubjectId::new(n);
        if could(state, ground, s, o, Mode::Write) {
            return Some(s);
        }
    }
    None
}

/// Of each object, by number, an actor that could get write of it, where there is one.
fn writers(
    alloc: Global,
    state: &State,
    ground: Ground<'_>,
) -> Result<Vec<Option<SubjectId>>, AllocError>
    requires { IsGround state.now ground }
    ensures { IfOk result (λ writers. AreWriters state.now (acts_of ground.entry) writers.items MAX_OBJECTS) }
{
    let mut writers = Vec::new(alloc);
    for n in 0..MAX_OBJECTS {
        let writer = writer_of(state, ground, ObjectId::new(n));
        writers.push(writer)?;
    }
    Ok(writers)
}

/// Whether a subject acts, and an object that is made below this one fits it.
fn is_fit(state: &State, ground: Ground<'_>, t: SubjectId, parent: ObjectId) -> bool
    requires ground { IsGround state.now ground }
    requires subject { IsTrue (is_subject state.now t) }
    requires object { IsTrue (is_active state.now parent) }
    ensures { IsTrue result ↔ IsFit state.now (acts_of ground.entry) t parent }
{
    let integrity = state.subject_integrity(t);
    let label = state.object_label(parent);
    is_actor(ground.actors, t)
        && state.object_integrity(parent).dominates(&integrity)
        && (ground.trusted || state.maximum(t).dominates(&label))
}

/// Who could get write of an object, by a table.
fn writer_at(writers: &[Option<SubjectId>], o: ObjectId) -> Option<SubjectId>
    ensures { result ≡ entry_of (slice_get writers.now o) }
{
    match writers.get(o.number() as usize) {
        Some(writer) => *writer,
        None => None,
    }
}

/// Who could make an object for a subject below this one, where somebody could.
fn maker_below(
    state: &State,
    ground: Ground<'_>,
    writers: &[Option<SubjectId>],
    t: SubjectId,
    parent: ObjectId,
) -> Option<SubjectId>
    requires ground { IsGround state.now ground }
    requires writers { AreWriters state.now (acts_of ground) writers.now MAX_OBJECTS }
    requires subject { IsTrue (is_subject state.now t) }
    ensures { TakesBelow state.now (acts_of ground.entry) t parent result }
{
    state.agrees();
    if !state.is_active(parent) {
        return None;
    }
    if !is_fit(state, ground, t, parent) {
        return None;
    }
    writer_at(writers, parent)
}

/// Who could make an object for a subject, and below which, where somebody could: below that of the least number.
fn taker_of(
    state: &State,
    ground: Ground<'_>,
    writers: &[Option<SubjectId>],
    t: SubjectId,
) -> Option<(SubjectId, ObjectId)>
    requires ground { IsGround state.now ground }
    requires writers { AreWriters state.now (acts_of ground) writers.now MAX_OBJECTS }
    requires subject { IsTrue (is_subject state.now t) }
    ensures { TakesBy state.now (acts_of ground.entry) t result }
{
    state.agrees();
    for n in 0..MAX_OBJECTS {
        let parent = ObjectId::new(n);
        if let Some(maker) = maker_below(state, ground, writers, t, parent) {
            return Some((maker, parent));
        }
    }
    None
}

/// Of each known subject, by number, who could make an object for it, and below which, where somebody could.
fn takers_by(
    alloc: Global,
    state: &State,
    ground: Ground<'_>,
    writers: &[Option<SubjectId>],
) -> Result<Vec<Option<(SubjectId, ObjectId)>>, AllocError>
    requires ground { IsGround state.now ground }
    requires writers { AreWriters state.now (acts_of ground) writers.now MAX_OBJECTS }
    ensures { IfOk result (λ takers. AreTakers state.now (acts_of ground.entry) takers.items) }
{
    let mut takers = Vec::new(alloc);
    for n in 0..state.subject_count() {
        let taker = taker_of(state, ground, writers, SubjectId::new(n));
        takers.push(taker)?;
    }
    Ok(takers)
}

/// Of each known subject, by number, who could make an object for it, and below which, where somebody could. It looks
/// at each subject with each object twice.
pub(crate) fn takers(
    alloc: Global,
    state: &State,
    ground: Ground<'_>,
) -> Result<Vec<Option<(SubjectId, ObjectId)>>, AllocError>
    requires { IsGround state.now ground }
    ensures { IfOk result (λ takers. AreTakers state.now (acts_of ground.entry) takers.items) }
{
    let writers = writers(alloc, state, ground)?;
    let takers = takers_by(alloc, state, ground, &writers);
    drop(writers);
    takers
}
