//! Who may get what of an object.
ghost use Rattle.std.specs.Prelude.{◌≡◌, ◌++◌, ◌<◌, ◌&&◌, ℕ, All, IsTrue, IfOk, OnOk, [], ◌∷◌, if◌then◌else◌, nat_lt};
ghost use Rattle.std.specs.FinSet as set;
ghost use Rattle.mls_state.specs.State.{is_subject, is_active};
ghost use Rattle.mls_rules.specs.Rules.{reply};
ghost use Rattle.mls_explain.specs.Remedy.{get_request};
ghost use Rattle.mls_explain.specs.Ways.{IsWay};
ghost use Rattle.mls_explain.specs.Prospects.{permitted_modes, permitted_pairs, pairs_of, IsProspect};

use crate::prospect::Prospect;
use crate::releasing::way_of;
use mls_requests::{Action, Request};
use mls_rules::decide;
use mls_state::State;
use mls_tables::{Mode, Modes, ObjectId, SubjectId};
use std::alloc::{AllocError, Allocator};

/// What the get of a subject in a mode would be answered, and what it would take of the subject alone. It doesn't
/// allocate.
pub fn prospect_of<A: Allocator>(state: &State<A>, s: SubjectId, o: ObjectId, x: Mode) -> Prospect
    ensures subject { result.subject ≡ s }
    ensures mode { result.mode ≡ x }
    ensures is { IsProspect state.now o result }
{
    let request = Request {
        subject: s,
        action: Action::Get(x, o),
    };
    Prospect {
        subject: s,
        mode: x,
        reply: decide(state, &request),
        way: way_of(state, s, o, x),
    }
}

/// Adds what a subject may get in a mode, where the matrix permits it and it is asked for.
fn push_mode<B: Allocator, A: Allocator>(
    found: &mut Vec<Prospect, B>,
    state: &State<A>,
    s: SubjectId,
    o: ObjectId,
    asked: Modes,
    x: Mode,
) -> Result<(), AllocError>
    requires subject { IsTrue (is_subject state.now s) }
    requires object { IsTrue (is_active state.now o) }
    requires each { All (IsProspect state.now o) found.old.items }
    ensures pairs { OnOk result (pairs_of found.new.items ≡ pairs_of found.old.items
        ++ (if set.contains asked x && set.contains state.now.matrix (s, o, x) then (s, x) ∷ [] else [])) }
    ensures each { All (IsProspect state.now o) found.new.items }
{
    if asked.has(x) && state.allowed(s, o).has(x) {
        found.push(prospect_of(state, s, o, x))?;
    }
    Ok(())
}

/// Adds what a subject may get of the object.
fn push_subject<B: Allocator, A: Allocator>(
    found: &mut Vec<Prospect, B>,
    state: &State<A>,
    s: SubjectId,
    o: ObjectId,
    asked: Modes,
) -> Result<(), AllocError>
    requires subject { IsTrue (is_subject state.now s) }
    requires object { IsTrue (is_active state.now o) }
    requires each { All (IsProspect state.now o) found.old.items }
    ensures pairs { OnOk result
        (pairs_of found.new.items ≡ pairs_of found.old.items ++ permitted_modes state.now o asked s) }
    ensures each { All (IsProspect state.now o) found.new.items }
{
    push_mode(found, state, s, o, asked, Mode::Execute)?;
    push_mode(found, state, s, o, asked, Mode::Read)?;
    push_mode(found, state, s, o, asked, Mode::Append)?;
    push_mode(found, state, s, o, asked, Mode::Write)?;
    Ok(())
}

/// What subjects may get of an active object: just the pairs of a subject and a mode, of the modes that are asked for,
/// that the matrix permits, by subject and mode, each with its reply and what it would take of the subject alone.
///
/// # Errors
/// `AllocError` where an allocation failed.
pub fn prospects<B: Allocator, A: Allocator>(
    alloc: B,
    state: &State<A>,
    o: ObjectId,
    asked: Modes,
) -> Result<Vec<Prospect, B>, AllocError>
    requires { IsTrue (is_active state.now o) }
    ensures pairs { IfOk result (λ found. (count : ℕ) → ((s : ℕ) → is_subject state.now s ≡ nat_lt s count)
        → pairs_of found.items ≡ permitted_pairs state.now o asked count) }
    ensures each { IfOk result (λ found. All (IsProspect state.now o) found.items) }
{
    let mut found = Vec::new(alloc);
    for n in 0..state.subject_count() {
        push_subject(&mut found, state, SubjectId::new(n), o, asked)?;
    }
    Ok(found)
}
