//! The permissions on an object.
ghost use Rattle.std.specs.Prelude.{◌≡◌, ◌++◌, ◌&&◌, ◌∷◌, [], filter, IfOk, OnOk};
ghost use Rattle.std.specs.FinSet as set;
ghost use Rattle.mls_spans.specs.Permissions.{accesses_of, accesses_to};
ghost use Rattle.mls_spans.specs.Kept.{is_there as is_there_in};

use crate::tally::Tally;
use crate::tallying::is_permitted;
use mls_rules::State;
use mls_tables::{MAX_SUBJECTS, Mode, Modes, ObjectId, SubjectId};
use std::alloc::{AllocError, Global};

/// Whether an access is a permission: the first state permits it, or something is kept of it.
fn is_there(first: &State, tally: &Tally, access: &(SubjectId, ObjectId, Mode)) -> bool
    ensures { result ≡ is_there_in first.now tally.now access.now }
{
    is_permitted(first, access) || tally.at(access).is_some()
}

/// Adds an access, where it is asked for and a permission.
fn push_mode(
    found: &mut Vec<(SubjectId, ObjectId, Mode)>,
    first: &State,
    tally: &Tally,
    asked: Modes,
    access: (SubjectId, ObjectId, Mode),
) -> Result<(), AllocError>
    ensures { OnOk result (found.new.items ≡ found.old.items
        ++ filter (is_there_in first.now tally.now) (filter (λ t. set.contains asked t.2) (access ∷ []))) }
{
    if asked.has(access.2) && is_there(first, tally, &access) {
        found.push(access)?;
    }
    Ok(())
}

/// Adds the permissions of a subject, in the order of modes.
fn push_subject(
    found: &mut Vec<(SubjectId, ObjectId, Mode)>,
    first: &State,
    tally: &Tally,
    asked: Modes,
    s: SubjectId,
    o: ObjectId,
) -> Result<(), AllocError>
    ensures { OnOk result (found.new.items ≡ found.old.items
        ++ filter (is_there_in first.now tally.now) (accesses_of first.now asked o s)) }
{
    if !first.is_subject(s) {
        return Ok(());
    }
    push_mode(found, first, tally, asked, (s, o, Mode::Execute))?;
    push_mode(found, first, tally, asked, (s, o, Mode::Read))?;
    push_mode(found, first, tally, asked, (s, o, Mode::Append))?;
    push_mode(found, first, tally, asked, (s, o, Mode::Write))?;
    Ok(())
}

/// The permissions on an object in the modes that are asked for, by subject and mode.
pub(crate) fn permissions_on(
    alloc: Global,
    first: &State,
    tally: &Tally,
    asked: Modes,
    o: ObjectId,
) -> Result<Vec<(SubjectId, ObjectId, Mode)>, AllocError>
    ensures { IfOk result (λ found. found.items
        ≡ filter (is_there_in first.now tally.now) (accesses_to first.now asked o)) }
{
    let mut found = Vec::new(alloc);
    for s in 0..MAX_SUBJECTS {
        push_subject(&mut found, first, tally, asked, SubjectId(s), o)?;
    }
    Ok(found)
}
