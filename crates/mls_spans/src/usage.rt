//! Permissions, and how they were used.
ghost use Rattle.std.specs.Prelude.{◌≡◌, ◌++◌, ◌||◌, is_some, IfOk, OnOk};
ghost use Rattle.mls_spans.specs.Uses.{is_permitted as is_permitted_in, is_unused as is_unused_in};
ghost use Rattle.mls_spans.specs.Uses.{accesses_on, accesses_by, all_accesses, usage_by as usage_in};
ghost use Rattle.mls_spans.specs.Kept.{usage_where, usages_told};

use crate::following::is_held;
use crate::tally::Tally;
use crate::tallying::is_permitted;
use crate::uses::Uses;
use mls_rules::State;
use mls_tables::{MAX_OBJECTS, MAX_SUBJECTS, Mode, ObjectId, SubjectId};
use std::alloc::{AllocError, Global};

/// A permission, and how it was used.
#[derive(Clone, Copy, Debug)]
pub struct Usage {
    pub access: (SubjectId, ObjectId, Mode),
    /// Whether the first state has it as a current access: it was granted before.
    pub is_held: bool,
    pub uses: Uses,
}

impl Usage {
    /// Whether it was never granted: no get of it, nor before.
    pub fn is_unused(&self) -> bool
        ensures { result ≡ is_unused_in self.now }
    {
        !self.is_held && self.uses.granted == 0
    }
}

/// The usage of an access, with what is told of its uses.
fn usage_by(first: &State, access: (SubjectId, ObjectId, Mode), uses: Uses) -> Usage
    ensures { result ≡ usage_in first.now access uses }
{
    Usage {
        access,
        is_held: is_held(first, &access),
        uses,
    }
}

/// Whether an access is a permission: the first state permits it, or something is kept of it.
fn is_there(first: &State, access: &(SubjectId, ObjectId, Mode), found: &Option<Uses>) -> bool
    ensures { result ≡ (is_permitted_in first.now access.now || is_some found.now) }
{
    is_permitted(first, access) || found.is_some()
}

/// Adds the usage of an access, where it is a permission.
fn push_access(
    usages: &mut Vec<Usage>,
    first: &State,
    tally: &Tally,
    access: (SubjectId, ObjectId, Mode),
) -> Result<(), AllocError>
    ensures { OnOk result (usages.new.items ≡ usages.old.items ++ usage_where first.now tally.now access) }
{
    let found = tally.at(&access);
    if !is_there(first, &access, &found) {
        return Ok(());
    }
    let usage = usage_by(first, access, Uses::told(found));
    usages.push(usage)?;
    Ok(())
}

/// Adds the usages of a subject's permissions on an object, in the order of modes.
fn push_object(
    usages: &mut Vec<Usage>,
    first: &State,
    tally: &Tally,
    s: SubjectId,
    o: ObjectId,
) -> Result<(), AllocError>
    ensures { OnOk result
        (usages.new.items ≡ usages.old.items ++ usages_told first.now tally.now (accesses_on s o)) }
{
    push_access(usages, first, tally, (s, o, Mode::Execute))?;
    push_access(usages, first, tally, (s, o, Mode::Read))?;
    push_access(usages, first, tally, (s, o, Mode::Append))?;
    push_access(usages, first, tally, (s, o, Mode::Write))?;
    Ok(())
}

/// Adds the usages of a subject's permissions, by object.
fn push_subject(
    usages: &mut Vec<Usage>,
    first: &State,
    tally: &Tally,
    s: SubjectId,
) -> Result<(), AllocError>
    ensures { OnOk result
        (usages.new.items ≡ usages.old.items ++ usages_told first.now tally.now (accesses_by first.now s)) }
{
    if !first.is_subject(s) {
        return Ok(());
    }
    for o in 0..MAX_OBJECTS {
        push_object(usages, first, tally, s, ObjectId(o))?;
    }
    Ok(())
}

/// The usages of all permissions, by subject, object and mode.
pub(crate) fn usages_by(
    alloc: Global,
    first: &State,
    tally: &Tally,
) -> Result<Vec<Usage>, AllocError>
    ensures { IfOk result (λ usages. usages.items ≡ usages_told first.now tally.now (all_accesses first.now)) }
{
    let mut usages = Vec::new(alloc);
    for s in 0..MAX_SUBJECTS {
        push_subject(&mut usages, first, tally, SubjectId(s))?;
    }
    Ok(usages)
}
