//! All that two starts have otherwise, section by section.
ghost use Rattle.std.specs.Prelude.{◌≡◌, IfOk};
ghost use Rattle.mls_differences.specs.Changes.{changes};
ghost use Rattle.mls_differences.specs.Differences.{AreDifferences};
ghost use Rattle.mls_differences.specs.Gets.{gets_rows};
ghost use Rattle.mls_differences.specs.Singles.{singles};

use crate::change::Change;
use crate::get_row::GetRow;
use crate::gets::push_gets;
use crate::heads::push_heads;
use crate::objects::push_objects;
use crate::only::push_only;
use crate::shared::Shared;
use crate::single::Single;
use crate::subjects::push_subjects;
use crate::tables::push_tables;
use mls_lines::Names;
use mls_rules::State;
use std::alloc::{AllocError, Global};

/// All that two starts have otherwise, as rows.
#[derive(Drop)]
pub(crate) struct Differences {
    /// What both have, but otherwise.
    pub changes: Vec<Change>,
    /// What one of them alone has.
    pub singles: Vec<Single>,
    /// The gets that they answer otherwise.
    pub gets: Vec<GetRow>,
}

/// What two starts both have, but otherwise.
fn changes(
    alloc: Global,
    names: (&Names, &Names),
    states: (&State, &State),
    subjects: &[Shared],
    objects: &[Shared],
) -> Result<Vec<Change>, AllocError>
    ensures { IfOk result (λ rows. rows.items ≡ changes names.entry.0.now names.entry.1.now
        states.entry.0.now states.entry.1.now subjects.now objects.now) }
{
    let mut rows = Vec::new(alloc);
    push_heads(alloc, &mut rows, names, states)?;
    push_subjects(alloc, &mut rows, names, states, subjects)?;
    push_objects(alloc, &mut rows, names, states, objects)?;
    Ok(rows)
}

/// What one of two starts alone has.
fn singles(
    alloc: Global,
    names: (&Names, &Names),
    states: (&State, &State),
    subjects: &[Shared],
    objects: &[Shared],
) -> Result<Vec<Single>, AllocError>
    ensures { IfOk result (λ rows. rows.items ≡ singles names.entry.0.now names.entry.1.now
        states.entry.0.now states.entry.1.now subjects.now objects.now) }
{
    let mut rows = Vec::new(alloc);
    push_tables(&mut rows, states, subjects, objects)?;
    push_only(alloc, &mut rows, names)?;
    Ok(rows)
}

/// The gets that two starts answer otherwise.
fn gets(
    alloc: Global,
    states: (&State, &State),
    subjects: &[Shared],
    objects: &[Shared],
) -> Result<Vec<GetRow>, AllocError>
    ensures { IfOk result (λ rows. rows.items
        ≡ gets_rows states.entry.0.now states.entry.1.now subjects.now objects.now) }
{
    let mut rows = Vec::new(alloc);
    push_gets(&mut rows, states, subjects, objects)?;
    Ok(rows)
}

/// All that two starts with these names and states have otherwise, of which these are the subjects and the objects that
/// they share.
pub(crate) fn all_differences(
    alloc: Global,
    names: (&Names, &Names),
    states: (&State, &State),
    subjects: &[Shared],
    objects: &[Shared],
) -> Result<Differences, AllocError>
    ensures { IfOk result (λ found. AreDifferences names.entry.0.now names.entry.1.now
        states.entry.0.now states.entry.1.now subjects.now objects.now found) }
{
    let changes = changes(alloc, names, states, subjects, objects)?;
    let singles = singles(alloc, names, states, subjects, objects)?;
    let gets = gets(alloc, states, subjects, objects)?;
    Ok(Differences {
        changes,
        singles,
        gets,
    })
}
