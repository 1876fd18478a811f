//! What two starts both have, but otherwise.
ghost use Rattle.std.specs.Prelude.{◌≡◌, ◌∷◌, ◌++◌, [], OnOk};
ghost use Rattle.mls_differences.specs.ChangeForms.{change_word};

use crate::side::Area;
use mls_labels::{IntLabel, SecLabel};
use mls_tables::{ObjectId, SubjectId};
use mls_tree::Profile;
use std::alloc::AllocError;

/// What two starts both have, but otherwise: the first start's first. Subjects and objects have the first's numbers,
/// except the parent in the second start.
#[derive(Clone, Copy)]
pub(crate) enum Change {
    Profile(Profile, Profile),
    /// The order of the levels that both have.
    Levels(Area),
    Maximum(SubjectId, SecLabel, SecLabel),
    Current(SubjectId, SecLabel, SecLabel),
    /// The integrity of a subject.
    Own(SubjectId, IntLabel, IntLabel),
    /// Whether a subject is trusted.
    Trusted(SubjectId, bool, bool),
    /// The parent of an object.
    Parent(ObjectId, ObjectId, ObjectId),
    /// The parent that the root of the first start has in the second.
    Placed(ObjectId, ObjectId),
    /// The parent that the root of the second start has in the first.
    Freed(ObjectId, ObjectId),
    Security(ObjectId, SecLabel, SecLabel),
    /// The integrity of an object.
    Integrity(ObjectId, IntLabel, IntLabel),
}

impl Change {
    /// The word for what differs.
    pub(crate) fn word(&self) -> &'static str
        ensures { result.now ≡ change_word self.now }
    {
        match self {
            Change::Profile(_, _) => "profile",
            Change::Levels(_) => "levels",
            Change::Maximum(_, _, _) => "maximum",
            Change::Current(_, _, _) => "current",
            Change::Own(_, _, _) | Change::Integrity(_, _, _) => "integrity",
            Change::Trusted(_, _, _) => "trusted",
            Change::Parent(_, _, _) | Change::Placed(_, _) | Change::Freed(_, _) => "parent",
            Change::Security(_, _, _) => "security",
        }
    }
}

/// Adds a row.
pub(crate) fn push_change(rows: &mut Vec<Change>, change: Change) -> Result<(), AllocError>
    ensures { OnOk result (rows.new.items ≡ rows.old.items ++ change ∷ []) }
{
    rows.push(change)?;
    Ok(())
}
