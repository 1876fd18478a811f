//! What subjects may change.
ghost use Rattle.std.specs.Prelude.{◌≡◌};
ghost use Rattle.mls_review.specs.Granted.{change_view};
ghost use Rattle.mls_review.specs.PowerRows.{granted_to};

use crate::power::Power;
use crate::relabeling::Relabeling;
use mls_labels::SecLabel;
use mls_tables::{ObjectId, SubjectId};

/// What a subject may change.
#[derive(Drop)]
pub enum Change {
    /// An object, by a power over it.
    Over(SubjectId, Power, ObjectId),
    /// Its own label, or that of an object, to one of these, of which there is at least one.
    Labels(SubjectId, Relabeling, Vec<SecLabel>),
}

impl Change {
    /// Who may change it.
    pub fn subject(&self) -> SubjectId
        ensures { result ≡ granted_to (change_view self.now) }
    {
        match self {
            Change::Over(s, _, _) | Change::Labels(s, _, _) => *s,
        }
    }
}
