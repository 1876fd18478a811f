//! Numbers of places: those of subjects, and behind them those of objects.
ghost use Rattle.std.specs.Prelude.{◌≡◌};
ghost use Rattle.mls_paths.specs.Numbering.{place_of};

use mls_flows::Place;
use mls_tables::{MAX_OBJECTS, MAX_SUBJECTS, ObjectId, SubjectId};

/// How many places there can be.
pub const PLACES: u16 = MAX_SUBJECTS + MAX_OBJECTS;

/// The place of a number.
pub fn place_of(n: u16) -> Place
    ensures { result ≡ place_of n }
{
    if n < MAX_SUBJECTS {
        return Place::Subject(SubjectId::new(n));
    }
    Place::Object(ObjectId::new(n - MAX_SUBJECTS))
}
