//! What a start is given of an object.

use mls_state::ObjectLabels;
use mls_tables::ObjectId;

/// An object below the root: its parent and its labels.
#[derive(Clone, Copy, Debug)]
pub struct ObjectRow {
    pub parent: ObjectId,
    pub labels: ObjectLabels,
}
