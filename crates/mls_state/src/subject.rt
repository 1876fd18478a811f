//! What the monitor knows of a subject and of an object.

use mls_labels::{IntLabel, SecLabel};

/// What is known of a subject.
#[derive(Clone, Copy, Debug)]
pub struct Subject {
    pub maximum: SecLabel,
    pub current: SecLabel,
    pub integrity: IntLabel,
    pub trusted: bool,
}

/// The labels of an object.
#[derive(Clone, Copy, Debug)]
pub struct ObjectLabels {
    pub security: SecLabel,
    pub integrity: IntLabel,
}
