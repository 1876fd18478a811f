//! Requests.

use crate::action::Action;
use mls_tables::SubjectId;

/// An action and the subject that asks for it.
#[derive(Clone, Copy, Debug, PartialEq, Eq)]
pub struct Request {
    pub subject: SubjectId,
    pub action: Action,
}
