//! Requests that two starts answer otherwise, as they are counted.
use mls_requests::Reply;
use mls_tables::SubjectId;

/// A request that two starts answer otherwise, as it is counted: the subject that asks it, by its number in the first
/// start, and both replies.
#[derive(Clone, Copy)]
pub struct Case {
    pub subject: SubjectId,
    /// The first start's reply.
    pub first: Reply,
    pub second: Reply,
}
