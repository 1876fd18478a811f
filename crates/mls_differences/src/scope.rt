//! What of a comparison is asked for.

/// What of a comparison is asked for, of all that differs.
#[derive(Clone, Copy)]
pub struct Scope {
    /// Only what the first start grants and the second doesn't.
    pub broken: bool,
    /// How much it is, in place of rows.
    pub summary: bool,
}
