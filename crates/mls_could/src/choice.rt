//! Whom a question has act.

/// Which subjects act.
#[derive(Clone, Copy, Debug)]
pub enum Choice {
    /// All that are not trusted.
    Untrusted,
    /// All.
    All,
    /// Those that words name.
    Named,
    /// All but those that words name.
    Others,
}
