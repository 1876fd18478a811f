//! What becomes of an access.
ghost use Rattle.std.specs.Prelude.{◌≡◌};
ghost use Rattle.mls_could.specs.Words.{future_word, is_open};

/// What becomes of an access over all futures.
#[derive(Clone, Copy, Debug)]
pub enum Future {
    /// It is held now.
    Held,
    /// It isn't held, and could come about.
    Could,
    /// It isn't held, and never comes about.
    Never,
}

impl Future {
    /// Its word.
    pub fn word(self) -> &'static str
        ensures { result.now ≡ future_word self }
    {
        match self {
            Future::Held => "held",
            Future::Could => "could",
            Future::Never => "never",
        }
    }

    /// Whether the access is held or could be.
    pub fn is_open(self) -> bool
        ensures { result ≡ is_open self }
    {
        !matches!(self, Future::Never)
    }
}
