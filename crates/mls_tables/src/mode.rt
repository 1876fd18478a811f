//! The modes of access.
ghost use Rattle.std.specs.Prelude.{◌≡◌};
ghost use Rattle.mls_tables.specs.Mode.{observes, alters, uses, mode_number};

/// How a subject accesses an object: the four modes of MTR-2997.
#[derive(Clone, Copy, Debug, PartialEq, Eq)]
pub enum Mode {
    /// Neither observes nor alters.
    Execute,
    /// Observes.
    Read,
    /// Alters.
    Append,
    /// Observes and alters.
    Write,
}

impl Mode {
    /// Whether the mode lets its holder see the object.
    pub fn observes(self) -> bool
        ensures { result ≡ observes self }
    {
        matches!(self, Mode::Read | Mode::Write)
    }

    /// Whether the mode lets its holder change the object.
    pub fn alters(self) -> bool
        ensures { result ≡ alters self }
    {
        matches!(self, Mode::Append | Mode::Write)
    }

    /// Whether the mode takes something from the object, which for integrity counts as observing it.
    pub fn uses(self) -> bool
        ensures { result ≡ uses self }
    {
        !matches!(self, Mode::Append)
    }

    /// The place of the mode in the order of modes, below 4.
    pub(crate) fn number(self) -> u8
        ensures { result ≡ mode_number self }
    {
        match self {
            Mode::Execute => 0,
            Mode::Read => 1,
            Mode::Append => 2,
            Mode::Write => 3,
        }
    }
}
