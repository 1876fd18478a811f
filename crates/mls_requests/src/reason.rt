//! Why a request is denied, and the word for it.
ghost use Rattle.std.specs.Prelude.{◌≡◌, ◌<◌};
ghost use Rattle.std.specs.Str.{bytes_eq};
ghost use Rattle.mls_requests.specs.ReasonWords.{reason_word, reason_place, read_reason};

/// Why a request is denied: the first condition of its rule that fails.
#[derive(Clone, Copy, Debug, PartialEq, Eq)]
pub enum Reason {
    /// The matrix doesn't permit the access.
    Discretionary,
    /// The subject's maximum label doesn't dominate the object's label.
    Simple,
    /// The access would go the wrong way between the subject's current label and the object's.
    Star,
    /// The access would go the wrong way between the integrity labels.
    Integrity,
    /// The subject has no authority over the object.
    Authority,
    /// A child's labels wouldn't fit its parent's.
    Compatibility,
    /// The new current label is above the subject's maximum.
    Ceiling,
    /// The root can't be deleted.
    Root,
    /// All object numbers are used.
    Full,
}

impl Reason {
    /// All of them, in the order in which a word is looked for.
    const ALL: [Reason; 9] = [
        Reason::Discretionary,
        Reason::Simple,
        Reason::Star,
        Reason::Integrity,
        Reason::Authority,
        Reason::Compatibility,
        Reason::Ceiling,
        Reason::Root,
        Reason::Full,
    ];

    /// Its place in the order of reasons.
    pub fn place(self) -> u16
        ensures place { result ≡ reason_place self }
        ensures few { result < 9 }
    {
        self as u16
    }

    /// The word of the reason.
    pub fn word(self) -> &'static str
        ensures { result.now ≡ reason_word self }
    {
        match self {
            Reason::Discretionary => "discretionary",
            Reason::Simple => "simple",
            Reason::Star => "star",
            Reason::Integrity => "integrity",
            Reason::Authority => "authority",
            Reason::Compatibility => "compatibility",
            Reason::Ceiling => "ceiling",
            Reason::Root => "root",
            Reason::Full => "full",
        }
    }

    /// Whether this is its word.
    fn is_named(self, word: &[u8]) -> bool
        ensures { result ≡ bytes_eq word.now (reason_word self) }
    {
        word == self.word().as_bytes()
    }

    /// The reason that has this word, where one has it.
    pub fn read(word: &[u8]) -> Option<Reason>
        ensures { result ≡ read_reason word.now }
    {
        Reason::ALL
            .iter()
            .find(|reason| reason.is_named(word))
            .copied()
    }
}
