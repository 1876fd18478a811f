//! Members of a start file that are set to other texts.
ghost use Rattle.std.specs.Prelude.{◌≡◌, IfSome};
ghost use Rattle.std.specs.Str.{bytes_eq};
ghost use Rattle.mls_settings.specs.Settings.{member_word, read_member, setting_word};

/// A member of a subject or of an object.
#[derive(Clone, Copy, Debug, PartialEq, Eq)]
pub enum Member {
    /// A subject's maximum label.
    Maximum,
    /// A subject's current label.
    Current,
    /// The integrity label of a subject, or of an object.
    Integrity,
    /// Whether a subject is trusted.
    Trusted,
    /// An object's security label.
    Security,
}

impl Member {
    /// All of them, in the order in which a word is looked for.
    const ALL: [Member; 5] = [
        Member::Maximum,
        Member::Current,
        Member::Integrity,
        Member::Trusted,
        Member::Security,
    ];

    /// The word of the member.
    pub fn word(self) -> &'static str
        ensures { result.now ≡ member_word self }
    {
        match self {
            Member::Maximum => "maximum",
            Member::Current => "current",
            Member::Integrity => "integrity",
            Member::Trusted => "trusted",
            Member::Security => "security",
        }
    }

    /// Whether this is its word.
    fn is_named(self, word: &str) -> bool
        ensures { result ≡ bytes_eq word.now (member_word self) }
    {
        word == self.word()
    }

    /// The member that has this word, where one has it.
    fn read(word: &str) -> Option<Member>
        ensures { result ≡ read_member word.now }
    {
        Member::ALL
            .iter()
            .find(|member| member.is_named(word))
            .copied()
    }
}

/// A member of the subject or the object of a name, and the text that it is set to.
#[derive(Clone, Copy, Debug)]
pub struct Setting<'a> {
    pub name: &'a str,
    pub member: Member,
    pub value: &'a str,
}

/// Whether a text can be the value of a member, whatever the labels are.
fn is_value(member: Member, value: &str) -> bool {
    match member {
        Member::Trusted => value == "true" || value == "false",
        Member::Maximum | Member::Current | Member::Integrity | Member::Security => true,
    }
}

impl<'a> Setting<'a> {
    /// The setting of a word: a name, a dot, the word of a member, `=` and a value; that of `trusted` is `true` or
    /// `false`.
    pub fn read(word: &'a str) -> Option<Setting<'a>>
        ensures { IfSome result (λ setting. word.now ≡ setting_word setting) }
    {
        let (name, rest) = word.split_once('.')?;
        let (member, value) = rest.split_once('=')?;
        let member = Member::read(member)?;
        if !is_value(member, value) {
            return None;
        }
        Some(Setting {
            name,
            member,
            value,
        })
    }
}
