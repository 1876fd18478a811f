//! The numbers of subjects and objects.
ghost use Rattle.std.specs.Prelude.{◌≡◌};

use std::marker::Model;

/// The number of a subject. Every `u16` is a value, whether or not the subject is known.
#[derive(Clone, Copy, Debug, PartialEq, Eq)]
pub struct SubjectId(pub u16);

impl Model for SubjectId {
    ghost use Rattle.std.specs.Prelude.{ℕ};

    ghost Value = { ℕ };

    ghost view = { λ a. a.0 };

    ghost inverse = { λ n. record { 0 = n } };
}

impl SubjectId {
    /// The subject of this number.
    pub fn new(number: u16) -> SubjectId
        ensures { result ≡ number }
    {
        SubjectId(number)
    }

    /// The subject's number.
    pub fn number(self) -> u16
        ensures { result ≡ self }
    {
        self.0
    }
}

/// The number of an object. Every `u16` is a value, whether or not the object is active. The root is 0.
#[derive(Clone, Copy, Debug, PartialEq, Eq)]
pub struct ObjectId(pub u16);

impl Model for ObjectId {
    ghost use Rattle.std.specs.Prelude.{ℕ};

    ghost Value = { ℕ };

    ghost view = { λ a. a.0 };

    ghost inverse = { λ n. record { 0 = n } };
}

impl ObjectId {
    /// The object of this number.
    pub fn new(number: u16) -> ObjectId
        ensures { result ≡ number }
    {
        ObjectId(number)
    }

    /// The object's number.
    pub fn number(self) -> u16
        ensures { result ≡ self }
    {
        let ObjectId(number) = self;
        number
    }
}
