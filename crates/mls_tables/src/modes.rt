//! Sets of modes.
ghost use Rattle.std.specs.Prelude.{◌≡◌, ◌<◌, ◌↔◌, IsTrue};
ghost use Rattle.std.specs.FinSet as set;
ghost use Rattle.mls_tables.specs.ModeBits.{modes_of};

use crate::mode::Mode;
use std::marker::Model;

/// A set of modes.
#[derive(Clone, Copy, Debug)]
pub struct Modes {
    bits: u8,
}

impl Model for Modes {
    ghost use Rattle.std.specs.Prelude.{◌<◌, refl};
    ghost use Rattle.mls_facts.proofs.Keys.{bits_of_keys-keys_of_bits};
    ghost use Rattle.mls_tables.specs.Mode.{ModeSet, mode_set_code, mode_number, all_modes};
    ghost use Rattle.mls_tables.specs.ModeBits.{modes_of, bits_of};

    ghost Value = { ModeSet };

    ghost coded = { mode_set_code };

    ghost view = { λ a. modes_of a.bits };

    ghost invariant = { λ a. a.bits < 16 };

    ghost inverse = { λ s. record { bits = bits_of s } };

    ghost inverse_ok = { λ a h i. record {
      bits = bits_of_keys-keys_of_bits mode_number all_modes 4 a.bits refl refl h i;
    } };
}

impl Modes {
    /// No mode.
    pub fn empty() -> Modes
        ensures { result ≡ set.empty }
    {
        Modes { bits: 0 }
    }

    /// Whether the mode is in the set.
    pub fn has(self, x: Mode) -> bool
        ensures { result ≡ set.contains self x }
    {
        self.bits >> x.number() & 1 == 1
    }

    /// The set with a mode added.
    pub fn with(self, x: Mode) -> Modes
        ensures { result ≡ set.insert self x }
    {
        Modes {
            bits: self.bits | 1 << x.number(),
        }
    }

    /// The set with a mode removed.
    pub fn without(self, x: Mode) -> Modes
        ensures { result ≡ set.remove self x }
    {
        Modes {
            bits: self.bits & !(1 << x.number()),
        }
    }

    /// Whether no mode is in the set.
    pub fn is_empty(self) -> bool
        ensures { IsTrue result ↔ (self ≡ set.empty) }
    {
        self.bits == 0
    }

    /// The set of the modes whose bits are 1, where only the four low ones are.
    pub(crate) fn from_bits(bits: u8) -> Modes
        requires { bits < 16 }
        ensures { result ≡ modes_of bits }
    {
        Modes { bits }
    }

    /// The four bits of the set.
    pub(crate) fn bits(self) -> u8
        ensures modes { modes_of result ≡ self }
        ensures four { result < 16 }
    {
        self.bits
    }
}
