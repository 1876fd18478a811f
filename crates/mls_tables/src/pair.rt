//! Two cells in a byte.
ghost use Rattle.std.specs.Prelude.{◌≡◌, not};
ghost use Rattle.std.specs.FinSet as set;
ghost use Rattle.mls_tables.specs.Cells.{half, no_pair};

use crate::mode::Mode;
use crate::modes::Modes;

/// The cells of two subjects whose numbers follow one another, the first of them even: its modes are the four low bits,
/// those of the odd one the four high bits.
#[derive(Clone, Copy)]
pub(crate) struct Pair {
    bits: u8,
}

impl Pair {
    /// Two empty cells.
    pub(crate) fn empty() -> Pair
        ensures { result ≡ no_pair }
    {
        Pair { bits: 0 }
    }

    /// The cell of the odd subject, or that of the even one.
    #[tactic(auto, using(crate::proofs::Pairs::half_odd, crate::proofs::Pairs::half_even))]
    pub(crate) fn half(self, odd: bool) -> Modes
        ensures { result ≡ half self odd }
    {
        if odd {
            Modes::from_bits(self.bits / 16)
        } else {
            Modes::from_bits(self.bits % 16)
        }
    }

    /// The pair with these modes as one of its cells.
    #[tactic(auto, using(crate::proofs::Pairs::written_halves))]
    fn with_half(self, odd: bool, modes: Modes) -> Pair
        ensures own { half result odd ≡ modes }
        ensures other { half result (not odd) ≡ half self (not odd) }
    {
        let bits = modes.bits();
        if odd {
            Pair {
                bits: self.bits % 16 + bits * 16,
            }
        } else {
            Pair {
                bits: self.bits / 16 * 16 + bits,
            }
        }
    }

    /// The pair with a mode added to one of its cells.
    pub(crate) fn with(self, odd: bool, x: Mode) -> Pair
        ensures own { half result odd ≡ set.insert (half self odd) x }
        ensures other { half result (not odd) ≡ half self (not odd) }
    {
        self.with_half(odd, self.half(odd).with(x))
    }

    /// The pair with a mode removed from one of its cells.
    pub(crate) fn without(self, odd: bool, x: Mode) -> Pair
        ensures own { half result odd ≡ set.remove (half self odd) x }
        ensures other { half result (not odd) ≡ half self (not odd) }
    {
        self.with_half(odd, self.half(odd).without(x))
    }
}
