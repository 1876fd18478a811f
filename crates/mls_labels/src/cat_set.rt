//! Sets of categories.
ghost use Rattle.std.specs.Prelude.{◌≡◌, ◌∷◌, nat_lt, IfNone, IfSome};
ghost use Rattle.std.specs.FinSet as set;
ghost use Rattle.mls_facts.specs.Each.{each};
ghost use Rattle.mls_labels.specs.Ascending.{ascending};
ghost use Rattle.mls_labels.specs.CategoryBits.{categories_in, words_in};

use crate::words::Words;
use std::marker::Model;

/// A set of categories, each a number from 0 to 255.
#[derive(Clone, Copy, Debug)]
pub struct CatSet {
    words: Words,
}

impl Model for CatSet {
    ghost use Rattle.std.specs.Ordering.{nat_cmp};
    ghost use Rattle.std.specs.Prelude.{refl};
    ghost use Rattle.std.specs.FinSet as set;
    ghost use Rattle.std.specs.Coded.{coded_ℕ};
    ghost use Rattle.mls_facts.proofs.Words.{number_of-word, fits_first, fits_second, fits_third, fits_fourth};
    ghost use Rattle.mls_labels.specs.CategoryBits.{AreWide, categories_of, word_at, words_of};

    ghost Value = { set.FinSet nat_cmp };

    ghost coded = { set.code coded_ℕ };

    ghost view = { λ a. categories_of a.words };

    ghost invariant = { λ a. AreWide a.words };

    ghost inverse = { λ s. record { words = words_of s } };

    ghost inverse_ok = { λ a h i. record {
      words = record {
        first = number_of-word (word_at a.words) 256 0 a.words.first refl h.first fits_first i;
        second = number_of-word (word_at a.words) 256 1 a.words.second refl h.second fits_second i;
        third = number_of-word (word_at a.words) 256 2 a.words.third refl h.third fits_third i;
        fourth = number_of-word (word_at a.words) 256 3 a.words.fourth refl h.fourth fits_fourth i;
      };
    } };
}

impl CatSet {
    /// The set without a category.
    #[tactic(auto, using(crate::proofs::CategoryWords::no_words))]
    pub fn empty() -> CatSet
        ensures { result ≡ set.empty }
    {
        CatSet {
            words: Words {
                first: 0,
                second: 0,
                third: 0,
                fourth: 0,
            },
        }
    }

    /// The set of four words: category `n` is in it where bit `n % 64` of word `n / 64` is 1.
    #[tactic(auto, using(crate::proofs::CategoryWords::listed_words))]
    pub fn from_words(words: [u64; 4]) -> CatSet
        ensures { result ≡ categories_in words }
    {
        CatSet {
            words: Words {
                first: words[0],
                second: words[1],
                third: words[2],
                fourth: words[3],
            },
        }
    }

    /// The four words of the set, as [`from_words`](CatSet::from_words) reads them.
    #[tactic(auto, using(crate::proofs::CategoryWords::words_back))]
    pub fn words(self) -> [u64; 4]
        ensures { result ≡ words_in self }
    {
        let words = self.words;
        [words.first, words.second, words.third, words.fourth]
    }

    /// Whether category `n` is in the set.
    #[tactic(auto, using(crate::proofs::CategoryWords::contains_word))]
    pub fn contains(self, n: u8) -> bool
        ensures { result ≡ set.contains self n }
    {
        self.words.word(n / 64) >> (n % 64) & 1 == 1
    }

    /// The set with category `n` added; the same set where it is there already.
    #[tactic(auto, using(crate::proofs::CategoryWords::with_word, crate::proofs::CategoryWords::with_fits))]
    pub fn with(self, n: u8) -> CatSet
        ensures { result ≡ set.insert self n }
    {
        let place = n / 64;
        let word = self.words.word(place) | 1 << (n % 64);
        CatSet {
            words: self.words.put(place, word),
        }
    }

    /// Whether each category of this set is in `other`.
    #[tactic(auto, using(crate::proofs::CategoryWords::subset_words))]
    pub fn is_subset(self, other: &CatSet) -> bool
        ensures { result ≡ set.is_subset self other.now }
    {
        let (a, b) = (self.words, other.words);
        let low = (a.first & !b.first) | (a.second & !b.second);
        let high = (a.third & !b.third) | (a.fourth & !b.fourth);
        low | high == 0
    }

    /// Takes the least category out of the set; `None` where the set is empty.
    pub fn pop_first(&mut self) -> Option<u8>
        ensures none { IfNone result (self.old ≡ set.empty) }
        ensures empty { IfNone result (self.new ≡ set.empty) }
        ensures first { IfSome result (λ first. ascending self.old ≡ first ∷ ascending self.new) }
    {
        let words = self.words;
        let Some(place) = words.first_place() else {
            return None;
        };
        let word = words.word(place);
        let bit = word.trailing_zeros();
        self.words = words.put(place, word & !(1 << bit));
        Some(place * 64 + bit as u8)
    }

    /// Whether each category of the set is less than `n`.
    #[tactic(auto, using(crate::proofs::CategoryWords::words_below))]
    pub(crate) fn all_below(self, n: u16) -> bool
        ensures { result ≡ each self (λ q. nat_lt q n) }
    {
        self.words.are_below(n)
    }
}

impl PartialEq for CatSet {
    ghost use Rattle.std.specs.Cmp.{nat_cmp_total, partial_equiv_from_equiv};
    ghost use Rattle.std.specs.FinSet.{nat_cmp-IsAntisymmetric};
    ghost use Rattle.mls_facts.proofs.Sets.{is_same_set_laws};
    ghost use Rattle.mls_labels.specs.Same.{same_categories};

    ghost eq = { same_categories };

    ghost laws = { partial_equiv_from_equiv (is_same_set_laws nat_cmp_total nat_cmp-IsAntisymmetric) };

    #[tactic(auto, using(crate::proofs::CategoryWords::same_words))]
    fn eq(&self, other: &CatSet) -> bool {
        self.words.are_same(other.words)
    }
}

impl Eq for CatSet {
    ghost use Rattle.std.specs.Cmp.{nat_cmp_total};
    ghost use Rattle.std.specs.FinSet.{nat_cmp-IsAntisymmetric};
    ghost use Rattle.mls_facts.proofs.Sets.{is_same_set_laws};

    ghost laws = { is_same_set_laws nat_cmp_total nat_cmp-IsAntisymmetric };
}
