//! Four words of 64 bits, a bit for each category.
ghost use Rattle.std.specs.Prelude.{◌≡◌, ◌<◌, ℕ, IfNone, IfSome};
ghost use Rattle.mls_labels.specs.CategoryBits.{word_at, put, is_word_below, are_below, are_same, IsFirst};

/// Four words: category `n` has bit `n % 64` of word `n / 64`, counted from the first.
#[derive(Clone, Copy, Debug)]
pub(crate) struct Words {
    pub(crate) first: u64,
    pub(crate) second: u64,
    pub(crate) third: u64,
    pub(crate) fourth: u64,
}

/// Whether the bits of a word that are 1 are among its `count` lowest ones. Most words of most labels have none.
fn is_word_below(word: u64, count: u16) -> bool
    ensures { result ≡ is_word_below word count }
{
    if word == 0 {
        return true;
    }
    count >= 64 || word < 1 << count
}

impl Words {
    /// The word in a place, counted from 0.
    pub(crate) fn word(self, place: u8) -> u64
        requires { place < 4 }
        ensures { result ≡ word_at self place }
    {
        match place {
            0 => self.first,
            1 => self.second,
            2 => self.third,
            _ => self.fourth,
        }
    }

    /// The words with another one in a place, counted from 0.
    pub(crate) fn put(self, place: u8, word: u64) -> Words
        requires { place < 4 }
        ensures { result ≡ put self place word }
    {
        match place {
            0 => Words {
                first: word,
                second: self.second,
                third: self.third,
                fourth: self.fourth,
            },
            1 => Words {
                first: self.first,
                second: word,
                third: self.third,
                fourth: self.fourth,
            },
            2 => Words {
                first: self.first,
                second: self.second,
                third: word,
                fourth: self.fourth,
            },
            _ => Words {
                first: self.first,
                second: self.second,
                third: self.third,
                fourth: word,
            },
        }
    }

    /// The place of the first word that isn't 0; `None` where all are 0.
    pub(crate) fn first_place(self) -> Option<u8>
        ensures none { IfNone result ((k : ℕ) → word_at self k ≡ 0) }
        ensures first { IfSome result (λ place. IsFirst self place) }
    {
        if self.first != 0 {
            Some(0)
        } else if self.second != 0 {
            Some(1)
        } else if self.third != 0 {
            Some(2)
        } else if self.fourth != 0 {
            Some(3)
        } else {
            None
        }
    }

    /// Whether the bits that are 1 are all those of categories less than `n`.
    pub(crate) fn are_below(self, n: u16) -> bool
        ensures { result ≡ are_below self n }
    {
        is_word_below(self.first, n)
            && is_word_below(self.second, n.saturating_sub(64))
            && is_word_below(self.third, n.saturating_sub(128))
            && is_word_below(self.fourth, n.saturating_sub(192))
    }

    /// Whether these are the same words as four others.
    pub(crate) fn are_same(self, other: Words) -> bool
        ensures { result ≡ are_same self other }
    {
        self.first == other.first
            && self.second == other.second
            && self.third == other.third
            && self.fourth == other.fourth
    }
}
