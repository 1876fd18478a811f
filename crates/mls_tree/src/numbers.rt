//! Sets of object numbers, a bit each.
ghost use Rattle.std.specs.Prelude.{◌≡◌, ◌≢◌, ℕ, ◌<◌, ◌≤◌, min, IfOk, length, slice_index_or};
ghost use Rattle.std.specs.FinSet as set;
ghost use Rattle.mls_tables.specs.declared.limits.TheConstants.{MAX_OBJECTS};
ghost use Rattle.mls_facts.specs.Least.{least_failing};
ghost use Rattle.mls_tree.specs.Words.{full_word, IsFirstOpen, IsLowestZero};

use mls_tables::MAX_OBJECTS;
use std::alloc::{AllocError, Allocator, Global};
use std::marker::Model;

/// The first word from a place on that isn't full, where those before the place are.
fn first_open(words: &[u64], from: usize) -> usize
    requires within { from ≤ length words.now }
    requires before { (i : ℕ) → i < from → slice_index_or words.now i 0 ≡ full_word }
    ensures { IsFirstOpen words.now result }
{
    let mut at = from;
    while at < words.len() && words[at] == u64::MAX {
        at += 1;
    }
    at
}

/// The first word that isn't full, where that was `place` and a number of the word at `freed` was taken out.
fn earlier_open(freed: usize, place: usize) -> usize
    ensures { result ≡ min freed place }
{
    if freed < place { freed } else { place }
}

/// The place of the lowest bit that is 0, in a word that isn't full.
fn lowest_zero(word: u64) -> u16
    requires { word ≢ full_word }
    ensures { IsLowestZero word result }
{
    word.trailing_ones() as u16
}

/// A set of object numbers: 64 words, with a bit for each number, and the place of the first word that isn't full.
#[derive(Drop)]
pub(crate) struct Numbers<A: Allocator = Global> {
    words: Vec<u64, A>,
    place: usize,
}

impl<A: Allocator> Model for Numbers<A> {
    ghost use Rattle.std.specs.Ordering.{nat_cmp};
    ghost use Rattle.std.specs.FinSet as set;
    ghost use Rattle.std.specs.Coded.{coded_ℕ};
    ghost use Rattle.mls_tree.specs.Words.{numbers_of, IsWords};

    ghost Value = { set.FinSet nat_cmp };

    ghost coded = { set.code coded_ℕ };

    ghost view = { λ a. numbers_of a.words.items };

    ghost invariant = { λ a. IsWords a.words.items a.place };
}

impl<A: Allocator> Numbers<A> {
    /// The set without a number.
    ///
    /// # Errors
    /// Where allocation fails.
    pub(crate) fn new(alloc: A) -> Result<Numbers<A>, AllocError>
        ensures { IfOk result (λ s. s ≡ set.empty) }
    {
        let words = Vec::from_elem(alloc, 0u64, 64)?;
        Ok(Numbers { words, place: 0 })
    }

    /// A copy of the set.
    ///
    /// # Errors
    /// Where allocation fails.
    pub(crate) fn duplicate(&self, alloc: A) -> Result<Numbers<A>, AllocError>
        ensures { IfOk result (λ s. s ≡ self.now) }
    {
        let words = Vec::from_slice(alloc, &self.words)?;
        Ok(Numbers {
            words,
            place: self.place,
        })
    }

    /// Adds a number.
    pub(crate) fn insert(&mut self, n: u16)
        requires { n < MAX_OBJECTS }
        ensures { self.new ≡ set.insert self.old n }
    {
        let at = n as usize / 64;
        self.words[at] |= 1 << (n % 64);
        self.place = first_open(&self.words, self.place);
    }

    /// Takes a number out.
    pub(crate) fn remove(&mut self, n: u16)
        requires { n < MAX_OBJECTS }
        ensures { self.new ≡ set.remove self.old n }
    {
        let at = n as usize / 64;
        self.words[at] &= !(1 << (n % 64));
        self.place = earlier_open(at, self.place);
    }

    /// The least number that isn't in the set, 4,096 where all are.
    pub(crate) fn least_free(&self) -> u16
        ensures { result ≡ least_failing (set.contains self.now) MAX_OBJECTS 0 }
    {
        let place = self.place;
        if place >= self.words.len() {
            return MAX_OBJECTS;
        }
        place as u16 * 64 + lowest_zero(self.words[place])
    }
}
