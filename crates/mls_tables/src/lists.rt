//! Lists in one piece of memory: each has a stretch of it, and moves to a longer one at the end when its own is full.
ghost use Rattle.std.specs.Prelude.{◌≡◌, ℕ, ◌<◌, ◌≤◌, ◌++◌, [], ◌∷◌, length, slice_set, slice_index_or, IfOk, OnOk};
ghost use Rattle.std.specs.Prelude.{OnErr, ◌+◌};
ghost use Rattle.mls_tables.specs.declared.limits.TheConstants.{MAX_OBJECTS};
ghost use Rattle.mls_tables.specs.Rows.{cut, entered, left, IsInRange};

use crate::span::{Span, roomy, shorten, widen};
use std::alloc::{AllocError, Allocator, Global};
use std::marker::Model;

/// A list of lists.
#[derive(Drop)]
pub struct Lists<T, A: Allocator = Global> {
    spans: Vec<Span, A>,
    store: Vec<T, A>,
}

impl<T, A: Allocator> Model for Lists<T, A> {
    ghost use Rattle.mls_tables.specs.Rooms.{Rooms, rooms_code};

    ghost Value = { Rooms T };

    ghost coded = { rooms_code T.code };

    ghost use Rattle.std.specs.Prelude.{map};
    ghost use Rattle.mls_tables.specs.Lists.{list_at, IsLaidOut};

    ghost view = { λ a. record {
      lists = map (list_at a.store.items) a.spans.items;
      rooms = map (λ s. s.room) a.spans.items;
    } };

    ghost invariant = { λ a. IsLaidOut a.spans.items a.store.items };
}

impl<T: Copy, A: Allocator> Lists<T, A> {
    /// One of the lists.
    pub fn list(&self, i: usize) -> &[T]
        requires { i < length self.now.lists }
        ensures { result.now ≡ slice_index_or self.now.lists i [] }
    {
        let span = self.spans[i];
        &self.store[span.start..span.start + span.len]
    }

    /// Adds an empty list. It has no room yet.
    ///
    /// # Errors
    /// Where allocation fails. The lists are then unchanged.
    pub(crate) fn add_list(&mut self) -> Result<(), AllocError>
        ensures ok { OnOk result (self.new.lists ≡ self.old.lists ++ [] ∷ []) }
        ensures err { OnErr result (self.new.lists ≡ self.old.lists) }
    {
        self.spans.push(Span {
            start: 0,
            len: 0,
            room: 0,
        })?;
        Ok(())
    }

    /// Makes sure that there is a list at a place which is at most that of the next. What is added is empty.
    ///
    /// # Errors
    /// Where allocation fails. The lists are then unchanged.
    pub fn ensure_list(&mut self, next: usize) -> Result<(), AllocError>
        requires { next ≤ length self.old.lists }
        ensures room { OnOk result (next < length self.new.lists) }
        ensures longer { length self.old.lists ≤ length self.new.lists }
        ensures same { (i : ℕ) → slice_index_or self.new.lists i [] ≡ slice_index_or self.old.lists i [] }
    {
        if self.spans.len() == next {
            self.add_list()?;
        }
        Ok(())
    }

    /// Makes sure that a list of at most 4,096 has room for one more. The item fills the room.
    ///
    /// # Errors
    /// Where allocation fails.
    pub(crate) fn make_room(&mut self, i: usize, x: T) -> Result<(), AllocError>
        requires list { i < length self.old.lists }
        requires few { length (slice_index_or self.old.lists i []) ≤ MAX_OBJECTS }
        ensures same { self.new.lists ≡ self.old.lists }
        ensures room { OnOk result (length (slice_index_or self.new.lists i []) < slice_index_or self.new.rooms i 0) }
    {
        let span = self.spans[i];
        let found = roomy(&mut self.store, span, x)?;
        self.spans[i] = found;
        Ok(())
    }

    /// Enters an item into a list that has room for it, at the place where a search missed it.
    pub(crate) fn enter(&mut self, i: usize, place: Result<usize, usize>, x: T)
        requires list { i < length self.old.lists }
        requires place { IsInRange place (length (slice_index_or self.old.lists i [])) }
        requires room { length (slice_index_or self.old.lists i []) < slice_index_or self.old.rooms i 0 }
        ensures { self.new.lists ≡ slice_set self.old.lists i (entered (slice_index_or self.old.lists i []) place x) }
    {
        let span = self.spans[i];
        if let Err(k) = place {
            let longer = widen(&mut self.store, span, k, x);
            self.spans[i] = longer;
        }
    }

    /// Adds an item at the end of a list of at most 4,096.
    ///
    /// # Errors
    /// Where allocation fails. The lists are then unchanged.
    pub fn push(&mut self, i: usize, x: T) -> Result<(), AllocError>
        requires list { i < length self.old.lists }
        requires few { length (slice_index_or self.old.lists i []) ≤ MAX_OBJECTS }
        ensures ok { OnOk result
            (self.new.lists ≡ slice_set self.old.lists i (slice_index_or self.old.lists i [] ++ x ∷ [])) }
        ensures err { OnErr result (self.new.lists ≡ self.old.lists) }
    {
        self.make_room(i, x)?;
        let end = self.list(i).len();
        self.enter(i, Err(end), x);
        Ok(())
    }

    /// Takes so many items at a place out of a list.
    pub(crate) fn cut(&mut self, i: usize, k: usize, count: usize)
        requires list { i < length self.old.lists }
        requires place { k + count ≤ length (slice_index_or self.old.lists i []) }
        ensures { self.new.lists ≡ slice_set self.old.lists i (cut (slice_index_or self.old.lists i []) k count) }
    {
        let span = self.spans[i];
        let shorter = shorten(&mut self.store, span, k, count);
        self.spans[i] = shorter;
    }

    /// Takes an item out of a list, at the place where a search found it.
    pub(crate) fn leave(&mut self, i: usize, place: Result<usize, usize>)
        requires list { i < length self.old.lists }
        requires place { IsInRange place (length (slice_index_or self.old.lists i [])) }
        ensures { self.new.lists ≡ slice_set self.old.lists i (left (slice_index_or self.old.lists i []) place) }
    {
        if let Ok(k) = place {
            self.cut(i, k, 1);
        }
    }

    /// Empties a list.
    pub fn clear(&mut self, i: usize)
        requires { i < length self.old.lists }
        ensures { self.new.lists ≡ slice_set self.old.lists i [] }
    {
        let span = self.spans[i];
        self.spans[i] = Span {
            start: span.start,
            len: 0,
            room: span.room,
        };
    }
}

impl<T: Copy, A: Allocator + Clone> Lists<T, A> {
    /// No list.
    ///
    /// # Errors
    /// Where the allocator can't be cloned.
    pub fn new(alloc: A) -> Result<Lists<T, A>, AllocError>
        ensures { IfOk result (λ b. b.lists ≡ []) }
    {
        let spans = Vec::new(alloc.clone()?);
        Ok(Lists {
            spans,
            store: Vec::new(alloc),
        })
    }

    /// A copy of the lists.
    ///
    /// # Errors
    /// Where allocation fails.
    pub fn duplicate(&self, alloc: A) -> Result<Lists<T, A>, AllocError>
        ensures { IfOk result (λ b. b.lists ≡ self.now.lists) }
    {
        let spans = Vec::from_slice(alloc.clone()?, &self.spans)?;
        Ok(Lists {
            spans,
            store: Vec::from_slice(alloc, &self.store)?,
        })
    }
}
