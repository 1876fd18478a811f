//! Names in order, found by name and by place.
ghost use Rattle.std.specs.Prelude.{◌≡◌, ◌<◌, [], ◌∷◌, ◌++◌, false, true, not, if◌then◌else◌, length, map, slice_get};
ghost use Rattle.std.specs.Prelude.{IfErr, IfOk, IfSome, OnOk, Some};
ghost use Rattle.std.specs.List.{list_any};
ghost use Rattle.std.specs.Str.{bytes_eq};
ghost use Rattle.mls_labels.specs.Names.{has_twice};
ghost use Rattle.mls_labels.specs.Reading.{place_of};

use crate::name_set_fault::NameSetFault;
use indexmap::IndexSet;
use std::alloc::{AllocError, Allocator, Global};
use std::hash::{BuildHasherDefault, FoldHasher};
use std::marker::Model;

/// Names, each once, in the order in which they came. Contracts see the list of their bytes. Any text can be a name
/// here.
#[derive(Drop)]
pub struct NameSet<A: Allocator = Global> {
    names: IndexSet<String<A>, BuildHasherDefault<FoldHasher>, A>,
}

impl<A: Allocator> Model for NameSet<A> {
    ghost use Rattle.std.specs.Prelude.{List, ℕ, map, string_bytes};

    ghost Value = { List (List ℕ) };

    ghost view = { λ s. map string_bytes s.names.keys };
}

impl<A: Allocator + Copy> NameSet<A> {
    /// The set of these names, in their order.
    ///
    /// # Errors
    /// `Repeated` where a name stands twice, `Memory` where an allocation failed. `Memory` may come
    /// before a name is seen to stand twice.
    pub fn from_names(alloc: A, names: &[&str]) -> Result<NameSet<A>, NameSetFault>
        ensures ok { IfOk result (λ s. s ≡ map (λ name. name.now) names.now) }
        ensures once { OnOk result (has_twice (map (λ name. name.now) names.now) ≡ false) }
        ensures repeated { IfErr result
            (λ fault. fault ≡ NameSetFault.Repeated → has_twice (map (λ name. name.now) names.now) ≡ true) }
    {
        let mut kept = NameSet {
            names: IndexSet::with_capacity(alloc, names.len())?,
        };
        for name in names {
            let added = kept.insert(alloc, name)?;
            if !added {
                return Err(NameSetFault::Repeated);
            }
        }
        Ok(kept)
    }

    /// Adds a name at the end where it isn't there yet, and says whether it was added.
    ///
    /// # Errors
    /// `AllocError` where an allocation failed.
    fn insert(&mut self, alloc: A, name: &str) -> Result<bool, AllocError>
        ensures added { IfOk result (λ added. added ≡ not (list_any (bytes_eq name.now) self.old)) }
        ensures kept { IfOk result (λ added. self.new ≡ if added then self.old ++ name.now ∷ [] else self.old) }
    {
        let text = String::from_str(alloc, name)?;
        let added = self.names.insert(text)?;
        Ok(added)
    }
}

impl<A: Allocator> NameSet<A> {
    /// How many names there are.
    pub fn len(&self) -> usize
        ensures { result ≡ length self.now }
    {
        self.names.len()
    }

    /// The place of a name, counted from 0; `None` where it isn't one of them.
    #[tactic(auto, using(crate::proofs::NamePlaces::place_word))]
    pub fn place(&self, name: &str) -> Option<usize>
        ensures place { result ≡ place_of self.now name.now }
        ensures within { IfSome result (λ place. place < length self.now) }
    {
        self.names.get_index_of(name)
    }

    /// The name in a place.
    pub fn name(&self, place: usize) -> &str
        requires { place < length self.now }
        ensures { slice_get self.now place ≡ Some result.now }
    {
        self.names.as_slice()[place].as_str()
    }
}
