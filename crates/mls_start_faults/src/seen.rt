//! The names in a list that were looked at.
ghost use Rattle.std.specs.Prelude.{◌≡◌, [], ◌∷◌, ◌++◌, not, if◌then◌else◌, IfOk};
ghost use Rattle.std.specs.List.{list_any};
ghost use Rattle.std.specs.Str.{bytes_eq};

use indexmap::IndexSet;
use std::alloc::{AllocError, Global};
use std::hash::{BuildHasherDefault, FoldHasher};
use std::marker::Model;

/// Names, each once. Contracts see the list of their bytes.
#[derive(Drop)]
pub(crate) struct SeenNames {
    names: IndexSet<String, BuildHasherDefault<FoldHasher>, Global>,
}

impl Model for SeenNames {
    ghost use Rattle.std.specs.Prelude.{List, ℕ, map, string_bytes};

    ghost Value = { List (List ℕ) };

    ghost view = { λ s. map string_bytes s.names.keys };
}

impl SeenNames {
    /// None, with room for so many.
    pub(crate) fn with_room(alloc: Global, count: usize) -> Result<SeenNames, AllocError>
        ensures { IfOk result (λ seen. seen ≡ []) }
    {
        Ok(SeenNames {
            names: IndexSet::with_capacity(alloc, count)?,
        })
    }

    /// Adds a name where it isn't there yet, and says whether it was added.
    pub(crate) fn insert(&mut self, alloc: Global, name: &str) -> Result<bool, AllocError>
        ensures added { IfOk result (λ added. added ≡ not (list_any (bytes_eq name.now) self.old)) }
        ensures kept { IfOk result (λ added. self.new ≡ if added then self.old ++ name.now ∷ [] else self.old) }
    {
        let text = String::from_str(alloc, name)?;
        let added = self.names.insert(text)?;
        Ok(added)
    }
}
