//! The variables of a script.
ghost use Rattle.std.specs.Prelude.{◌≡◌, ◌<◌, [], string_bytes, IfOk, OnOk, OnErr};
ghost use Rattle.mls_lines.specs.Names.{bound_to};
ghost use Rattle.mls_lines.specs.Vars.{with_binding, Binds};

use indexmap::IndexMap;
use mls_tables::ObjectId;
use std::alloc::{AllocError, Allocator, Global};
use std::hash::{BuildHasherDefault, FoldHasher};
use std::marker::Model;

/// The variables of a script, each bound to an object. Contracts see the pairs of a name and a number, and how many
/// names more fit without an allocation. A name is written without the `$`.
#[derive(Drop)]
pub struct Vars<A: Allocator = Global> {
    pairs: IndexMap<String<A>, ObjectId, BuildHasherDefault<FoldHasher>, A>,
}

impl<A: Allocator> Model for Vars<A> {
    ghost use Rattle.std.specs.Prelude.{map, string_bytes};
    ghost use Rattle.indexmap.specs.IndexMap.{spare};
    ghost use Rattle.mls_lines.specs.Vars.{Vars, vars_code};

    ghost Value = { Vars };

    ghost coded = { vars_code };

    ghost view = { λ v. record {
      bound = map (λ p. (string_bytes p.0, p.1)) v.pairs.entries;
      room = spare v.pairs;
    } };
}

impl<A: Allocator + Copy> Vars<A> {
    /// No variable is bound.
    pub fn new(alloc: A) -> Vars<A>
        ensures { result.bound ≡ [] }
    {
        Vars {
            pairs: IndexMap::new(alloc),
        }
    }

    /// Binds a variable to an object, in place of what it was bound to.
    ///
    /// # Errors
    /// `AllocError` where an allocation failed; every variable then stays as it was.
    #[tactic(auto, using(crate::proofs::VarLemmas::bindings))]
    pub fn bind(&mut self, name: &str, object: ObjectId) -> Result<(), AllocError>
        ensures ok { OnOk result (self.new.bound ≡ with_binding self.old.bound name.now object) }
        ensures bound { OnOk result (Binds self.old.bound name.now object self.new.bound) }
        ensures err { OnErr result (self.new.bound ≡ self.old.bound) }
    {
        let copy = self.reserve(name)?;
        self.bind_reserved(copy, object);
        Ok(())
    }

    /// Makes the room that binding a variable needs: a copy of its name, for `bind_reserved`, and a place for it.
    ///
    /// # Errors
    /// `AllocError` where an allocation failed. All variables stay bound as they were on both results.
    pub fn reserve(&mut self, name: &str) -> Result<String<A>, AllocError>
        ensures name { IfOk result (λ copy. string_bytes copy ≡ name.now) }
        ensures room { OnOk result (0 < self.new.room) }
        ensures same { self.new.bound ≡ self.old.bound }
    {
        let copy = String::from_str(*self.pairs.allocator(), name)?;
        self.pairs.reserve(1)?;
        Ok(copy)
    }
}

impl<A: Allocator> Vars<A> {
    /// Binds a variable to an object, in place of what it was bound to. It doesn't allocate.
    #[tactic(auto, using(crate::proofs::VarLemmas::bindings))]
    pub fn bind_reserved(&mut self, name: String<A>, object: ObjectId)
        requires { 0 < self.old.room }
        ensures { self.new.bound ≡ with_binding self.old.bound (string_bytes name) object }
    {
        // the room was made before, so that this can't fail
        let _ = self.pairs.insert(name, object);
    }

    /// The object that a variable is bound to.
    #[tactic(auto, using(crate::proofs::VarLemmas::bindings))]
    pub fn get(&self, name: &str) -> Option<ObjectId>
        ensures { result ≡ bound_to name.now self.now.bound }
    {
        self.pairs.get(name).copied()
    }
}
