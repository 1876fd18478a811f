//! Lists of what is in a state.
ghost use Rattle.std.specs.Prelude.{◌≡◌, ◌==◌, ℕ, IsTrue, All};
ghost use Rattle.std.specs.List.{list_any};
ghost use Rattle.mls_tables.specs.Held.{is_held, objects_of, subjects_of};
ghost use Rattle.mls_tree.specs.Tree.{children};
ghost use Rattle.mls_state.specs.State.{is_subject, is_active};

use crate::state::State;
use mls_tables::{ObjectId, SubjectId};
use std::alloc::Allocator;

impl<A: Allocator> State<A> {
    /// The children of an active object, ascending.
    pub fn children(&self, o: ObjectId) -> &[ObjectId]
        requires { IsTrue (is_active self.now o) }
        ensures list { result.now ≡ children self.now.parent o }
        ensures active { All (λ c. IsTrue (is_active self.now c)) result.now }
    {
        self.tree.children(o)
    }

    /// The objects that a known subject accesses, in whatever mode: ascending, each once. They are active.
    #[tactic(auto, using(crate::proofs::Tables::access_row))]
    pub fn objects_of(&self, s: SubjectId) -> &[ObjectId]
        requires { IsTrue (is_subject self.now s) }
        ensures list { result.now ≡ objects_of self.now.accesses s }
        ensures each { (o : ℕ) → list_any (λ a. o == a) result.now ≡ is_held self.now.accesses s o }
        ensures active { All (λ o. IsTrue (is_active self.now o)) result.now }
    {
        self.accesses.objects_of(s)
    }

    /// The subjects that access an active object, in whatever mode: ascending, each once. They are known.
    #[tactic(auto, using(crate::proofs::Tables::access_column))]
    pub fn subjects_of(&self, o: ObjectId) -> &[SubjectId]
        requires { IsTrue (is_active self.now o) }
        ensures list { result.now ≡ subjects_of self.now.accesses o }
        ensures each { (s : ℕ) → list_any (λ a. s == a) result.now ≡ is_held self.now.accesses s o }
        ensures known { All (λ s. IsTrue (is_subject self.now s)) result.now }
    {
        self.accesses.subjects_of(o)
    }
}
