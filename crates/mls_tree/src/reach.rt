//! A law above the definitions: it is the contract of a function that does nothing.
ghost use Rattle.std.specs.Prelude.{ℕ, ◌↔◌, IsTrue};
ghost use Rattle.std.specs.Ordering.{nat_cmp};
ghost use Rattle.std.specs.FinMap.{FinMap};
ghost use Rattle.mls_tree.specs.Tree.{IsTree, Reaches, is_active, is_inferior};

/// In a tree an object is an inferior of another exactly where it is active and reaches it by parent
/// steps.
pub fn inferiors_reach()
    ensures { (parent : FinMap nat_cmp ℕ) → IsTree parent (is_active parent) → (o a : ℕ) →
        (IsTrue (is_inferior parent o a) ↔ (IsTrue (is_active parent o) × Reaches parent o a)) }
{}
