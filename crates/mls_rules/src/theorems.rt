//! Laws above the definitions: each is the contract of a function that does nothing.
ghost use Rattle.std.specs.Prelude.{◌≡◌, ℕ, ◌↔◌, Bool, Some, IsTrue};
ghost use Rattle.std.specs.FinMap as map;
ghost use Rattle.std.specs.FinSet as set;
ghost use Rattle.mls_tables.specs.Triples.{Triple};
ghost use Rattle.mls_state.specs.State.{State};
ghost use Rattle.mls_state.specs.Properties.{HasTree};
ghost use Rattle.mls_rules.specs.Levels.{each_of_subject, each_of_object, each_child};

/// The tests by which the rules look at all accesses of a subject, at all accesses to an object and at all children of
/// an object hold exactly where each of these passes.
pub fn tests_are_of_all()
    ensures subject { (v : State) (s : ℕ) (passes : Triple → Bool) → (IsTrue (each_of_subject v s passes) ↔
        ((t : Triple) → IsTrue (set.contains v.accesses t) → t.0 ≡ s → IsTrue (passes t))) }
    ensures object { (v : State) (o : ℕ) (passes : Triple → Bool) → (IsTrue (each_of_object v o passes) ↔
        ((t : Triple) → IsTrue (set.contains v.accesses t) → t.1 ≡ o → IsTrue (passes t))) }
    ensures children { (v : State) (o : ℕ) (passes : ℕ → Bool) → HasTree v → (IsTrue (each_child v o passes) ↔
        ((c : ℕ) → map.get v.parent c ≡ Some o → IsTrue (passes c))) }
{}
