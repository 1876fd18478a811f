//! A law above the definitions: it is the contract of a function that does nothing.
ghost use Rattle.std.specs.Prelude.{ℕ, ◌≤◌};
ghost use Rattle.mls_tables.specs.declared.limits.TheConstants.{MAX_SUBJECTS, MAX_OBJECTS};
ghost use Rattle.mls_tables.specs.Triples.{TripleSet};
ghost use Rattle.mls_tables.specs.Table.{IsWithin};
ghost use Rattle.mls_tables.specs.Once.{HasEachOnce, by_subject, by_object};

/// The indexes give each triple once, and no other: over the objects of each subject, and over the subjects of each
/// object.
pub fn indexes_give_each_triple_once()
    ensures by_subject { (b : TripleSet) (n m : ℕ) → n ≤ MAX_SUBJECTS → m ≤ MAX_OBJECTS → IsWithin n m b
        → HasEachOnce b (by_subject b n) }
    ensures by_object { (b : TripleSet) (n m : ℕ) → n ≤ MAX_SUBJECTS → m ≤ MAX_OBJECTS → IsWithin n m b
        → HasEachOnce b (by_object b m) }
{}
