//! The least label that dominates two labels.
ghost use Rattle.std.specs.Prelude.{◌≡◌, ℕ, ◌&&◌, ◌||◌, IsTrue, max, nat_lt};
ghost use Rattle.std.specs.FinSet as set;
ghost use Rattle.mls_labels.specs.Label.{Label, dominates};
ghost use Rattle.mls_labels.specs.declared.limits.TheConstants.{MAX_CATEGORIES};
ghost use Rattle.mls_explain.specs.Remedy.{HasCategories};
ghost use Rattle.mls_explain.specs.Grounds.{lowest};

use mls_labels::{CatSet, Label, SecLabel};

/// The categories of either set.
#[tactic(auto, using(crate::proofs::Joins::either))]
fn union(a: CatSet, b: CatSet) -> CatSet
    ensures { (n : ℕ) → set.contains result n
        ≡ (nat_lt n MAX_CATEGORIES && (set.contains a n || set.contains b n)) }
{
    let (one, other) = (a.words(), b.words());
    CatSet::from_words([
        one[0] | other[0],
        one[1] | other[1],
        one[2] | other[2],
        one[3] | other[3],
    ])
}

/// The higher of two levels.
fn higher(one: u8, other: u8) -> u8
    ensures { result ≡ max one other }
{
    if one < other { other } else { one }
}

/// The higher of the levels of two labels and the categories of both.
fn joined(a: SecLabel, b: SecLabel) -> SecLabel
    ensures level { result.level ≡ max a.level b.level }
    ensures categories { (n : ℕ) → set.contains result.categories n
        ≡ (nat_lt n MAX_CATEGORIES && (set.contains a.categories n || set.contains b.categories n)) }
{
    let level = higher(a.label().level(), b.label().level());
    let categories = union(a.label().categories(), b.label().categories());
    SecLabel::of(Label::new(level, categories))
}

/// The least label that dominates two.
pub(crate) fn join(a: SecLabel, b: SecLabel) -> SecLabel
    ensures least { (m : Label) → IsTrue (dominates m a) → IsTrue (dominates m b) → IsTrue (dominates m result) }
    ensures above { (m : Label) → HasCategories m → IsTrue (dominates m a) → IsTrue (dominates m b)
        → (IsTrue (dominates result a)) × (IsTrue (dominates result b)) }
{
    joined(a, b)
}

/// The label of level 0 without a category, which every label dominates.
pub(crate) fn lowest() -> SecLabel
    ensures { result ≡ lowest }
{
    SecLabel::of(Label::new(0, CatSet::empty()))
}
