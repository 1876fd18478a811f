//! The greatest label that two labels dominate.
ghost use Rattle.std.specs.Prelude.{◌≡◌, ℕ, ◌&&◌, IsTrue, min, nat_lt};
ghost use Rattle.std.specs.FinSet as set;
ghost use Rattle.mls_labels.specs.Label.{Label, dominates};
ghost use Rattle.mls_labels.specs.declared.limits.TheConstants.{MAX_CATEGORIES};
ghost use Rattle.mls_explain.specs.Remedy.{HasCategories};

use mls_labels::{CatSet, Label, SecLabel};

/// The categories of both sets.
#[tactic(auto, using(crate::proofs::Meets::both))]
fn shared(a: CatSet, b: CatSet) -> CatSet
    ensures { (n : ℕ) → set.contains result n
        ≡ (nat_lt n MAX_CATEGORIES && (set.contains a n && set.contains b n)) }
{
    let (one, other) = (a.words(), b.words());
    CatSet::from_words([
        one[0] & other[0],
        one[1] & other[1],
        one[2] & other[2],
        one[3] & other[3],
    ])
}

/// The lower of two levels.
fn lower(one: u8, other: u8) -> u8
    ensures { result ≡ min one other }
{
    if one < other { one } else { other }
}

/// The lower of the levels of two labels and the categories that both have.
fn met(a: SecLabel, b: SecLabel) -> SecLabel
    ensures level { result.level ≡ min a.level b.level }
    ensures categories { (n : ℕ) → set.contains result.categories n
        ≡ (nat_lt n MAX_CATEGORIES && (set.contains a.categories n && set.contains b.categories n)) }
{
    let level = lower(a.label().level(), b.label().level());
    let categories = shared(a.label().categories(), b.label().categories());
    SecLabel::of(Label::new(level, categories))
}

/// The greatest label that two dominate.
pub(crate) fn meet(a: SecLabel, b: SecLabel) -> SecLabel
    ensures first { IsTrue (dominates a result) }
    ensures second { IsTrue (dominates b result) }
    ensures greatest { (m : Label) → HasCategories m → IsTrue (dominates a m) → IsTrue (dominates b m)
        → IsTrue (dominates result m) }
{
    met(a, b)
}
