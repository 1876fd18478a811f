//! What holds of all labels. The functions do nothing: each is a law, which its contract states.
ghost use Rattle.std.specs.Prelude.{◌≡◌, ◌↔◌, IsTrue, List, ℕ, Ok, Err};
ghost use Rattle.std.specs.Ordering.{nat_cmp};
ghost use Rattle.std.specs.FinSet as set;
ghost use Rattle.mls_labels.specs.Label.{Label, Bounds, dominates, has_label};
ghost use Rattle.mls_labels.specs.LabelText.{Spells, IsRefused, written};
ghost use Rattle.mls_labels.specs.Reading.{label_at};
ghost use Rattle.mls_labels.specs.Same.{same_categories, same_label, same_bounds};
ghost use Rattle.mls_labels.specs.Scheme.{Scheme, IsScheme, bounds_of};
ghost use Rattle.mls_labels.specs.declared.label_fault.LabelFault.{LabelFault};

/// `==` on sets of categories, labels and bounds is true exactly where the two values are equal.
pub fn equality_is_of_values()
    ensures sets { (s t : set.FinSet nat_cmp) → IsTrue (same_categories s t) ↔ (s ≡ t) }
    ensures labels { (a b : Label) → IsTrue (same_label a b) ↔ (a ≡ b) }
    ensures bounds { (a b : Bounds) → IsTrue (same_bounds a b) ↔ (a ≡ b) }
{}

/// Two labels dominate each other exactly where they are equal.
pub fn equal_labels_dominate_each_other()
    ensures { (a b : Label) → (IsTrue (dominates a b) × IsTrue (dominates b a)) ↔ (a ≡ b) }
{}

/// Dominance is a partial order on labels.
pub fn dominance_is_a_partial_order()
    ensures reflexive { (a : Label) → IsTrue (dominates a a) }
    ensures antisymmetric { (a b : Label) → IsTrue (dominates a b) → IsTrue (dominates b a) → a ≡ b }
    ensures transitive { (a b c : Label) → IsTrue (dominates a b) → IsTrue (dominates b c) → IsTrue (dominates a c) }
{}

/// Read step by step, a text gives the label that it spells or the fault for which it is refused, and a text that
/// spells a label or is refused gives just that.
pub fn a_text_is_read_as_it_is_spelled()
    ensures label { (s : Scheme) (text : List ℕ) (l : Label) → IsScheme s → (label_at s text ≡ Ok l) ↔ Spells s text l }
    ensures fault { (s : Scheme) (text : List ℕ) (f : LabelFault) → IsScheme s → (label_at s text ≡ Err f)
        ↔ IsRefused s text f }
{}

/// A text spells one label at most in a scheme, is refused for one fault at most, and not both.
pub fn a_text_has_one_meaning()
    ensures label { (s : Scheme) (text : List ℕ) (a b : Label) → IsScheme s → Spells s text a → Spells s text b
        → a ≡ b }
    ensures fault { (s : Scheme) (text : List ℕ) (f g : LabelFault) → IsScheme s → IsRefused s text f
        → IsRefused s text g → f ≡ g }
    ensures either { (s : Scheme) (text : List ℕ) (a : Label) (f : LabelFault) → IsScheme s → Spells s text a
        → IsRefused s text f → ⊥ }
{}

/// What is written of a label that a scheme has spells that label.
pub fn a_written_label_is_spelled()
    ensures { (s : Scheme) (l : Label) → IsScheme s → IsTrue (has_label (bounds_of s) l) → Spells s (written s l) l }
{}
