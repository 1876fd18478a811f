//! What holds of all powers. The functions do nothing: each is a law, which its contract states.
ghost use Rattle.std.specs.Prelude.{◌≡◌, ℕ, true, Some};
ghost use Rattle.std.specs.FinMap as map;
ghost use Rattle.mls_labels.specs.Label.{Label, has_label};
ghost use Rattle.mls_tables.specs.declared.mode.Mode.{Mode};
ghost use Rattle.mls_requests.specs.declared.action.Action.TheVariants.{Give, Rescind, Create};
ghost use Rattle.mls_state.specs.State.{State, is_subject};
ghost use Rattle.mls_review.specs.Powers.{may, has_power};
ghost use Rattle.mls_review.specs.declared.power.Power.TheVariants.{Gives, Creates};

/// A subject may give and rescind a permission on an object, in any mode and of any known subject, exactly if it has
/// that power over the object.
pub fn gives_are_alike()
    ensures { (v : State) (s t o : ℕ) (x : Mode) → is_subject v t ≡ true
        → (may v s (Give x t o) ≡ has_power v s Gives o) × (may v s (Rescind x t o) ≡ has_power v s Gives o) }
{}

/// Where a subject may create an object below another with some labels, it has that power over the other, whose labels
/// are within the bounds of the schemes.
pub fn creates_are_alike()
    ensures { (v : State) (s p : ℕ) (l i security integrity : Label) → map.get v.object_label p ≡ Some security
        → map.get v.object_integrity p ≡ Some integrity → has_label v.security security ≡ true
        → has_label v.integrity integrity ≡ true → may v s (Create p l i) ≡ true → has_power v s Creates p ≡ true }
{}
