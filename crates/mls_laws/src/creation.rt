//! What a creation makes.
ghost use Rattle.std.specs.Prelude.{◌≡◌, ℕ};
ghost use Rattle.mls_labels.specs.Label.{Label};
ghost use Rattle.mls_requests.specs.declared.reply.Reply.TheVariants.{Created};
ghost use Rattle.mls_state.specs.State.{State};
ghost use Rattle.mls_state.specs.Properties.{IsSecure};
ghost use Rattle.mls_rules.specs.Rules.{reply, after};
ghost use Rattle.mls_laws.specs.NewObjects.{creates, IsAnew};

/// A new object holds nothing of one that had its number before, in each profile: no permission and no access names it,
/// it is no object's parent, and its labels and its parent are those that were asked for.
pub fn a_new_object_holds_nothing_of_an_old_one()
    ensures { (v : State) (s p o : ℕ) (l i : Label) → IsSecure v → reply v (creates s p l i) ≡ Created o →
        IsAnew (after v (creates s p l i)) o p l i }
{}
