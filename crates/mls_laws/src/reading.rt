//! What can be read of a state.
ghost use Rattle.std.specs.Prelude.{◌≡◌};
ghost use Rattle.mls_state.specs.State.{State};
ghost use Rattle.mls_state.specs.Properties.{HasTree, HasWholeTables};
ghost use Rattle.mls_laws.specs.Reads.{ReadsAgree};

/// The reads determine the state: two states, each with objects that are a tree and tables that agree, as every state
/// has them, are equal where all their public reads agree.
pub fn reads_determine_the_state()
    ensures { (v w : State) → HasTree v → HasTree w → HasWholeTables v → HasWholeTables w → ReadsAgree v w → v ≡ w }
{}
