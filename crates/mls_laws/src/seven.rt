//! The seven properties of a secure state, one by one.
ghost use Rattle.std.specs.Prelude.{◌≡◌, ◌↔◌};
ghost use Rattle.mls_state.specs.State.{State};
ghost use Rattle.mls_state.specs.Properties.{IsSecure, HasWholeTables};
ghost use Rattle.mls_laws.specs.SevenProperties.{Property, Has};

/// A state is secure exactly where it has all seven properties. (MTR-2997, secure state; joined with MTR-3153)
pub fn secure_is_all_seven()
    ensures { (v : State) → IsSecure v ↔ ((p : Property) → Has p v) }
{}

/// None of the seven follows from the others: for each there is a state that breaks it alone, with tables that agree.
pub fn each_property_can_be_broken_alone()
    ensures { (p : Property) → (v : State) × HasWholeTables v × (Has p v → ⊥)
        × ((q : Property) → (q ≡ p → ⊥) → Has q v) }
{}
