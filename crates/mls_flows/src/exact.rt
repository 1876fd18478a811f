//! That content arrives wherever the closure has it.
ghost use Rattle.std.specs.Prelude.{◌≡◌, ◌↔◌, ℕ, Bool, IsTrue, List, None, Some};
ghost use Rattle.std.specs.FinMap as map;
ghost use Rattle.mls_labels.specs.Label.{Label, has_label};
ghost use Rattle.mls_state.specs.State.{State, is_active};
ghost use Rattle.mls_state.specs.Properties.{IsSecure, HasWholeTables};
ghost use Rattle.mls_futures.specs.Futures.{HasLabelsWithin};
ghost use Rattle.mls_flows.specs.Arriving.{CouldArrive, HasIntegrityWithin};
ghost use Rattle.mls_flows.specs.Reaching.{CouldReach, HasRoom};
ghost use Rattle.mls_flows.specs.declared.place.Place.{Place};
ghost use Rattle.mls_flows.specs.declared.place.Place.TheVariants.{Object};

/// The closure is exact: from a secure state whose labels are within the bounds, as those of each start's are, content
/// of an object that is there arrives, once all that is held has been released, by requests of actors, just where the
/// closure has it. (Where all numbers are given but some will be used again, it is left open: an object can then be
/// made only behind a deletion.)
pub fn content_arrives_where_the_closure_has_it()
    ensures { (v : State) (acts : ℕ → Bool) (room : Bool) (from : ℕ) (p : Place) → IsSecure v → HasWholeTables v
        → HasLabelsWithin v → HasIntegrityWithin v → HasRoom v room → IsTrue (is_active v from)
        → (CouldReach v acts room (Object from) p ↔ CouldArrive v acts from p) }
{}
