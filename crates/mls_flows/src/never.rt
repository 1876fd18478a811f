//! That content arrives nowhere but where the closure has it.
ghost use Rattle.std.specs.Prelude.{ℕ, Bool, List, IsTrue};
ghost use Rattle.mls_requests.specs.declared.entry.Entry.{Entry};
ghost use Rattle.mls_state.specs.State.{State, is_active};
ghost use Rattle.mls_state.specs.Properties.{IsSecure};
ghost use Rattle.mls_futures.specs.Futures.{IsByActors};
ghost use Rattle.mls_flows.specs.Arriving.{CouldArrive, IsCarried, IsAt, StaysThere};
ghost use Rattle.mls_flows.specs.Reaching.{CouldReach, HasRoom};
ghost use Rattle.mls_flows.specs.declared.place.Place.{Place};
ghost use Rattle.mls_flows.specs.declared.place.Place.TheVariants.{Object};

/// Where the closure has a flow not, no future has it: whatever the actors do, from a secure state, once all that is
/// held has been released, or without that, content of an object arrives in a place that is there all along only if the
/// closure of the first state has it. (It holds over journals of any length, with objects that are made and deleted on
/// the way.)
pub fn no_content_arrives_where_the_closure_has_it_not()
    ensures released { (v : State) (acts : ℕ → Bool) (room : Bool) (from : ℕ) (p : Place) → IsSecure v
        → HasRoom v room → IsTrue (is_active v from) → CouldArrive v acts from p
        → CouldReach v acts room (Object from) p }
    ensures carried { (v : State) (entries : List Entry) (acts : ℕ → Bool) (room : Bool) (from : ℕ) (p : Place)
        → IsSecure v → HasRoom v room → IsTrue (is_active v from) → IsByActors acts entries
        → StaysThere v entries p → IsCarried v acts (IsAt (Object from)) entries p
        → CouldReach v acts room (Object from) p }
{}
