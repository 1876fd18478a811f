//! That nothing comes about but what the closure has.
ghost use Rattle.std.specs.Prelude.{ℕ, Bool, List, IsTrue};
ghost use Rattle.std.specs.FinSet as set;
ghost use Rattle.mls_tables.specs.declared.mode.Mode.{Mode};
ghost use Rattle.mls_requests.specs.declared.entry.Entry.{Entry};
ghost use Rattle.mls_state.specs.State.{State};
ghost use Rattle.mls_state.specs.Properties.{IsSecure};
ghost use Rattle.mls_monitor.specs.Journal.{fold};
ghost use Rattle.mls_laws.specs.Journals.{StaysActive};
ghost use Rattle.mls_futures.specs.Closure.{CouldGet};
ghost use Rattle.mls_futures.specs.Futures.{IsByActors, CouldCome};

/// Where the closure has an access not, no future has it: whatever the actors do, from a secure state, once all that is
/// held has been released, or without that, an actor comes to hold an access to an object that is there all along only
/// if the closure of the first state has it. (It holds of each actor and each mode, over journals of any length.)
pub fn no_future_has_what_the_closure_has_not()
    ensures released { (v : State) (acts : ℕ → Bool) (s o : ℕ) (x : Mode) → IsSecure v → CouldCome v acts s o x
        → CouldGet v acts s o x }
    ensures held { (v : State) (entries : List Entry) (acts : ℕ → Bool) (s o : ℕ) (x : Mode) → IsSecure v
        → IsByActors acts entries → StaysActive v entries o → IsTrue (acts s) →
        IsTrue (set.contains (fold v entries).accesses (s, o, x)) → CouldGet v acts s o x }
{}

/// What the actors could get only shrinks as they act: what the closure of a later state has, that of the first had, of
/// each object that is there all along.
pub fn what_could_come_only_shrinks()
    ensures { (v : State) (entries : List Entry) (acts : ℕ → Bool) (s o : ℕ) (x : Mode) → IsSecure v
        → IsByActors acts entries → StaysActive v entries o → CouldGet (fold v entries) acts s o x
        → CouldGet v acts s o x }
{}
