//! That what the closure has comes about.
ghost use Rattle.std.specs.Prelude.{◌≡◌, ◌↔◌, ℕ, Bool, List, None};
ghost use Rattle.mls_tables.specs.declared.mode.Mode.{Mode};
ghost use Rattle.mls_requests.specs.declared.entry.Entry.{Entry};
ghost use Rattle.mls_requests.specs.declared.request.Request.{Request};
ghost use Rattle.mls_state.specs.State.{State};
ghost use Rattle.mls_state.specs.Properties.{IsSecure, HasWholeTables};
ghost use Rattle.mls_start.specs.Rows.{Rows, opening};
ghost use Rattle.mls_start.specs.StartFaults.{start_fault};
ghost use Rattle.mls_monitor.specs.Journal.{fold};
ghost use Rattle.mls_futures.specs.Closure.{CouldGet};
ghost use Rattle.mls_futures.specs.Futures.{HasLabelsWithin, CouldCome};
ghost use Rattle.mls_futures.specs.Scripts.{BringsAbout};

/// The security labels of each start's objects are within the bounds, and no journal brings one past them.
pub fn labels_stay_within_the_bounds()
    ensures opening { (rows : Rows) → start_fault rows ≡ None → HasLabelsWithin (opening rows) }
    ensures journals { (v : State) (entries : List Entry) → HasLabelsWithin v → HasLabelsWithin (fold v entries) }
{}

/// The closure is exact: from a secure state whose labels are within the bounds, as those of each start's are, what it
/// has comes about, once all that is held has been released, by requests of actors that are all granted; and nothing
/// else comes about.
pub fn what_the_closure_has_comes_about()
    ensures { (v : State) (acts : ℕ → Bool) (s o : ℕ) (x : Mode) → IsSecure v → HasWholeTables v → HasLabelsWithin v →
        (CouldGet v acts s o x ↔ CouldCome v acts s o x) }
{}

/// What the closure has a script brings about: it releases all that is held, has then requests of actors alone, each of
/// its requests is answered yes, and in the end just that access is held.
pub fn a_script_brings_it_about()
    ensures { (v : State) (acts : ℕ → Bool) (s o : ℕ) (x : Mode) → IsSecure v → HasWholeTables v → HasLabelsWithin v →
        CouldGet v acts s o x → (script : List Request) × BringsAbout v acts (s, o, x) script }
{}
