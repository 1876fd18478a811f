//! What holds of all runs. The function does nothing: it is a law, which its contract states.
ghost use Rattle.std.specs.Prelude.{◌≡◌, ℕ, List, [], ◌∷◌, Bool, Option, Some, None, if◌then◌else◌};
ghost use Rattle.mls_state.specs.State.{State};
ghost use Rattle.mls_journal.specs.EntryText.{journal_text};
ghost use Rattle.mls_lines.specs.Names.{Names};
ghost use Rattle.mls_runs.specs.Run.{run_entries, run_text};
ghost use Rattle.mls_runs.specs.Threads.{LeavesInThreads};

/// One script that is run in a thread prints what a serial run of it prints, and leaves the same journal.
pub fn one_script_runs_alike()
    ensures { (names : Names) (start : State) (script : List ℕ) (asked : Bool) (output : List ℕ)
        (journal : Option (List ℕ)) → LeavesInThreads names start (script ∷ []) asked output journal
        → (output ≡ run_text names start (script ∷ []))
        × (journal ≡ (if asked then Some (journal_text (run_entries names start (script ∷ []))) else None)) }
{}
