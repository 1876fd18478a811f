//! What holds of all scripts. The functions do nothing: each is a law, which its contract states.
ghost use Rattle.std.specs.Prelude.{◌≡◌, ℕ, List, ◌++◌, None, Some};
ghost use Rattle.mls_requests.specs.declared.entry.Entry.{Entry};
ghost use Rattle.mls_monitor.specs.Journal.{IsLegal};
ghost use Rattle.mls_lines.specs.Names.{Names};
ghost use Rattle.mls_scripts.specs.Script.{Standing, answers, after_lines};
ghost use Rattle.mls_scripts.specs.Halves.{Asking, next_of, ByHalves};
ghost use Rattle.mls_scripts.specs.Fed.{Prints};
ghost use Rattle.mls_monitor.specs.Entries.{of_session};
ghost use Rattle.mls_monitor.specs.Feeds.{Exchange, AreTold};

/// What `serve` answers to a script, and where the script then stands, is what the halves of its steps make, with the
/// monitor's own step between them. So a script that is fed alone, and told what the monitor answers, has the answers
/// that `serve` writes.
pub fn scripts_are_served_by_halves()
    ensures ends { (names : Names) (session : ℕ) (s : Standing) (lines : List (List ℕ))
        → (next_of names s.vars lines).asks ≡ None
        → (answers names session s lines ≡ (next_of names s.vars lines).text)
        × (after_lines names session s lines ≡ s) }
    ensures asks { (names : Names) (session : ℕ) (s : Standing) (lines : List (List ℕ)) (q : Asking)
        → (next_of names s.vars lines).asks ≡ Some q
        → ByHalves names session s lines (next_of names s.vars lines) q }
{}

/// A script that was told as a legal journal has it, where all that the journal got since is its session's, prints what
/// `serve` answers to it, and the journal is the one that `serve` leaves.
pub fn a_script_alone_is_served()
    ensures { (names : Names) (session : ℕ) (s : Standing) (lines : List (List ℕ)) (since : List Entry)
        (xs : List Exchange) (text : List ℕ)
        → IsLegal s.start (s.entries ++ since) → of_session session since ≡ since
        → AreTold s.start session s.entries since xs → Prints names s.vars lines xs text
        → (text ≡ answers names session s lines) × ((after_lines names session s lines).entries ≡ s.entries ++ since) }
{}
