//! Why accesses are held, and that a rescission ends them.
ghost use Rattle.std.specs.Prelude.{◌≡◌, ◌⊎◌, ℕ, false, List, ◌∷◌, ◌++◌, IsTrue};
ghost use Rattle.std.specs.FinSet as set;
ghost use Rattle.mls_tables.specs.declared.mode.Mode.{Mode};
ghost use Rattle.mls_requests.specs.declared.action.Action.TheVariants.{Get, Rescind};
ghost use Rattle.mls_requests.specs.declared.reason.Reason.TheVariants.{Discretionary};
ghost use Rattle.mls_requests.specs.declared.reply.Reply.TheVariants.{Yes, No, Undefined};
ghost use Rattle.mls_requests.specs.declared.entry.Entry.{Entry};
ghost use Rattle.mls_state.specs.State.{State};
ghost use Rattle.mls_state.specs.Properties.{IsSecure};
ghost use Rattle.mls_rules.specs.Rules.{reply, after};
ghost use Rattle.mls_monitor.specs.Journal.{fold, IsLegal};
ghost use Rattle.mls_laws.specs.Provenance.{NeverGives, Ends, NeverEnds, Provenance};

/// Every access has its reason: what is held after a journal was granted by an entry of the journal in which its
/// subject asked for it, with no release, rescission or deletion of it since; or it was held at the start, with none in
/// the whole journal.
pub fn every_access_has_its_reason()
    ensures held { (v : State) (entries : List Entry) (s o : ℕ) (x : Mode) → IsSecure v → IsLegal v entries →
        IsTrue (set.contains (fold v entries).accesses (s, o, x)) →
        Provenance v entries s o x ⊎ (IsTrue (set.contains v.accesses (s, o, x)) × NeverEnds v entries s o x) }
    ensures new { (v : State) (entries : List Entry) (s o : ℕ) (x : Mode) → IsSecure v → IsLegal v entries →
        set.contains v.accesses (s, o, x) ≡ false → IsTrue (set.contains (fold v entries).accesses (s, o, x))
        → Provenance v entries s o x }
{}

/// An access ends just where an entry ends it: after a release by its subject, a rescission, or a deletion of an object
/// that its object reaches by parents, it isn't held; and where one that was held isn't held after an entry, the entry
/// was one of these. (MTR-2997, rules to release, to rescind and to delete)
pub fn accesses_end_by_release_rescission_or_deletion()
    ensures over { (v : State) (e : Entry) (s o : ℕ) (x : Mode) → IsSecure v → e.reply ≡ reply v e.request
        → Ends v e s o x →
        set.contains (after v e.request).accesses (s, o, x) ≡ false }
    ensures ended { (v : State) (e : Entry) (s o : ℕ) (x : Mode) → IsSecure v → e.reply ≡ reply v e.request →
        IsTrue (set.contains v.accesses (s, o, x)) → set.contains (after v e.request).accesses (s, o, x) ≡ false
        → Ends v e s o x }
{}

/// Rescinding is final until the permission is given anew: from a granted rescission on, as long as no give of that
/// permission is granted, the subject isn't permitted the access, doesn't hold it, and is denied it for want of
/// permission when it asks, or is told that subject or object isn't there. (MTR-2997, rule to rescind access)
pub fn rescinding_is_final()
    ensures permission { (v : State) (front rest : List Entry) (e : Entry) (s o : ℕ) (x : Mode)
        → IsLegal v (front ++ e ∷ rest) →
        e.request.action ≡ Rescind x s o → e.reply ≡ Yes → NeverGives rest s o x →
        set.contains (fold v (front ++ e ∷ rest)).matrix (s, o, x) ≡ false }
    ensures access { (v : State) (front rest : List Entry) (e : Entry) (s o : ℕ) (x : Mode)
        → IsLegal v (front ++ e ∷ rest) →
        e.request.action ≡ Rescind x s o → e.reply ≡ Yes → NeverGives rest s o x →
        set.contains (fold v (front ++ e ∷ rest)).accesses (s, o, x) ≡ false }
    ensures denied { (v : State) (front rest : List Entry) (e : Entry) (s o : ℕ) (x : Mode)
        → IsLegal v (front ++ e ∷ rest) →
        e.request.action ≡ Rescind x s o → e.reply ≡ Yes → NeverGives rest s o x →
        (reply (fold v (front ++ e ∷ rest)) (record { subject = s; action = Get x o }) ≡ No Discretionary)
        ⊎ (reply (fold v (front ++ e ∷ rest)) (record { subject = s; action = Get x o }) ≡ Undefined) }
{}
