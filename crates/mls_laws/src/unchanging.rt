//! What no journal changes.
ghost use Rattle.std.specs.Prelude.{◌≡◌, ℕ, Bool, false, List, ◌++◌, IsTrue};
ghost use Rattle.std.specs.FinMap as map;
ghost use Rattle.mls_requests.specs.declared.request.Request.{Request};
ghost use Rattle.mls_requests.specs.declared.reply.Reply.TheVariants.{Created};
ghost use Rattle.mls_requests.specs.declared.entry.Entry.{Entry};
ghost use Rattle.mls_state.specs.State.{State, is_subject, is_active};
ghost use Rattle.mls_state.specs.Properties.{IsSecure};
ghost use Rattle.mls_rules.specs.Rules.{reply};
ghost use Rattle.mls_monitor.specs.Journal.{fold};
ghost use Rattle.mls_tree.specs.declared.profile.Profile.TheVariants.{One};
ghost use Rattle.mls_laws.specs.Journals.{StaysActive};

/// No journal changes what subjects there are, their maximum and integrity labels, who is trusted, the bounds of the
/// labels, or the profile.
pub fn what_subjects_may_never_changes()
    ensures subjects { (v : State) (entries : List Entry) (s : ℕ) → is_subject (fold v entries) s ≡ is_subject v s }
    ensures maximum { (v : State) (entries : List Entry) → (fold v entries).maximum ≡ v.maximum }
    ensures integrity { (v : State) (entries : List Entry) → (fold v entries).subject_integrity ≡ v.subject_integrity }
    ensures trusted { (v : State) (entries : List Entry) → (fold v entries).trusted ≡ v.trusted }
    ensures security_bounds { (v : State) (entries : List Entry) → (fold v entries).security ≡ v.security }
    ensures integrity_bounds { (v : State) (entries : List Entry) → (fold v entries).integrity ≡ v.integrity }
    ensures profile { (v : State) (entries : List Entry) → (fold v entries).profile ≡ v.profile }
{}

/// An object keeps its integrity label as long as it is there: no journal changes it. In profile 1 this holds of each
/// object that is there at both ends of a journal.
pub fn objects_keep_their_integrity()
    ensures stays { (v : State) (entries : List Entry) (o : ℕ) → IsSecure v → StaysActive v entries o →
        map.get (fold v entries).object_integrity o ≡ map.get v.object_integrity o }
    ensures ends { (v : State) (entries : List Entry) (o : ℕ) → IsSecure v → v.profile ≡ One →
        IsTrue (is_active v o) → IsTrue (is_active (fold v entries) o) →
        map.get (fold v entries).object_integrity o ≡ map.get v.object_integrity o }
{}

/// In profile 1 object numbers aren't used again: an object that was there and is gone never comes back, the number
/// that a creation gives had never been an object's at any point of the journal before, and what is there at both ends
/// of a journal was there all along.
pub fn deleted_numbers_never_come_back()
    ensures gone { (v : State) (front rest : List Entry) (o : ℕ) → IsSecure v → v.profile ≡ One →
        IsTrue (is_active v o) → is_active (fold v front) o ≡ false → is_active (fold v (front ++ rest)) o ≡ false }
    ensures new { (v : State) (front rest : List Entry) (r : Request) (o : ℕ) → IsSecure v → v.profile ≡ One →
        reply (fold v (front ++ rest)) r ≡ Created o → is_active (fold v front) o ≡ false }
    ensures between { (v : State) (entries : List Entry) (o : ℕ) → IsSecure v → v.profile ≡ One →
        IsTrue (is_active v o) → IsTrue (is_active (fold v entries) o) → StaysActive v entries o }
{}
