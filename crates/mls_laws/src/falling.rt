//! When labels change.
ghost use Rattle.std.specs.Prelude.{◌≡◌, ℕ, List, IsTrue};
ghost use Rattle.std.specs.FinMap as map;
ghost use Rattle.mls_requests.specs.declared.entry.Entry.{Entry};
ghost use Rattle.mls_tree.specs.declared.profile.Profile.TheVariants.{One};
ghost use Rattle.mls_state.specs.State.{State, is_active, is_above};
ghost use Rattle.mls_state.specs.Properties.{IsSecure};
ghost use Rattle.mls_monitor.specs.Journal.{fold, IsLegal};
ghost use Rattle.mls_laws.specs.Journals.{StaysActive};
ghost use Rattle.mls_laws.specs.Labels.{LabelAfter, CurrentAfter, IsByUntrusted};

/// No label changes by itself: an object that is there all along has the security label that it had, or one to which an
/// entry of the journal relabels it and is granted; a subject has the current label that it had, or one to which it
/// moved by an entry of its own that is granted. In profile 1 the first holds of each object that is there at both ends
/// of the journal.
pub fn labels_change_only_when_it_is_granted()
    ensures object { (v : State) (entries : List Entry) (o : ℕ) → IsSecure v → IsLegal v entries
        → StaysActive v entries o →
        LabelAfter v entries o }
    ensures ends { (v : State) (entries : List Entry) (o : ℕ) → IsSecure v → v.profile ≡ One → IsLegal v entries →
        IsTrue (is_active v o) → IsTrue (is_active (fold v entries) o) → LabelAfter v entries o }
    ensures subject { (v : State) (entries : List Entry) (s : ℕ) → IsLegal v entries → CurrentAfter v entries s }
{}

/// No object's label falls by itself: along a journal without an entry of a trusted subject, the label that an object
/// has at the end dominates the one that it had, if it is there all along. (A subject may lower its own current level.)
/// In profile 1 it holds of each object that is there at both ends of the journal.
pub fn no_object_label_falls_by_itself()
    ensures stays { (v : State) (entries : List Entry) (o : ℕ) → IsSecure v → IsByUntrusted v entries
        → StaysActive v entries o →
        IsTrue (is_above (map.get (fold v entries).object_label o) (map.get v.object_label o)) }
    ensures ends { (v : State) (entries : List Entry) (o : ℕ) → IsSecure v → v.profile ≡ One → IsByUntrusted v entries →
        IsTrue (is_active v o) → IsTrue (is_active (fold v entries) o) →
        IsTrue (is_above (map.get (fold v entries).object_label o) (map.get v.object_label o)) }
{}
