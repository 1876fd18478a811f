//! Where information may go within one state, through the accesses that are held at once.
ghost use Rattle.std.specs.Prelude.{◌≡◌, ℕ, IsTrue};
ghost use Rattle.std.specs.FinMap as map;
ghost use Rattle.std.specs.FinSet as set;
ghost use Rattle.mls_tables.specs.Mode.{observes, uses};
ghost use Rattle.mls_tables.specs.declared.mode.Mode.{Mode};
ghost use Rattle.mls_state.specs.State.{State, is_above};
ghost use Rattle.mls_state.specs.Properties.{IsSecure};
ghost use Rattle.mls_laws.specs.Flow.{Flows, Feeds, Chain};

/// In a secure state nothing flows down: along any chain of subjects that aren't trusted, each of which observes one
/// object and alters the next, the last object's label dominates the first's. (MTR-2997, *-property)
pub fn nothing_flows_down()
    ensures step { (v : State) (a b : ℕ) → IsSecure v → Flows v a b
        → IsTrue (is_above (map.get v.object_label b) (map.get v.object_label a)) }
    ensures chain { (v : State) (a b : ℕ) → IsSecure v → Chain (Flows v) a b
        → IsTrue (is_above (map.get v.object_label b) (map.get v.object_label a)) }
{}

/// Whatever a subject can come to see in a secure state, trusted or not, it is cleared for: where it observes an
/// object, its maximum label dominates the object's, and that of each object from which something flows there.
/// (MTR-2997, ss-property)
pub fn subjects_see_what_they_are_cleared_for()
    ensures observed { (v : State) (s b : ℕ) (x : Mode) → IsSecure v → IsTrue (set.contains v.accesses (s, b, x))
        → IsTrue (observes x) →
        IsTrue (is_above (map.get v.maximum s) (map.get v.object_label b)) }
    ensures reached { (v : State) (s a b : ℕ) (x : Mode) → IsSecure v → Chain (Flows v) a b
        → IsTrue (set.contains v.accesses (s, b, x)) →
        IsTrue (observes x) → IsTrue (is_above (map.get v.maximum s) (map.get v.object_label a)) }
{}

/// Objects that flow to each other in a secure state have one label.
pub fn objects_that_flow_to_each_other_have_one_label()
    ensures { (v : State) (a b : ℕ) → IsSecure v → Chain (Flows v) a b → Chain (Flows v) b a
        → map.get v.object_label a ≡ map.get v.object_label b }
{}

/// In a secure state integrity is not lifted: along any chain of subjects, trusted or not, each of which uses one
/// object and alters the next, the first object's integrity label dominates the last's. (MTR-3153, strict integrity
/// policy)
pub fn integrity_is_not_lifted()
    ensures step { (v : State) (a b : ℕ) → IsSecure v → Feeds v a b
        → IsTrue (is_above (map.get v.object_integrity a) (map.get v.object_integrity b)) }
    ensures chain { (v : State) (a b : ℕ) → IsSecure v → Chain (Feeds v) a b
        → IsTrue (is_above (map.get v.object_integrity a) (map.get v.object_integrity b)) }
{}

/// Whatever a subject comes to use in a secure state, trusted or not, is as trustworthy as the subject: where it uses
/// an object, the object's integrity label dominates its own, and so does that of each object that feeds it. (MTR-3153,
/// strict integrity policy)
pub fn subjects_use_what_is_as_trustworthy()
    ensures used { (v : State) (s b : ℕ) (x : Mode) → IsSecure v → IsTrue (set.contains v.accesses (s, b, x))
        → IsTrue (uses x) →
        IsTrue (is_above (map.get v.object_integrity b) (map.get v.subject_integrity s)) }
    ensures reached { (v : State) (s a b : ℕ) (x : Mode) → IsSecure v → Chain (Feeds v) a b
        → IsTrue (set.contains v.accesses (s, b, x)) →
        IsTrue (uses x) → IsTrue (is_above (map.get v.object_integrity a) (map.get v.subject_integrity s)) }
{}

/// Objects that feed each other in a secure state have one integrity label.
pub fn objects_that_feed_each_other_have_one_integrity()
    ensures { (v : State) (a b : ℕ) → IsSecure v → Chain (Feeds v) a b → Chain (Feeds v) b a
        → map.get v.object_integrity a ≡ map.get v.object_integrity b }
{}
