//! What a deletion takes.
ghost use Rattle.std.specs.Prelude.{◌≡◌, ◌↔◌, ℕ, false, IsTrue};
ghost use Rattle.std.specs.FinMap as map;
ghost use Rattle.std.specs.FinSet as set;
ghost use Rattle.mls_tables.specs.declared.mode.Mode.{Mode};
ghost use Rattle.mls_tree.specs.Tree.{Reaches};
ghost use Rattle.mls_requests.specs.declared.action.Action.TheVariants.{Delete};
ghost use Rattle.mls_requests.specs.declared.reply.Reply.TheVariants.{Yes};
ghost use Rattle.mls_state.specs.State.{State, is_active};
ghost use Rattle.mls_state.specs.Properties.{IsSecure};
ghost use Rattle.mls_rules.specs.Rules.{reply, after};

/// A granted deletion takes just what reaches the deleted object by parents: these objects, and the accesses and the
/// permissions that name them. What stays keeps its labels and its parent. (MTR-2997, rule to delete an object group)
pub fn a_deletion_takes_what_reaches_the_object()
    ensures objects { (v : State) (s o q : ℕ) → IsSecure v → reply v (record { subject = s; action = Delete o }) ≡ Yes
        → IsTrue (is_active v q) →
        (is_active (after v (record { subject = s; action = Delete o })) q ≡ false) ↔ Reaches v.parent q o }
    ensures accesses { (v : State) (s o t q : ℕ) (x : Mode) → IsSecure v
        → reply v (record { subject = s; action = Delete o }) ≡ Yes →
        IsTrue (set.contains v.accesses (t, q, x)) →
        (set.contains (after v (record { subject = s; action = Delete o })).accesses (t, q, x) ≡ false)
        ↔ Reaches v.parent q o }
    ensures permissions { (v : State) (s o t q : ℕ) (x : Mode) → IsSecure v
        → reply v (record { subject = s; action = Delete o }) ≡ Yes →
        IsTrue (set.contains v.matrix (t, q, x)) →
        (set.contains (after v (record { subject = s; action = Delete o })).matrix (t, q, x) ≡ false)
        ↔ Reaches v.parent q o }
    ensures label { (v : State) (s o q : ℕ) → IsSecure v → reply v (record { subject = s; action = Delete o }) ≡ Yes →
        IsTrue (is_active (after v (record { subject = s; action = Delete o })) q) →
        map.get (after v (record { subject = s; action = Delete o })).object_label q ≡ map.get v.object_label q }
    ensures integrity { (v : State) (s o q : ℕ) → IsSecure v
        → reply v (record { subject = s; action = Delete o }) ≡ Yes →
        IsTrue (is_active (after v (record { subject = s; action = Delete o })) q) →
        map.get (after v (record { subject = s; action = Delete o })).object_integrity q
        ≡ map.get v.object_integrity q }
    ensures parent { (v : State) (s o q : ℕ) → IsSecure v → reply v (record { subject = s; action = Delete o }) ≡ Yes →
        IsTrue (is_active (after v (record { subject = s; action = Delete o })) q) →
        map.get (after v (record { subject = s; action = Delete o })).parent q ≡ map.get v.parent q }
{}
