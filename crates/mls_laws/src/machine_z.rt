//! System Z, which keeps every state secure and grants every access, and is not the monitor.
ghost use Rattle.std.specs.Prelude.{◌≡◌, ℕ, List, take, slice_get, Some, IsTrue};
ghost use Rattle.std.specs.FinMap as map;
ghost use Rattle.std.specs.FinSet as set;
ghost use Rattle.mls_labels.specs.Label.{Label};
ghost use Rattle.mls_tables.specs.declared.mode.Mode.{Mode};
ghost use Rattle.mls_requests.specs.declared.action.Action.TheVariants.{Get};
ghost use Rattle.mls_requests.specs.declared.request.Request.{Request};
ghost use Rattle.mls_requests.specs.declared.reason.Reason.{Reason};
ghost use Rattle.mls_requests.specs.declared.reply.Reply.TheVariants.{Yes, No};
ghost use Rattle.mls_requests.specs.declared.entry.Entry.{Entry};
ghost use Rattle.mls_state.specs.State.{State, is_subject, is_active};
ghost use Rattle.mls_state.specs.Properties.{IsSecure};
ghost use Rattle.mls_rules.specs.Rules.{reply};
ghost use Rattle.mls_monitor.specs.Journal.{fold, IsLegal};
ghost use Rattle.mls_laws.specs.SystemZ.{bottom, z_reply, z_after, z_run, ShowsSystemZ};

/// System Z grants every access that is asked for, of a subject and an object that are there: it says yes, the access
/// is held after it, and every label is then the bottom. (McLean 1987)
pub fn system_z_grants_every_access()
    ensures reply { (v : State) (s o : ℕ) (x : Mode) → IsTrue (is_subject v s) → IsTrue (is_active v o) →
        z_reply v (record { subject = s; action = Get x o }) ≡ Yes }
    ensures held { (v : State) (s o : ℕ) (x : Mode) → IsTrue (is_subject v s) → IsTrue (is_active v o) →
        IsTrue (set.contains (z_after v (record { subject = s; action = Get x o })).accesses (s, o, x)) }
    ensures maximum { (v : State) (s o t : ℕ) (x : Mode) (l : Label) → IsTrue (is_subject v s)
        → IsTrue (is_active v o) →
        map.get (z_after v (record { subject = s; action = Get x o })).maximum t ≡ Some l → l ≡ bottom }
    ensures current { (v : State) (s o t : ℕ) (x : Mode) (l : Label) → IsTrue (is_subject v s)
        → IsTrue (is_active v o) →
        map.get (z_after v (record { subject = s; action = Get x o })).current t ≡ Some l → l ≡ bottom }
    ensures subject_integrity { (v : State) (s o t : ℕ) (x : Mode) (l : Label) → IsTrue (is_subject v s)
        → IsTrue (is_active v o) →
        map.get (z_after v (record { subject = s; action = Get x o })).subject_integrity t ≡ Some l → l ≡ bottom }
    ensures object_label { (v : State) (s o q : ℕ) (x : Mode) (l : Label) → IsTrue (is_subject v s)
        → IsTrue (is_active v o) →
        map.get (z_after v (record { subject = s; action = Get x o })).object_label q ≡ Some l → l ≡ bottom }
    ensures object_integrity { (v : State) (s o q : ℕ) (x : Mode) (l : Label) → IsTrue (is_subject v s)
        → IsTrue (is_active v o) →
        map.get (z_after v (record { subject = s; action = Get x o })).object_integrity q ≡ Some l → l ≡ bottom }
{}

/// And yet System Z keeps every state secure, whatever is asked of it: that each state is secure doesn't tell a monitor
/// from a machine that protects nothing. (McLean 1987)
pub fn system_z_keeps_every_state_secure()
    ensures { (v : State) (requests : List Request) → IsSecure v → IsSecure (z_run v requests) }
{}

/// The monitor isn't System Z: no legal journal shows System Z's replies where an access is asked for that the rules
/// deny; and where a subject's maximum label isn't the bottom, no journal leads where System Z goes at the first
/// access.
pub fn the_monitor_is_not_system_z()
    ensures replies { (v : State) (entries : List Entry) (n : ℕ) (e : Entry) (x : Mode) (o : ℕ) (reason : Reason)
        → IsLegal v entries →
        slice_get entries n ≡ Some e → e.request.action ≡ Get x o
        → reply (fold v (take n entries)) e.request ≡ No reason → ShowsSystemZ v entries → ⊥ }
    ensures states { (v : State) (s o t : ℕ) (x : Mode) (l : Label) → IsTrue (is_subject v s) → IsTrue (is_active v o) →
        map.get v.maximum t ≡ Some l → (l ≡ bottom → ⊥) → (entries : List Entry)
        → fold v entries ≡ z_after v (record { subject = s; action = Get x o }) → ⊥ }
{}
