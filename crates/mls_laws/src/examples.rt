//! That the laws speak of something, and the definitions of this crate from both sides.
ghost use Rattle.std.specs.Prelude.{◌≡◌, ℕ, List, ◌∷◌, None, IsTrue};
ghost use Rattle.std.specs.FinSet as set;
ghost use Rattle.mls_tables.specs.declared.mode.Mode.TheVariants.{Read, Write};
ghost use Rattle.mls_requests.specs.declared.request.Request.{Request};
ghost use Rattle.mls_requests.specs.declared.reason.Reason.{Reason};
ghost use Rattle.mls_requests.specs.declared.reason.Reason.TheVariants.{Discretionary};
ghost use Rattle.mls_requests.specs.declared.reply.Reply.TheVariants.{Yes, Created, No, Undefined};
ghost use Rattle.mls_requests.specs.declared.entry.Entry.{Entry};
ghost use Rattle.mls_state.specs.Properties.{IsSecure};
ghost use Rattle.mls_start.specs.Rows.{opening};
ghost use Rattle.mls_start.specs.StartFaults.{start_fault};
ghost use Rattle.mls_rules.specs.Rules.{reply, after};
ghost use Rattle.mls_monitor.specs.Journal.{IsLegal};
ghost use Rattle.mls_laws.specs.Flow.{Flows, Feeds};
ghost use Rattle.mls_laws.specs.Journals.{run};
ghost use Rattle.mls_laws.specs.Provenance.{Provenance};
ghost use Rattle.mls_laws.specs.SystemZ.{z_reply, z_after, ShowsSystemZ};
ghost use Rattle.mls_laws.specs.Examples.{example_rows, ann_reads_plans, bob_writes_plans, ann_read, ann_released};

/// A secure state has an access: with the rows of the start nothing is wrong, it opens secure, ann is granted to read
/// plans, and then holds that access in a secure state.
pub fn a_secure_state_has_an_access()
    ensures start { start_fault example_rows ≡ None }
    ensures opening { IsSecure (opening example_rows) }
    ensures reply { reply (opening example_rows) ann_reads_plans ≡ Yes }
    ensures secure { IsSecure (after (opening example_rows) ann_reads_plans) }
    ensures held { IsTrue (set.contains (after (opening example_rows) ann_reads_plans).accesses (0, 1, Read)) }
{}

/// Something flows: some requests to the start lead to a secure state where something flows from the root to plans, and
/// nothing back. What a trusted subject holds is no flow, but it feeds: others lead to one where memo feeds the root,
/// and doesn't flow to it.
pub fn something_flows()
    ensures up { (requests : List Request) × IsSecure (run (opening example_rows) requests)
        × Flows (run (opening example_rows) requests) 0 1
        × (Flows (run (opening example_rows) requests) 1 0 → ⊥) }
    ensures trusted { (requests : List Request) × IsSecure (run (opening example_rows) requests)
        × Feeds (run (opening example_rows) requests) 2 0
        × (Flows (run (opening example_rows) requests) 2 0 → ⊥) }
{}

/// Each reply is given, and each reason for a denial comes up: some requests to the start lead to a state in which some
/// request is answered so.
pub fn each_reply_is_given()
    ensures yields { (requests : List Request) × (r : Request) × (reply (run (opening example_rows) requests) r ≡ Yes) }
    ensures created { (requests : List Request) × (r : Request)
        × (reply (run (opening example_rows) requests) r ≡ Created 4) }
    ensures denied { (reason : Reason) → (requests : List Request) × (r : Request)
        × (reply (run (opening example_rows) requests) r ≡ No reason) }
    ensures undefined { (requests : List Request) × (r : Request)
        × (reply (run (opening example_rows) requests) r ≡ Undefined) }
{}

/// An access has its reason in a legal journal in which ann is granted to read plans, and has none in one in which she
/// then releases it.
pub fn some_accesses_have_a_reason()
    ensures granted { IsLegal (opening example_rows) ann_read × Provenance (opening example_rows) ann_read 0 1 Read }
    ensures ended { IsLegal (opening example_rows) ann_released
        × (Provenance (opening example_rows) ann_released 0 1 Read → ⊥) }
{}

/// System Z grants what the monitor denies: bob asks to write plans, for which he has no permission; it says yes, its
/// state is secure, and no legal journal that begins with his request shows its replies. (McLean 1987)
pub fn system_z_grants_what_the_monitor_denies()
    ensures denied { reply (opening example_rows) bob_writes_plans ≡ No Discretionary }
    ensures granted { z_reply (opening example_rows) bob_writes_plans ≡ Yes }
    ensures held { IsTrue (set.contains (z_after (opening example_rows) bob_writes_plans).accesses (1, 1, Write)) }
    ensures secure { IsSecure (z_after (opening example_rows) bob_writes_plans) }
    ensures journals { (entries : List Entry) (e : Entry) → IsLegal (opening example_rows) (e ∷ entries)
        → e.request ≡ bob_writes_plans →
        ShowsSystemZ (opening example_rows) (e ∷ entries) → ⊥ }
{}
