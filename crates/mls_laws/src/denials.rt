//! Requests that are denied or undefined.
ghost use Rattle.std.specs.Prelude.{◌≡◌, ℕ, List, take, slice_get, Some};
ghost use Rattle.mls_requests.specs.declared.request.Request.{Request};
ghost use Rattle.mls_requests.specs.declared.reason.Reason.{Reason};
ghost use Rattle.mls_requests.specs.declared.reply.Reply.TheVariants.{No, Undefined};
ghost use Rattle.mls_requests.specs.declared.entry.Entry.{Entry};
ghost use Rattle.mls_state.specs.State.{State};
ghost use Rattle.mls_rules.specs.Rules.{reply, after};
ghost use Rattle.mls_monitor.specs.Journal.{fold, IsLegal};
ghost use Rattle.mls_laws.specs.Journals.{granted_only};

/// A request that is denied, or that names what isn't there, leaves the state as it was. (MTR-2997, decisions no and ?)
pub fn denied_requests_change_nothing()
    ensures denied { (v : State) (r : Request) (reason : Reason) → reply v r ≡ No reason → after v r ≡ v }
    ensures undefined { (v : State) (r : Request) → reply v r ≡ Undefined → after v r ≡ v }
{}

/// Without its denied and undefined entries a legal journal leads to the same state, and each entry that is left has
/// the reply that the rules give it there.
pub fn denied_requests_can_be_left_out()
    ensures replies { (v : State) (entries : List Entry) (n : ℕ) (e : Entry) → IsLegal v entries
        → slice_get (granted_only entries) n ≡ Some e →
        e.reply ≡ reply (fold v (take n (granted_only entries))) e.request }
    ensures state { (v : State) (entries : List Entry) → IsLegal v entries
        → fold v (granted_only entries) ≡ fold v entries }
{}
