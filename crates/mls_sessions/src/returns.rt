//! The lists of sessions and feeds that go out to threads and come back.
ghost use Rattle.std.specs.Prelude.{◌≡◌, ◌+◌, ◌<◌, ◌≤◌, ◌∷◌, ◌++◌, [], vec_len, vec_capacity, IfSome, IfNone};
ghost use Rattle.mls_sessions.specs.Sessions.{IsOf, Ascending};
ghost use Rattle.mls_monitor.specs.Feeds.{AllAt};
ghost use Rattle.mls_sessions.specs.Feeds.{IsWorst};

use crate::asked::Asked;
use crate::office::Office;
use crate::session::Session;
use mls_monitor::{Feed, Stage};

/// Puts one more behind those that came back.
#[tactic(auto, using(crate::proofs::Laws::at_snoc))]
pub(crate) fn put_last<F: Feed + Drop>(
    mut back: Vec<Session>,
    mut fed: Vec<F>,
    asked: Asked,
    last: (Session, F, Asked),
) -> (Vec<Session>, Vec<F>, Asked)
    requires room { (vec_len back < vec_capacity back) × (vec_len fed < vec_capacity fed) }
    requires done { asked ≡ Asked.ToTheEnd → AllAt F.stands_at Stage.Done fed.items }
    requires last { last.2 ≡ Asked.ToTheEnd → F.stands_at last.1 ≡ Stage.Done }
    ensures items { (result.0.items ≡ back.items ++ last.0 ∷ []) × (result.1.items ≡ fed.items ++ last.1 ∷ []) }
    ensures counts { (vec_len result.0 ≡ vec_len back + 1) × (vec_len result.1 ≡ vec_len fed + 1) }
    ensures room { (vec_capacity back ≤ vec_capacity result.0) × (vec_capacity fed ≤ vec_capacity result.1) }
    ensures done { result.2 ≡ Asked.ToTheEnd → AllAt F.stands_at Stage.Done result.1.items }
    ensures both { IsWorst asked last.2 result.2 }
{
    let (session, feed, mine) = last;
    back.push_reserved(session);
    fed.push_reserved(feed);
    (back, fed, asked.worse(mine))
}

/// The last session, with the others.
#[tactic(auto, using(crate::proofs::SeatsKeep::ascending_last))]
pub(crate) fn pop_session(office: &Office, sessions: &mut Vec<Session>) -> Option<Session>
    requires { Ascending office.now 0 sessions.old.items }
    ensures some { IfSome result
        (λ s. (sessions.old.items ≡ sessions.new.items ++ s ∷ []) × Ascending office.now 0 sessions.new.items
        × IsOf office.now s × (vec_len sessions.new + 1 ≡ vec_len sessions.old)) }
    ensures none { IfNone result (vec_len sessions.old ≡ 0) }
{
    let _ = office;
    sessions.pop()
}

/// The last feed, with the others.
#[tactic(auto, using(crate::proofs::Runs::at_last))]
pub(crate) fn pop_feed<F: Feed>(feeds: &mut Vec<F>) -> Option<F>
    requires { AllAt F.stands_at Stage.Ready feeds.old.items }
    ensures some { IfSome result
        (λ f. (feeds.old.items ≡ feeds.new.items ++ f ∷ []) × (F.stands_at f ≡ Stage.Ready)
        × AllAt F.stands_at Stage.Ready feeds.new.items × (vec_len feeds.new + 1 ≡ vec_len feeds.old)) }
    ensures none { IfNone result (vec_len feeds.old ≡ 0) }
{
    feeds.pop()
}
