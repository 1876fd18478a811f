//! What the thread of one session does.
ghost use Rattle.std.specs.Prelude.{◌≡◌, ◌≤◌, vec_capacity};
ghost use Rattle.mls_sessions.specs.Sessions.{IsOf, number_of};
ghost use Rattle.mls_sessions.specs.Feeds.{Serves};

use crate::asked::Asked;
use crate::exchange::take_turn;
use crate::office::Office;
use crate::session::Session;
use mls_monitor::{Answer, Feed, Stage};
use mls_requests::Ask;
use mls_turns::AHEAD;
use std::alloc::Global;
use std::snapshot::Snapshot;
use std::sync::Wait;
use std::sync::atomic::{AtomicBool, Ordering};
use std::thread::Promise;

/// Asks for all that the feed gives, until an allocation fails, and leaves the gate to the others. The lists are room
/// for what is asked in one turn, and for the answers.
#[tactic(auto, using(crate::proofs::Feeds::asking_none, crate::proofs::Feeds::asking_on))]
fn attend<R: Wait, F: Feed>(
    rt: &R,
    office: &Office,
    mut session: Session,
    mut feed: F,
    mut asks: Vec<Ask>,
    mut answers: Vec<Answer>,
) -> (Session, F, Asked)
    requires session { IsOf office.now session × (F.stands_at feed ≡ Stage.Ready) }
    requires room { (AHEAD ≤ vec_capacity asks) × (AHEAD ≤ vec_capacity answers) }
    ensures session { IsOf office.now result.0 × (number_of result.0.view ≡ number_of session.view) }
    ensures done { result.2 ≡ Asked.ToTheEnd → F.stands_at result.1 ≡ Stage.Done }
    ensures served { Serves F.gives F.gives_ahead F.hears F.stops office.now session feed result.2 result.0 result.1 }
{
    loop {
        match take_turn(rt, office, &mut session, &mut feed, &mut asks, &mut answers) {
            Ok(true) => {}
            Ok(false) => {
                office.lobby.leave();
                return (session, feed, Asked::ToTheEnd);
            }
            Err(_) => {
                office.lobby.leave();
                return (session, feed, Asked::UntilRefused);
            }
        }
    }
}

/// Asks for all that the feed gives, unless the flag says to leave it alone. Where there is no room for what is asked
/// in one turn, the feed is asked nothing.
#[tactic(auto, using(crate::proofs::Feeds::serves_not, crate::proofs::Feeds::serves_no_room))]
pub(crate) fn attend_unless<R: Wait, F: Feed>(
    rt: &R,
    alloc: Global,
    left_alone: &AtomicBool,
    office: &Office,
    session: Session,
    feed: F,
) -> (Session, F, Asked)
    requires { IsOf office.now session × (F.stands_at feed ≡ Stage.Ready) }
    ensures session { IsOf office.now result.0 × (number_of result.0.view ≡ number_of session.view) }
    ensures done { result.2 ≡ Asked.ToTheEnd → F.stands_at result.1 ≡ Stage.Done }
    ensures served { Serves F.gives F.gives_ahead F.hears F.stops office.now session feed result.2 result.0 result.1 }
{
    if left_alone.load(Ordering::SeqCst) {
        return (session, feed, Asked::NotAtAll);
    }
    let Ok(asks) = Vec::with_capacity(alloc, AHEAD) else {
        return (session, feed, Asked::UntilRefused);
    };
    let Ok(answers) = Vec::with_capacity(alloc, AHEAD) else {
        return (session, feed, Asked::UntilRefused);
    };
    attend(rt, office, session, feed, asks, answers)
}

/// A thread's promise: the session comes back with its office and its number, and the feed as it was served; if it was
/// asked to its end, it is done.
#[derive(Drop)]
pub struct Back<'a, F>(pub &'a Office, pub Snapshot<Session>, pub Snapshot<F>);

impl<'a, F: Feed> Promise<(Session, F, Asked)> for Back<'a, F> {
    ghost use Rattle.mls_sessions.specs.declared.asked.Asked.TheVariants.{ToTheEnd};
    ghost use Rattle.mls_monitor.specs.declared.feed.Stage.TheVariants.{Done};

    ghost kept_by = { λ p r. IsOf p.0.now r.0 × (number_of r.0.view ≡ number_of p.1.value.view)
        × (r.2 ≡ ToTheEnd → F.stands_at r.1 ≡ Done)
        × Serves F.gives F.gives_ahead F.hears F.stops p.0.now p.1.value p.2.value r.2 r.0 r.1 };
}
