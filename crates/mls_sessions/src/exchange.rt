//! One turn of a feed: what it asks in it, and what it is told.
ghost use Rattle.std.specs.Prelude.{◌≡◌, ◌<◌, ◌≤◌, ◌∷◌, [], true, false, length, None, vec_capacity, IfOk, OnOk, OnErr};
ghost use Rattle.mls_sessions.specs.Sessions.{IsOf, number_of};
ghost use Rattle.mls_sessions.specs.Feeds.{Tells, Halts, TakesTurn, BreaksOff};

use crate::office::Office;
use crate::session::Session;
use mls_monitor::{Answer, Feed, Stage};
use mls_requests::Ask;
use mls_turns::{AHEAD, Given, halt, take_asks, tell};
use std::alloc::AllocError;
use std::sync::Wait;

/// Asks for the one thing that the feed gave, and tells it the answer.
///
/// # Errors
/// `AllocError` where an allocation failed; the feed is told that it is stopped.
#[tactic(auto, using(crate::proofs::Feeds::tells_one, crate::proofs::Feeds::halts_one))]
fn ask_one<R: Wait, F: Feed>(
    rt: &R,
    office: &Office,
    session: &mut Session,
    feed: &mut F,
    ask: Ask,
) -> Result<(), AllocError>
    requires session { IsOf office.now session.old }
    requires waits { (F.stands_at feed.old ≡ Stage.Waiting) × (F.waits_for feed.old ≡ 1) }
    ensures session { IsOf office.now session.new × (number_of session.new.view ≡ number_of session.old.view) }
    ensures left { F.asks_left feed.new ≤ F.asks_left feed.old }
    ensures ready { OnOk result (F.stands_at feed.new ≡ Stage.Ready) }
    ensures ok { OnOk result (Tells F.hears office.now session.old feed.old (ask ∷ []) session.new feed.new) }
    ensures err { OnErr result (Halts F.hears F.stops office.now session.old feed.old (ask ∷ []) session.new feed.new) }
{
    match session.ask(office, rt, ask) {
        Ok(answer) => {
            feed.told(&answer);
            Ok(())
        }
        Err(error) => {
            feed.stopped();
            Err(error)
        }
    }
}

/// Asks for all that the feed gave, one after the other in one turn at the gate, and tells it the answers. The second
/// list is room for these.
///
/// # Errors
/// `AllocError` where an allocation failed; the feed is told what was answered before, and that it is stopped.
#[tactic(auto, using(crate::proofs::Feeds::tells_all, crate::proofs::Feeds::halts_all))]
fn ask_several<R: Wait, F: Feed>(
    rt: &R,
    office: &Office,
    session: &mut Session,
    feed: &mut F,
    asks: &[Ask],
    answers: &mut Vec<Answer>,
) -> Result<(), AllocError>
    requires session { IsOf office.now session.old }
    requires waits { (F.stands_at feed.old ≡ Stage.Waiting) × (F.waits_for feed.old ≡ length asks.now)
        × (0 < length asks.now) }
    requires room { length asks.now ≤ vec_capacity answers.old }
    ensures session { IsOf office.now session.new × (number_of session.new.view ≡ number_of session.old.view) }
    ensures room { vec_capacity answers.old ≤ vec_capacity answers.new }
    ensures left { F.asks_left feed.new ≤ F.asks_left feed.old }
    ensures ready { OnOk result (F.stands_at feed.new ≡ Stage.Ready) }
    ensures ok { OnOk result (Tells F.hears office.now session.old feed.old asks.now session.new feed.new) }
    ensures err { OnErr result (Halts F.hears F.stops office.now session.old feed.old asks.now session.new feed.new) }
{
    answers.clear();
    match session.ask_all(office, rt, asks, answers) {
        Ok(()) => {
            tell(feed, answers);
            Ok(())
        }
        Err(error) => {
            halt(feed, answers);
            Err(error)
        }
    }
}

/// Asks for what the feed gives in one turn, tells it the answers, and returns whether it gave anything. The lists are
/// room for what is asked, and for the answers.
///
/// # Errors
/// `AllocError` where an allocation failed; the feed is told what was answered before, and that it is stopped.
#[tactic(auto, using(crate::proofs::Feeds::takes_turn, crate::proofs::Feeds::breaks_off))]
pub(crate) fn take_turn<R: Wait, F: Feed>(
    rt: &R,
    office: &Office,
    session: &mut Session,
    feed: &mut F,
    asks: &mut Vec<Ask>,
    answers: &mut Vec<Answer>,
) -> Result<bool, AllocError>
    requires session { IsOf office.now session.old × (F.stands_at feed.old ≡ Stage.Ready) }
    requires room { (AHEAD ≤ vec_capacity asks.old) × (AHEAD ≤ vec_capacity answers.old) }
    ensures session { IsOf office.now session.new × (number_of session.new.view ≡ number_of session.old.view) }
    ensures room { (AHEAD ≤ vec_capacity asks.new) × (AHEAD ≤ vec_capacity answers.new) }
    ensures on { IfOk result
        (λ on. on ≡ true → (F.asks_left feed.new < F.asks_left feed.old) × (F.stands_at feed.new ≡ Stage.Ready)) }
    ensures took { IfOk result
        (λ on. on ≡ true
        → TakesTurn F.gives F.gives_ahead F.hears office.now session.old feed.old session.new feed.new) }
    ensures done { IfOk result
        (λ on. on ≡ false → (session.new ≡ session.old) × (F.stands_at feed.new ≡ Stage.Done)
        × F.gives feed.old None feed.new) }
    ensures broke { OnErr result
        (BreaksOff F.gives F.gives_ahead F.hears F.stops office.now session.old feed.old session.new feed.new) }
{
    match take_asks(feed, asks) {
        Given::Nothing => return Ok(false),
        Given::One(ask) => ask_one(rt, office, session, feed, ask)?,
        Given::Several => ask_several(rt, office, session, feed, asks, answers)?,
    }
    Ok(true)
}
