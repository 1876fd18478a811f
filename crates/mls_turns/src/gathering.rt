//! What a feed asks in one turn, and what it is told after it.
ghost use Rattle.std.specs.Prelude.{◌≡◌, ◌≢◌, ◌<◌, ◌≤◌, length, None, vec_len, vec_capacity};
ghost use Rattle.mls_turns.specs.Turns.{asks_given};
ghost use Rattle.mls_monitor.specs.Feeds.{Gave, Heard, Halted};

use crate::given::Given;
use crate::limits::AHEAD;
use mls_monitor::{Answer, Feed, Stage};
use mls_requests::Ask;

/// What the feed asks next, and what it asks ahead, as long as there is room. One ask alone isn't put into the list.
#[tactic(auto, using(crate::proofs::Feeds::gave_first, crate::proofs::Feeds::gave_two, crate::proofs::Feeds::gave_one))]
pub fn take_asks<F: Feed>(feed: &mut F, asks: &mut Vec<Ask>) -> Given
    requires ready { F.stands_at feed.old ≡ Stage.Ready }
    requires room { AHEAD ≤ vec_capacity asks.old }
    ensures room { AHEAD ≤ vec_capacity asks.new }
    ensures many { result ≡ Given.Several → vec_len asks.new ≤ AHEAD }
    ensures less { result ≢ Given.Nothing → F.asks_left feed.new < F.asks_left feed.old }
    ensures waits { result ≢ Given.Nothing → (F.stands_at feed.new ≡ Stage.Waiting)
        × (F.waits_for feed.new ≡ length (asks_given result asks.new.items))
        × (0 < length (asks_given result asks.new.items)) }
    ensures gave { result ≢ Given.Nothing
        → Gave F.gives F.gives_ahead feed.old (asks_given result asks.new.items) feed.new }
    ensures done { result ≡ Given.Nothing → (F.stands_at feed.new ≡ Stage.Done) × F.gives feed.old None feed.new }
{
    let Some(first) = feed.next() else {
        return Given::Nothing;
    };
    let Some(second) = feed.ahead() else {
        return Given::One(first);
    };
    asks.clear();
    asks.push_reserved(first);
    asks.push_reserved(second);
    while asks.len() < AHEAD {
        let Some(ask) = feed.ahead() else {
            return Given::Several;
        };
        asks.push_reserved(ask);
    }
    Given::Several
}

/// Tells the feed the answers to the first of what it gave.
#[tactic(auto, using(crate::proofs::Feeds::heard_next))]
pub fn tell<F: Feed>(feed: &mut F, answers: &[Answer])
    requires { (F.stands_at feed.old ≡ Stage.Waiting) × (0 < F.waits_for feed.old)
        × (length answers.now ≤ F.waits_for feed.old) }
    ensures left { F.asks_left feed.new ≤ F.asks_left feed.old }
    ensures ready { length answers.now ≡ F.waits_for feed.old → F.stands_at feed.new ≡ Stage.Ready }
    ensures waits { length answers.now < F.waits_for feed.old → F.stands_at feed.new ≡ Stage.Waiting }
    ensures heard { Heard F.hears feed.old answers.now feed.new }
{
    for answer in answers {
        feed.told(answer);
    }
}

/// Tells the feed the answers to the first of what it gave, and that it is stopped.
pub fn halt<F: Feed>(feed: &mut F, answers: &[Answer])
    requires { (F.stands_at feed.old ≡ Stage.Waiting) × (length answers.now < F.waits_for feed.old) }
    ensures left { F.asks_left feed.new ≤ F.asks_left feed.old }
    ensures waits { F.stands_at feed.new ≡ Stage.Waiting }
    ensures halted { Halted F.hears F.stops feed.old answers.now feed.new }
{
    tell(feed, answers);
    feed.stopped();
}
