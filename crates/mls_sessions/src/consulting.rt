//! One session's turn at the gate in which it makes no entry: it asks what would be replied, or puts a question.
ghost use Rattle.std.specs.Prelude.{◌≡◌, ◌+◌, length};
ghost use Rattle.mls_rules.specs.Rules.{reply};
ghost use Rattle.mls_monitor.specs.Journal.{fold};
ghost use Rattle.mls_sessions.specs.Rule.{begun};
ghost use Rattle.mls_sessions.specs.Steps.{IsBefore, kept_view};
ghost use Rattle.mls_sessions.specs.Sessions.{member_of, taken_of, seated, Holds, Sees, history, journal_seen, number_of};
ghost use Rattle.mls_sessions.specs.Sessions.{ForgetsNone};

use crate::counts::Counts;
use crate::gate_table::{Gate, GateSeat};
use crate::homing::bring_home;
use crate::limits::FIRST;
use crate::question::Question;
use mls_requests::{Reply, Request};
use mls_turns::BoxedMonitor;

/// What would be replied to a request, and the number that its entry would have.
#[derive(Clone, Copy, Debug, PartialEq, Eq)]
pub struct Decision {
    pub number: u64,
    pub reply: Reply,
}

/// Decides a request, puts the monitor home as it was, and has seen its journal. It wakes nobody, and returns also
/// whether someone may sleep.
#[tactic(auto, using(crate::proofs::Handing::leads_first))]
pub(crate) fn consult(
    gate: &Gate,
    seat: &mut GateSeat,
    counts: &mut Counts,
    monitor: BoxedMonitor,
    request: &Request,
) -> (Decision, bool)
    requires office { (seat.old.table_id ≡ gate.now.table_id) × (gate.now.table_id.words ≡ gate.now.key.cells + FIRST) }
    requires session { Holds gate.now.key monitor seat.old.me }
    requires before { IsBefore (member_of seat.old.me.0) (taken_of seat.old.me.0) }
    ensures seat { (seat.new.table_id ≡ seat.old.table_id) × (seat.new.id ≡ seat.old.id) }
    ensures session { (seat.new.me ≡ seated gate.now.key (member_of seat.new.me.0))
        × (number_of seat.new.me.0 ≡ number_of seat.old.me.0) }
    ensures seen { Sees gate.now.key (kept_view seat.old.me.0) seat.new.me.0 }
    ensures stays { ForgetsNone seat.old.me.0 seat.new.me.0 }
    ensures number { result.0.number ≡ length (history seat.new.me.0) }
    ensures reply { result.0.reply ≡ reply (fold (begun gate.now.key) (history seat.new.me.0)) request.now }
    ensures made { counts.new.made ≡ counts.old.made }
    ensures counts { counts.new.seen ≡ length (history seat.new.me.0) }
{
    let reply = monitor.decide(request);
    let number = monitor.next_number();
    let may_sleep = bring_home(gate, seat, monitor);
    counts.saw(number);
    (Decision { number, reply }, may_sleep)
}

/// Puts a question to the monitor, puts the monitor home as it was, and has seen its journal. It wakes nobody, and
/// returns whether someone may sleep.
#[tactic(auto, using(crate::proofs::Handing::leads_first))]
pub(crate) fn inquire<Q: Question>(
    gate: &Gate,
    seat: &mut GateSeat,
    counts: &mut Counts,
    monitor: BoxedMonitor,
    question: &mut Q,
) -> bool
    requires office { (seat.old.table_id ≡ gate.now.table_id) × (gate.now.table_id.words ≡ gate.now.key.cells + FIRST) }
    requires session { Holds gate.now.key monitor seat.old.me }
    requires before { IsBefore (member_of seat.old.me.0) (taken_of seat.old.me.0) }
    ensures seat { (seat.new.table_id ≡ seat.old.table_id) × (seat.new.id ≡ seat.old.id) }
    ensures session { (seat.new.me ≡ seated gate.now.key (member_of seat.new.me.0))
        × (number_of seat.new.me.0 ≡ number_of seat.old.me.0) }
    ensures seen { Sees gate.now.key (kept_view seat.old.me.0) seat.new.me.0 }
    ensures stays { ForgetsNone seat.old.me.0 seat.new.me.0 }
    ensures found { Q.finds question.old (journal_seen gate.now.key seat.new.me.0) question.new }
    ensures made { counts.new.made ≡ counts.old.made }
    ensures counts { counts.new.seen ≡ length (history seat.new.me.0) }
{
    question.look(monitor.monitor());
    let number = monitor.next_number();
    let is_marked = bring_home(gate, seat, monitor);
    counts.saw(number);
    is_marked
}
