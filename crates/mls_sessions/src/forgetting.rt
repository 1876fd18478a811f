//! One session's turn at the gate in which it has entries forgotten.
ghost use Rattle.std.specs.Prelude.{◌≡◌, ◌+◌, false, length};
ghost use Rattle.mls_sessions.specs.Steps.{IsBefore, kept_view};
ghost use Rattle.mls_sessions.specs.Sessions.{member_of, taken_of, seated, Holds, Sees, Forgets, ForgetsJust};
ghost use Rattle.mls_sessions.specs.Sessions.{history, number_of};

use crate::counts::Counts;
use crate::gate_table::{Gate, GateSeat};
use crate::homing::put_home;
use crate::limits::FIRST;
use crate::steps::Update;
use mls_turns::BoxedMonitor;

/// Has the monitor forget the entries with numbers below `n`, puts it home, and has seen its journal. It wakes nobody,
/// and returns whether someone may sleep.
#[tactic(auto, using(crate::proofs::Turns::forgets_just))]
pub(crate) fn forget(
    gate: &Gate,
    seat: &mut GateSeat,
    counts: &mut Counts,
    mut monitor: BoxedMonitor,
    n: u64,
) -> bool
    requires office { (seat.old.table_id ≡ gate.now.table_id) × (gate.now.table_id.words ≡ gate.now.key.cells + FIRST) }
    requires forgets { gate.now.key.lasts ≡ false }
    requires session { Holds gate.now.key monitor seat.old.me }
    requires before { IsBefore (member_of seat.old.me.0) (taken_of seat.old.me.0) }
    ensures seat { (seat.new.table_id ≡ seat.old.table_id) × (seat.new.id ≡ seat.old.id) }
    ensures session { (seat.new.me ≡ seated gate.now.key (member_of seat.new.me.0))
        × (number_of seat.new.me.0 ≡ number_of seat.old.me.0) }
    ensures seen { Sees gate.now.key (kept_view seat.old.me.0) seat.new.me.0 }
    ensures forgets { Forgets n (kept_view seat.old.me.0) seat.new.me.0 }
    ensures exact { ForgetsJust n seat.old.me.0 seat.new.me.0 }
    ensures made { counts.new.made ≡ counts.old.made }
    ensures counts { counts.new.seen ≡ length (history seat.new.me.0) }
{
    monitor.forget(n);
    let number = monitor.next_number();
    let is_marked = put_home::<Update>(gate, seat, monitor);
    counts.saw(number);
    is_marked
}
