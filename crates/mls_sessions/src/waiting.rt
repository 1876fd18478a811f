//! How a session waits for the gate.
ghost use Rattle.std.specs.Prelude.{◌≡◌, ◌+◌, ◌≢◌};
ghost use Rattle.mls_sessions.specs.Steps.{kept_view};
ghost use Rattle.mls_sessions.specs.Sessions.{member_of, seated, TookOut, number_of};

use crate::gate::{FREE, WORD, look, mark, named, win};
use crate::gate_table::{Gate, GateSeat};
use crate::limits::FIRST;
use crate::office::Office;
use crate::pace::Pace;
use mls_turns::BoxedMonitor;
use std::sync::Wait;

/// Sets the mark and sleeps until it is woken, unless the gate's word is another by then. It returns whether it may
/// have slept.
fn sleep<R: Wait>(gate: &Gate, rt: &R, seat: &mut GateSeat, seen: u64) -> bool
    requires office { (seat.old.table_id ≡ gate.now.table_id) × (gate.now.table_id.words ≡ gate.now.key.cells + FIRST) }
    requires session { seat.old.me ≡ seated gate.now.key (member_of seat.old.me.0) }
    requires held { seen ≢ 0 }
    ensures seat { (seat.new.table_id ≡ seat.old.table_id) × (seat.new.id ≡ seat.old.id) }
    ensures same { seat.new.me ≡ seat.old.me }
{
    match mark(gate, seat, seen) {
        Some(marked) => {
            gate.park(rt, WORD, (marked % (1 << 32)) as u32);
            true
        }
        None => false,
    }
}

/// Waits until the gate is free, and takes the monitor out, for a turn in which so much is asked. It backs off as the
/// office says; then it sets the mark and sleeps until it is woken. Whoever may have slept so wins with the mark set,
/// for others may sleep still.
pub(crate) fn wait<R: Wait>(
    office: &Office,
    rt: &R,
    seat: &mut GateSeat,
    pace: &mut Pace,
    number: u32,
    asks: u64,
) -> BoxedMonitor
    requires office { seat.old.table_id ≡ office.now.table }
    requires session { (seat.old.me ≡ seated office.now.charter (member_of seat.old.me.0))
        × (number ≡ number_of seat.old.me.0) }
    ensures seat { (seat.new.table_id ≡ seat.old.table_id) × (seat.new.id ≡ seat.old.id) }
    ensures won { TookOut office.now.charter (member_of seat.old.me.0) result seat.new.me }
    ensures back { kept_view seat.new.me.0 ≡ seat.old.me.0 }
{
    pace.begin(asks);
    let gate = &office.table.shared;
    let name = named(number);
    if let Ok(monitor) = win(gate, seat, name) {
        return monitor;
    }
    let backoff = office.lobby.backoff;
    let looks = asks.saturating_mul(u64::from(backoff.looks));
    let mut held = name;
    let mut races = 0;
    let mut naps = 0;
    for _ in rt.forever() {
        let seen = look(gate, looks);
        if seen == FREE {
            if let Ok(monitor) = win(gate, seat, held) {
                return monitor;
            }
        }
        if seen == FREE && races < backoff.races {
            races += 1;
        } else if naps < backoff.naps {
            office.lobby.nap(rt, pace);
            naps += 1;
        } else if seen != FREE && sleep(gate, rt, seat, seen) {
            held = name + 1;
        }
    }
    unreachable!()
}
