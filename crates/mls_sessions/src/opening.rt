//! How an office opens: the monitor is put in, and each session gets a seat.
ghost use Rattle.std.specs.Prelude.{◌≡◌, ◌+◌, ◌≤◌, [], vec_len, vec_capacity, IfOk};
ghost use Rattle.mls_sessions.specs.declared.gate_table.View.TheVariants.{Starting, Giving};
ghost use Rattle.mls_turns.specs.Journals.{journal};
ghost use Rattle.mls_sessions.specs.Rule.{begun, base, base_length};
ghost use Rattle.mls_sessions.specs.Sessions.{office_at, newcomers};

use crate::gate::{FREE, OPENING, WORD};
use crate::gate_table::{Charter, Gate, GateSeat, GateTable};
use crate::homing::put_home;
use crate::limits::FIRST;
use crate::session::Session;
use crate::steps::{Fill, Give, Settle};
use mls_turns::BoxedMonitor;
use std::alloc::{AllocError, Global};

/// Puts the monitor into the empty slot.
pub(crate) fn settle(gate: &Gate, seat: &mut GateSeat, monitor: BoxedMonitor)
    requires office { (seat.old.table_id ≡ gate.now.table_id) × (gate.now.table_id.words ≡ gate.now.key.cells + FIRST) }
    requires first { (seat.old.me ≡ (Starting gate.now.key, []))
        × (monitor ≡ journal (begun gate.now.key) gate.now.key.forgotten (base gate.now.key)) }
    ensures seat { (seat.new.table_id ≡ seat.old.table_id) × (seat.new.id ≡ seat.old.id) }
    ensures giving { seat.new.me ≡ (Giving gate.now.key gate.now.key.count, []) }
{
    let found = gate.compare_exchange::<Fill>(seat, WORD, FREE, OPENING);
    let _ = found;
    let may_sleep = put_home::<Settle>(gate, seat, monitor);
    let _ = may_sleep;
}

/// A table for the sessions of an office that is opened with that, with an empty slot, and its first seat.
///
/// # Errors
/// `AllocError` where an allocation failed.
pub(crate) fn vacant_table(
    alloc: Global,
    charter: &Charter,
    cells: u32,
) -> Result<(GateTable, GateSeat), AllocError>
    requires { charter.now.cells ≡ cells }
    ensures table { IfOk result
        (λ r. (r.0.shared.table_id.words ≡ cells + FIRST) × (r.0.shared.table_id.slots ≡ 1)) }
    ensures charter { IfOk result (λ r. r.0.shared.key ≡ charter.now) }
    ensures seat { IfOk result (λ r. (r.1.table_id ≡ r.0.shared.table_id) × (r.1.me ≡ (Starting charter.now, []))) }
{
    let words = Vec::from_elem(alloc, FREE, cells as usize + FIRST)?;
    let made: (GateTable, GateSeat) = GateTable::vacant(alloc, &words, 1, charter)?;
    Ok(made)
}

/// Makes the sessions, one for each number.
pub(crate) fn give_all(
    gate: &Gate,
    seat: &mut GateSeat,
    sessions: &mut Vec<Session>,
    count: u32,
    base: u64,
)
    requires office { (seat.old.table_id ≡ gate.now.table_id) × (gate.now.table_id.words ≡ gate.now.key.cells + FIRST) }
    requires first { (seat.old.me ≡ (Giving gate.now.key count, [])) × (count ≡ gate.now.key.count)
        × (base ≡ base_length gate.now.key) }
    requires room { (sessions.old.items ≡ []) × (count ≤ vec_capacity sessions.old) }
    ensures all { vec_len sessions.new ≡ count }
    ensures sessions { sessions.new.items ≡ newcomers (office_at gate.now.table_id gate.now.key) count }
{
    for number in 0..count {
        let place = gate.split_seat::<Give>(seat);
        sessions.push_reserved(Session::enter(place, number, base));
    }
}
