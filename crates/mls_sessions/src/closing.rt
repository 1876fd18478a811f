//! How an office closes: the seats of its sessions are joined, and the monitor is taken out.
ghost use Rattle.std.specs.Prelude.{◌≡◌, ◌+◌, ◌<◌, [], length, vec_len};
ghost use Rattle.mls_sessions.specs.declared.gate_table.View.TheVariants.{Sessions};
ghost use Rattle.mls_sessions.specs.Sessions.{office_at, Ascending, members_of, Leaves};

use crate::gate::SLOT;
use crate::gate_table::{Gate, GateSeat, GateTable};
use crate::limits::FIRST;
use crate::session::Session;
use crate::steps::Gather;
use mls_turns::BoxedMonitor;

/// Joins the seats of all sessions, the last first.
pub(crate) fn gather(gate: &Gate, mut sessions: Vec<Session>) -> GateSeat
    requires some { 0 < vec_len sessions }
    requires office { Ascending (office_at gate.now.table_id gate.now.key) 0 sessions.items
        × (gate.now.table_id.words ≡ gate.now.key.cells + FIRST) }
    ensures { (result.table_id ≡ gate.now.table_id)
        × (result.me ≡ (Sessions gate.now.key (members_of sessions.items), [])) }
{
    let Some(last) = sessions.pop() else {
        unreachable!()
    };
    let mut all = last.into_seat();
    while let Some(next) = sessions.pop() {
        let mut seat = next.into_seat();
        gate.join_seat::<Gather>(&mut seat, all);
        all = seat;
    }
    all
}

/// Takes the monitor out of a table that all its sessions are given back to.
pub(crate) fn take_home(table: GateTable, sessions: Vec<Session>) -> BoxedMonitor
    requires table { (table.shared.table_id.words ≡ table.shared.key.cells + FIRST)
        × (table.shared.table_id.slots ≡ 1) }
    requires office { Ascending (office_at table.shared.table_id table.shared.key) 0 sessions.items }
    requires all { (length sessions.items ≡ table.shared.key.count) × (0 < table.shared.key.count) }
    ensures { Leaves (office_at table.shared.table_id table.shared.key) sessions.items result }
{
    let seat = gather(&table.shared, sessions);
    let mut closed = table.close_with(seat);
    let home = closed.take(SLOT);
    closed.free();
    match home {
        Some(monitor) => monitor,
        None => unreachable!(),
    }
}
