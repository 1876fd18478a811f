//! How a session puts the monitor home.
ghost use Rattle.std.specs.Prelude.{◌≡◌, ◌+◌, ◌∷◌, [], ℕ, Some, None};
ghost use mathlib.Core.Option as maybe;
ghost use Rattle.atomic_table.specs.Table.{step, Allows};
ghost use Rattle.mls_turns.specs.Journals.{Stands};
ghost use Rattle.mls_sessions.specs.Rule.{Gated};
ghost use Rattle.mls_sessions.specs.Sessions.{Holds, Leads};
ghost use Rattle.mls_sessions.specs.Steps.{kept_view, updated_view};

use crate::gate::{FREE, SLOT, WORD, is_marked};
use crate::gate_table::{Gate, GateSeat, View};
use crate::limits::FIRST;
use crate::steps::{Keep, Update};
use atomic_table::Play;
use mls_turns::BoxedMonitor;

/// Puts the monitor home and frees the gate. It wakes nobody, and returns whether someone may sleep.
pub(crate) fn put_home<M: Play<Option<BoxedMonitor>, View>>(
    gate: &Gate,
    seat: &mut GateSeat,
    monitor: BoxedMonitor,
) -> bool
    requires office { (seat.old.table_id ≡ gate.now.table_id) × (gate.now.table_id.words ≡ gate.now.key.cells + FIRST)
        × (seat.old.me.1 ≡ (0, None) ∷ []) }
    requires rule { Stands monitor.start monitor.entries
        → Allows (Gated gate.now.key) gate.now.table_id.slots seat.old.id (seat.old.me.0, (0, Some monitor) ∷ []) 0
        (λ _. 0) (M.then (step gate.now.table_id.slots 0 0 0 maybe.none) (seat.old.me.0, (0, Some monitor) ∷ [])) }
    ensures seat { (seat.new.table_id ≡ seat.old.table_id) × (seat.new.id ≡ seat.old.id) }
    ensures legal { Stands monitor.start monitor.entries }
    ensures told { (found : ℕ)
        × M.then (step gate.now.table_id.slots 0 0 0 maybe.none)
        (seat.old.me.0, (0, Some monitor) ∷ []) found seat.new.me }
{
    let _legal = monitor.entries();
    match gate.exchange(seat, SLOT, Some(monitor)) {
        None => {}
        Some(_) => unreachable!(),
    }
    let found = gate.swap::<M>(seat, WORD, FREE);
    is_marked(found)
}

/// Puts the monitor home with the entries that it has more than the present journal, which no word tells of: they join it
/// by this step, and the session has seen them. It wakes nobody, and returns whether someone may sleep.
pub(crate) fn bring_home(gate: &Gate, seat: &mut GateSeat, monitor: BoxedMonitor) -> bool
    requires office { (seat.old.table_id ≡ gate.now.table_id) × (gate.now.table_id.words ≡ gate.now.key.cells + FIRST) }
    requires leads { Leads gate.now.key monitor seat.old.me }
    ensures seat { (seat.new.table_id ≡ seat.old.table_id) × (seat.new.id ≡ seat.old.id) }
    ensures legal { Stands monitor.start monitor.entries }
    ensures told { seat.new.me ≡ (updated_view seat.old.me.0 ((0, Some monitor) ∷ []), []) }
{
    put_home::<Update>(gate, seat, monitor)
}

/// Puts the monitor home as it was taken out; the session's history stays. It wakes nobody, and returns whether someone
/// may sleep.
pub(crate) fn keep_home(gate: &Gate, seat: &mut GateSeat, monitor: BoxedMonitor) -> bool
    requires office { (seat.old.table_id ≡ gate.now.table_id) × (gate.now.table_id.words ≡ gate.now.key.cells + FIRST) }
    requires holds { Holds gate.now.key monitor seat.old.me }
    ensures seat { (seat.new.table_id ≡ seat.old.table_id) × (seat.new.id ≡ seat.old.id) }
    ensures told { seat.new.me ≡ (kept_view seat.old.me.0, []) }
{
    put_home::<Keep>(gate, seat, monitor)
}
