//! The steps of the session that holds the gate on the words of accesses, by which entries join the present journal.
ghost use Rattle.std.specs.Prelude.{◌≡◌, ◌≢◌, ◌+◌, ◌%◌, ◌^◌, ◌<◌, ◌++◌, ◌∷◌, [], ℕ, true, List, Some, None};
ghost use mathlib.Core.Option as maybe;
ghost use Rattle.atomic_table.specs.Table.{step, Allows};
ghost use Rattle.mls_requests.specs.declared.entry.Entry.{Entry};
ghost use Rattle.mls_monitor.specs.Journal.{fold};
ghost use Rattle.mls_state.specs.State.{is_active};
ghost use Rattle.mls_sessions.specs.Cells.{Tells, OneWord, Agrees, Finer, OfActive, note};
ghost use Rattle.mls_turns.specs.Journals.{Journal, Stands};
ghost use Rattle.mls_sessions.specs.Rule.{Gated, begun, base};
ghost use Rattle.mls_sessions.specs.Sessions.{member_of, taken_of, notes_of, number_of, noting, Holds, HasMore};
ghost use Rattle.mls_sessions.specs.Sessions.{HasChange};
ghost use Rattle.mls_sessions.specs.Changes.{changes};
ghost use Rattle.mls_sessions.specs.Steps.{published, published_view};

use crate::cells::BLANK;
use crate::gate::SLOT;
use crate::gate_table::{Gate, GateSeat};
use crate::limits::{CHANGES, FIRST};
use crate::steps::{Blank, Publish, Read};
use mls_tables::{MAX_OBJECTS, ObjectId};
use mls_turns::BoxedMonitor;

/// Lays the monitor into the slot.
fn lay(gate: &Gate, seat: &mut GateSeat, monitor: BoxedMonitor)
    requires office { (seat.old.table_id ≡ gate.now.table_id) × (seat.old.me.1 ≡ (0, None) ∷ []) }
    ensures seat { (seat.new.table_id ≡ seat.old.table_id) × (seat.new.id ≡ seat.old.id) }
    ensures lies { seat.new.me ≡ (seat.old.me.0, (0, Some monitor) ∷ []) }
    ensures legal { Stands monitor.start monitor.entries }
{
    let _legal = monitor.entries();
    match gate.exchange(seat, SLOT, Some(monitor)) {
        None => {}
        Some(_) => unreachable!(),
    }
}

/// Takes the monitor up again.
fn take_up(gate: &Gate, seat: &mut GateSeat) -> BoxedMonitor
    requires office { seat.old.table_id ≡ gate.now.table_id }
    requires lies { (m : Journal) × (seat.old.me.1 ≡ (0, Some m) ∷ []) }
    ensures seat { (seat.new.table_id ≡ seat.old.table_id) × (seat.new.id ≡ seat.old.id) }
    ensures out { seat.new.me ≡ (seat.old.me.0, (0, None) ∷ []) }
    ensures same { (m : Journal) → seat.old.me.1 ≡ (0, Some m) ∷ [] → result ≡ m }
{
    match gate.exchange(seat, SLOT, None) {
        Some(monitor) => monitor,
        None => unreachable!(),
    }
}

/// Stores a word of accesses, while the monitor lies in the slot.
fn store_with(
    gate: &Gate,
    seat: &mut GateSeat,
    monitor: BoxedMonitor,
    at: u32,
    word: u64,
) -> BoxedMonitor
    requires office { (seat.old.table_id ≡ gate.now.table_id) × (gate.now.table_id.words ≡ gate.now.key.cells + FIRST)
        × (seat.old.me.1 ≡ (0, None) ∷ []) }
    requires place { at < gate.now.key.cells }
    requires rule { Stands monitor.start monitor.entries
        → Allows (Gated gate.now.key) gate.now.table_id.slots seat.old.id (seat.old.me.0, (0, Some monitor) ∷ [])
        (at + FIRST) (λ _. word) (λ _. published (step gate.now.table_id.slots (at + FIRST) word 0 maybe.none)
        (seat.old.me.0, (0, Some monitor) ∷ []) word) }
    ensures seat { (seat.new.table_id ≡ seat.old.table_id) × (seat.new.id ≡ seat.old.id) }
    ensures told { seat.new.me ≡ (published_view seat.old.me.0 ((0, Some monitor) ∷ []), (0, None) ∷ []) }
    ensures same { result ≡ monitor }
{
    lay(gate, seat, monitor);
    gate.store::<Publish>(seat, at as usize + FIRST, word);
    take_up(gate, seat)
}

/// Lets entries into the present journal that change what one word tells, by the store of that word.
pub(crate) fn store_word(
    gate: &Gate,
    seat: &mut GateSeat,
    monitor: BoxedMonitor,
    at: u32,
    word: u64,
) -> BoxedMonitor
    requires office { (seat.old.table_id ≡ gate.now.table_id) × (gate.now.table_id.words ≡ gate.now.key.cells + FIRST) }
    requires holds { seat.old.me
        ≡ noting gate.now.key (member_of seat.old.me.0) (taken_of seat.old.me.0) (notes_of seat.old.me.0) }
    requires place { at < gate.now.key.cells }
    requires entries { (added : List Entry) × HasMore gate.now.key seat.old.me added monitor
        × OneWord (begun gate.now.key) (base gate.now.key ++ (taken_of seat.old.me.0).later)
        (base gate.now.key ++ ((taken_of seat.old.me.0).later ++ added)) (notes_of seat.old.me.0) gate.now.key.cells at word
        × (changes added ≡ 0) }
    ensures seat { (seat.new.table_id ≡ seat.old.table_id) × (seat.new.id ≡ seat.old.id) }
    ensures holds { Holds gate.now.key result seat.new.me × (number_of seat.new.me.0 ≡ number_of seat.old.me.0) }
    ensures same { result ≡ monitor }
{
    store_with(gate, seat, monitor, at, word)
}

/// Counts one change more, while the monitor lies in the slot.
fn count_with(gate: &Gate, seat: &mut GateSeat, monitor: BoxedMonitor) -> BoxedMonitor
    requires office { (seat.old.table_id ≡ gate.now.table_id) × (gate.now.table_id.words ≡ gate.now.key.cells + FIRST)
        × (seat.old.me.1 ≡ (0, None) ∷ []) }
    requires rule { Stands monitor.start monitor.entries
        → Allows (Gated gate.now.key) gate.now.table_id.slots seat.old.id (seat.old.me.0, (0, Some monitor) ∷ [])
        CHANGES (λ n. (n + 1) % 2 ^ 64) (published (step gate.now.table_id.slots CHANGES 1 0 maybe.none)
        (seat.old.me.0, (0, Some monitor) ∷ [])) }
    ensures seat { (seat.new.table_id ≡ seat.old.table_id) × (seat.new.id ≡ seat.old.id) }
    ensures told { seat.new.me ≡ (published_view seat.old.me.0 ((0, Some monitor) ∷ []), (0, None) ∷ []) }
    ensures same { result ≡ monitor }
{
    lay(gate, seat, monitor);
    let before = gate.fetch_add::<Publish>(seat, CHANGES, 1);
    let _ = before;
    take_up(gate, seat)
}

/// Lets entries into the present journal of which one is a change, by the step that counts it. No word of accesses tells
/// of them.
pub(crate) fn count_change(gate: &Gate, seat: &mut GateSeat, monitor: BoxedMonitor) -> BoxedMonitor
    requires office { (seat.old.table_id ≡ gate.now.table_id) × (gate.now.table_id.words ≡ gate.now.key.cells + FIRST) }
    requires holds { seat.old.me
        ≡ noting gate.now.key (member_of seat.old.me.0) (taken_of seat.old.me.0) (notes_of seat.old.me.0) }
    requires entries { HasChange gate.now.key seat.old.me monitor }
    ensures seat { (seat.new.table_id ≡ seat.old.table_id) × (seat.new.id ≡ seat.old.id) }
    ensures holds { Holds gate.now.key result seat.new.me × (number_of seat.new.me.0 ≡ number_of seat.old.me.0) }
    ensures same { result ≡ monitor }
{
    let length = monitor.next_number();
    let _ = length;
    count_with(gate, seat, monitor)
}

/// Reads the word at a place, and notes it.
pub(crate) fn read(gate: &Gate, seat: &mut GateSeat, at: u32) -> u64
    requires office { (seat.old.table_id ≡ gate.now.table_id) × (gate.now.table_id.words ≡ gate.now.key.cells + FIRST) }
    requires holds { seat.old.me
        ≡ noting gate.now.key (member_of seat.old.me.0) (taken_of seat.old.me.0) (notes_of seat.old.me.0) }
    requires place { at < gate.now.key.cells }
    ensures seat { (seat.new.table_id ≡ seat.old.table_id) × (seat.new.id ≡ seat.old.id) }
    ensures noted { seat.new.me ≡ noting gate.now.key (member_of seat.old.me.0) (taken_of seat.old.me.0)
        (note at result ∷ notes_of seat.old.me.0) }
    ensures agrees { Agrees (notes_of seat.old.me.0) at result }
    ensures tells { Tells (fold (begun gate.now.key) (base gate.now.key ++ (taken_of seat.old.me.0).later)) at result }
{
    gate.load::<Read>(seat, at as usize + FIRST)
}

/// Makes the word at a place blank, and notes it.
fn blank(gate: &Gate, seat: &mut GateSeat, at: u32)
    requires office { (seat.old.table_id ≡ gate.now.table_id) × (gate.now.table_id.words ≡ gate.now.key.cells + FIRST) }
    requires holds { seat.old.me
        ≡ noting gate.now.key (member_of seat.old.me.0) (taken_of seat.old.me.0) (notes_of seat.old.me.0) }
    requires place { at < gate.now.key.cells }
    ensures seat { (seat.new.table_id ≡ seat.old.table_id) × (seat.new.id ≡ seat.old.id) }
    ensures noted { seat.new.me ≡ noting gate.now.key (member_of seat.old.me.0) (taken_of seat.old.me.0)
        (note at 0 ∷ notes_of seat.old.me.0) }
{
    gate.store::<Blank>(seat, at as usize + FIRST, BLANK);
}

/// Reads the word at a place, and leaves it blank.
pub(crate) fn hide(gate: &Gate, seat: &mut GateSeat, at: u32) -> u64
    requires office { (seat.old.table_id ≡ gate.now.table_id) × (gate.now.table_id.words ≡ gate.now.key.cells + FIRST) }
    requires holds { seat.old.me
        ≡ noting gate.now.key (member_of seat.old.me.0) (taken_of seat.old.me.0) (notes_of seat.old.me.0) }
    requires place { at < gate.now.key.cells }
    ensures seat { (seat.new.table_id ≡ seat.old.table_id) × (seat.new.id ≡ seat.old.id) }
    ensures holds { seat.new.me
        ≡ noting gate.now.key (member_of seat.old.me.0) (taken_of seat.old.me.0) (notes_of seat.new.me.0) }
    ensures finer { Finer (notes_of seat.old.me.0) (notes_of seat.new.me.0) }
    ensures blank { (w : ℕ) → Agrees (notes_of seat.new.me.0) at w → w ≡ 0 }
    ensures agrees { Agrees (notes_of seat.old.me.0) at result }
    ensures tells { Tells (fold (begun gate.now.key) (base gate.now.key ++ (taken_of seat.old.me.0).later)) at result }
{
    let word = read(gate, seat, at);
    if word != BLANK {
        blank(gate, seat, at);
    }
    word
}

/// Makes the word at a place blank, unless it is so, or is that of an object that the monitor has.
fn blank_unless_there(gate: &Gate, seat: &mut GateSeat, monitor: &BoxedMonitor, at: u32)
    requires office { (seat.old.table_id ≡ gate.now.table_id) × (gate.now.table_id.words ≡ gate.now.key.cells + FIRST) }
    requires holds { seat.old.me
        ≡ noting gate.now.key (member_of seat.old.me.0) (taken_of seat.old.me.0) (notes_of seat.old.me.0) }
    requires place { at < gate.now.key.cells }
    ensures seat { (seat.new.table_id ≡ seat.old.table_id) × (seat.new.id ≡ seat.old.id) }
    ensures holds { seat.new.me
        ≡ noting gate.now.key (member_of seat.old.me.0) (taken_of seat.old.me.0) (notes_of seat.new.me.0) }
    ensures finer { Finer (notes_of seat.old.me.0) (notes_of seat.new.me.0) }
    ensures there { (w : ℕ) → w ≢ 0 → Agrees (notes_of seat.new.me.0) at w
        → is_active (fold monitor.now.start monitor.now.entries) (at % MAX_OBJECTS) ≡ true }
{
    let word = read(gate, seat, at);
    if word == BLANK {
        return;
    }
    let is_there = monitor.is_active(ObjectId::new((at % u32::from(MAX_OBJECTS)) as u16));
    if !is_there {
        blank(gate, seat, at);
    }
}

/// Makes the words of objects blank that the monitor doesn't have.
pub(crate) fn blank_deleted(gate: &Gate, seat: &mut GateSeat, cells: u32, monitor: &BoxedMonitor)
    requires office { (seat.old.table_id ≡ gate.now.table_id) × (gate.now.table_id.words ≡ gate.now.key.cells + FIRST)
        × (cells ≡ gate.now.key.cells) }
    requires holds { seat.old.me
        ≡ noting gate.now.key (member_of seat.old.me.0) (taken_of seat.old.me.0) (notes_of seat.old.me.0) }
    ensures seat { (seat.new.table_id ≡ seat.old.table_id) × (seat.new.id ≡ seat.old.id) }
    ensures holds { seat.new.me
        ≡ noting gate.now.key (member_of seat.old.me.0) (taken_of seat.old.me.0) (notes_of seat.new.me.0) }
    ensures finer { Finer (notes_of seat.old.me.0) (notes_of seat.new.me.0) }
    ensures rest { OfActive (fold monitor.now.start monitor.now.entries) (notes_of seat.new.me.0) cells }
{
    for i in 0..cells {
        blank_unless_there(gate, seat, monitor, i);
    }
}
