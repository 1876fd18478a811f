//! How the session that holds the gate lets an entry into the present journal, and fills the words of accesses.
ghost use Rattle.std.specs.Prelude.{◌≡◌, ◌+◌, true, false};
ghost use Rattle.mls_sessions.specs.Sessions.{member_of, taken_of, notes_of, number_of, noting, Holds, Leads, IsNext};
ghost use Rattle.mls_sessions.specs.Touches.{touch_of};
ghost use Rattle.mls_sessions.specs.Changes.{is_change};
ghost use Rattle.mls_sessions.specs.declared.touch.Touch.TheVariants.{One};

use crate::cells::{BLANK, cell_of, word_after, word_of};
use crate::gate_table::{Gate, GateSeat};
use crate::holding::{blank_deleted, count_change, hide, read, store_word};
use crate::limits::FIRST;
use crate::touch::{Touch, is_change, makes_access, touch_of};
use mls_requests::Entry;
use mls_tables::{Mode, ObjectId, SubjectId};
use mls_turns::BoxedMonitor;

/// Leaves an entry to the swap that puts the monitor home, or lets it into the present journal by the store of a word.
/// It may change whether this triple is a current access, and is no change.
fn publish_one(
    gate: &Gate,
    seat: &mut GateSeat,
    cells: u32,
    monitor: BoxedMonitor,
    entry: &Entry,
    s: SubjectId,
    o: ObjectId,
    x: Mode,
) -> BoxedMonitor
    requires office { (seat.old.table_id ≡ gate.now.table_id) × (gate.now.table_id.words ≡ gate.now.key.cells + FIRST)
        × (cells ≡ gate.now.key.cells) }
    requires holds { seat.old.me
        ≡ noting gate.now.key (member_of seat.old.me.0) (taken_of seat.old.me.0) (notes_of seat.old.me.0) }
    requires entry { IsNext gate.now.key seat.old.me entry.now monitor }
    requires touch { (touch_of entry.now ≡ One s o x) × (is_change entry.now ≡ false) }
    ensures seat { (seat.new.table_id ≡ seat.old.table_id) × (seat.new.id ≡ seat.old.id) }
    ensures leads { Leads gate.now.key result seat.new.me × (number_of seat.new.me.0 ≡ number_of seat.old.me.0) }
    ensures same { result ≡ monitor }
{
    let Some(at) = cell_of(s, o, cells) else {
        return monitor;
    };
    let old = read(gate, seat, at);
    let word = word_after(old, s, x, makes_access(entry));
    if word == old {
        return monitor;
    }
    store_word(gate, seat, monitor, at, word)
}

/// Lets a change into the present journal by the step that counts it: the word of this triple, which it may end, is
/// blank meanwhile.
fn publish_change(
    gate: &Gate,
    seat: &mut GateSeat,
    cells: u32,
    monitor: BoxedMonitor,
    entry: &Entry,
    s: SubjectId,
    o: ObjectId,
    x: Mode,
) -> BoxedMonitor
    requires office { (seat.old.table_id ≡ gate.now.table_id) × (gate.now.table_id.words ≡ gate.now.key.cells + FIRST)
        × (cells ≡ gate.now.key.cells) }
    requires holds { seat.old.me
        ≡ noting gate.now.key (member_of seat.old.me.0) (taken_of seat.old.me.0) (notes_of seat.old.me.0) }
    requires entry { IsNext gate.now.key seat.old.me entry.now monitor }
    requires touch { (touch_of entry.now ≡ One s o x) × (is_change entry.now ≡ true) }
    ensures seat { (seat.new.table_id ≡ seat.old.table_id) × (seat.new.id ≡ seat.old.id) }
    ensures holds { Holds gate.now.key result seat.new.me × (number_of seat.new.me.0 ≡ number_of seat.old.me.0) }
    ensures same { result ≡ monitor }
{
    let Some(at) = cell_of(s, o, cells) else {
        return count_change(gate, seat, monitor);
    };
    let old = hide(gate, seat, at);
    let monitor = count_change(gate, seat, monitor);
    if old == BLANK {
        return monitor;
    }
    let word = word_after(old, s, x, makes_access(entry));
    store_word(gate, seat, monitor, at, word)
}

/// Lets the entry that was just made into the present journal where it changes what a word tells, the count of changes
/// among them. Else the entry is left to the next such step, or to the swap that puts the monitor home.
pub(crate) fn publish(
    gate: &Gate,
    seat: &mut GateSeat,
    cells: u32,
    monitor: BoxedMonitor,
    entry: &Entry,
) -> BoxedMonitor
    requires office { (seat.old.table_id ≡ gate.now.table_id) × (gate.now.table_id.words ≡ gate.now.key.cells + FIRST)
        × (cells ≡ gate.now.key.cells) }
    requires holds { seat.old.me
        ≡ noting gate.now.key (member_of seat.old.me.0) (taken_of seat.old.me.0) (notes_of seat.old.me.0) }
    requires entry { IsNext gate.now.key seat.old.me entry.now monitor }
    ensures seat { (seat.new.table_id ≡ seat.old.table_id) × (seat.new.id ≡ seat.old.id) }
    ensures leads { Leads gate.now.key result seat.new.me × (number_of seat.new.me.0 ≡ number_of seat.old.me.0) }
    ensures same { result ≡ monitor }
{
    let is_change = is_change(entry);
    match touch_of(entry) {
        Touch::Nothing => {
            if is_change {
                count_change(gate, seat, monitor)
            } else {
                monitor
            }
        }
        Touch::One(s, o, x) => {
            if is_change {
                publish_change(gate, seat, cells, monitor, entry, s, o, x)
            } else {
                publish_one(gate, seat, cells, monitor, entry, s, o, x)
            }
        }
        Touch::Many => {
            blank_deleted(gate, seat, cells, &monitor);
            count_change(gate, seat, monitor)
        }
    }
}

/// Writes the word of a subject and an object, where there is one, as the monitor has it.
pub(crate) fn refresh(
    gate: &Gate,
    seat: &mut GateSeat,
    cells: u32,
    monitor: BoxedMonitor,
    s: SubjectId,
    o: ObjectId,
) -> BoxedMonitor
    requires office { (seat.old.table_id ≡ gate.now.table_id) × (gate.now.table_id.words ≡ gate.now.key.cells + FIRST)
        × (cells ≡ gate.now.key.cells) }
    requires holds { Holds gate.now.key monitor seat.old.me }
    ensures seat { (seat.new.table_id ≡ seat.old.table_id) × (seat.new.id ≡ seat.old.id) }
    ensures holds { Holds gate.now.key result seat.new.me × (number_of seat.new.me.0 ≡ number_of seat.old.me.0) }
    ensures same { result ≡ monitor }
{
    let Some(at) = cell_of(s, o, cells) else {
        return monitor;
    };
    let word = word_of(&monitor, s, o);
    store_word(gate, seat, monitor, at, word)
}
