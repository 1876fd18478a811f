//! The gate's word, and how a session takes the monitor out.
ghost use Rattle.std.specs.Prelude.{◌≡◌, ◌+◌, ◌≢◌, ◌<◌, ◌%◌, MatchResult, IfOk};
ghost use Rattle.std.specs.Bool.{Decides};
ghost use Rattle.mls_sessions.specs.Rule.{Names, word_of, begun};
ghost use Rattle.mls_sessions.specs.Sessions.{member_of, seated, TookOut, Sees, IsCounted, history, number_of, changes_seen};
ghost use Rattle.mls_sessions.specs.declared.counts.Counts.{Counts};
ghost use Rattle.mls_monitor.specs.Journal.{fold};
ghost use Rattle.mls_sessions.specs.Cells.{Tells};
ghost use Rattle.mls_sessions.specs.Steps.{kept_view};

use crate::gate_table::{Gate, GateSeat};
use crate::limits::{CHANGES, FIRST};
use crate::steps::{Glance, Mark, Tally, Win};
use mls_turns::BoxedMonitor;
use std::hint::spin_loop;

/// The place of the gate's word in the table.
pub const WORD: usize = 0;

/// The place of the monitor's slot in the table.
pub const SLOT: usize = 0;

/// The word while the gate is free.
pub const FREE: u64 = 0;

/// The word while the office is opened.
pub const OPENING: u64 = 2;

/// The word that names a session, with no mark.
pub(crate) fn named(number: u32) -> u64
    ensures { result ≡ word_of number }
{
    2 * (u64::from(number) + 1)
}

/// Whether someone may sleep.
pub(crate) fn is_marked(word: u64) -> bool
    ensures { Decides result (word % 2 ≡ 1) }
{
    word % 2 == 1
}

/// Looks at the word so often and once more, as long as the gate is held and nobody may sleep. It returns what it saw
/// last. It looks once at least, or a session would never see that the gate is free.
pub(crate) fn look(gate: &Gate, looks: u64) -> u64
    requires { gate.now.table_id.words ≡ gate.now.key.cells + FIRST }
{
    for _ in 0..looks {
        let seen = gate.peek(WORD);
        if seen == FREE || is_marked(seen) {
            return seen;
        }
        spin_loop();
    }
    gate.peek(WORD)
}

/// Marks the word that was seen, since someone may sleep. It returns the marked word, unless another word was found.
pub(crate) fn mark(gate: &Gate, seat: &mut GateSeat, seen: u64) -> Option<u64>
    requires office { (seat.old.table_id ≡ gate.now.table_id) × (gate.now.table_id.words ≡ gate.now.key.cells + FIRST) }
    requires session { seat.old.me ≡ seated gate.now.key (member_of seat.old.me.0) }
    requires held { seen ≢ 0 }
    ensures seat { (seat.new.table_id ≡ seat.old.table_id) × (seat.new.id ≡ seat.old.id) }
    ensures same { seat.new.me ≡ seat.old.me }
{
    if is_marked(seen) {
        return Some(seen);
    }
    let found = gate.compare_exchange::<Mark>(seat, WORD, seen, seen + 1);
    if found == seen { Some(seen + 1) } else { None }
}

/// Reads a word of accesses by one load. Where it isn't blank, the session has now seen the present journal, and the
/// word tells of the state which that leads to.
pub(crate) fn glance(gate: &Gate, seat: &mut GateSeat, place: u32) -> u64
    requires office { (seat.old.table_id ≡ gate.now.table_id) × (gate.now.table_id.words ≡ gate.now.key.cells + FIRST) }
    requires session { seat.old.me ≡ seated gate.now.key (member_of seat.old.me.0) }
    requires place { place < gate.now.key.cells }
    ensures seat { (seat.new.table_id ≡ seat.old.table_id) × (seat.new.id ≡ seat.old.id) }
    ensures session { (seat.new.me ≡ seated gate.now.key (member_of seat.new.me.0))
        × (number_of seat.new.me.0 ≡ number_of seat.old.me.0) }
    ensures blank { result ≡ 0 → seat.new.me ≡ seat.old.me }
    ensures seen { result ≢ 0 → Sees gate.now.key seat.old.me.0 seat.new.me.0 }
    ensures tells { result ≢ 0 → Tells (fold (begun gate.now.key) (history seat.new.me.0)) place result }
    ensures counts { (c : Counts) → IsCounted c seat.old.me.0 → IsCounted c seat.new.me.0 }
{
    gate.load::<Glance>(seat, place as usize + FIRST)
}

/// Reads the count of changes by one load. The session has now seen the present journal, whose count it is.
pub(crate) fn tally(gate: &Gate, seat: &mut GateSeat) -> u64
    requires office { (seat.old.table_id ≡ gate.now.table_id) × (gate.now.table_id.words ≡ gate.now.key.cells + FIRST) }
    requires session { seat.old.me ≡ seated gate.now.key (member_of seat.old.me.0) }
    ensures seat { (seat.new.table_id ≡ seat.old.table_id) × (seat.new.id ≡ seat.old.id) }
    ensures session { (seat.new.me ≡ seated gate.now.key (member_of seat.new.me.0))
        × (number_of seat.new.me.0 ≡ number_of seat.old.me.0) }
    ensures seen { Sees gate.now.key seat.old.me.0 seat.new.me.0 }
    ensures changes { result ≡ changes_seen seat.new.me.0 }
    ensures counts { (c : Counts) → IsCounted c seat.old.me.0 → IsCounted c seat.new.me.0 }
{
    gate.load::<Tally>(seat, CHANGES)
}

/// Takes the monitor out where the gate is free, and leaves this word in it, which names the session. Or else it
/// returns the word that it found.
pub(crate) fn win(gate: &Gate, seat: &mut GateSeat, held: u64) -> Result<BoxedMonitor, u64>
    requires office { (seat.old.table_id ≡ gate.now.table_id) × (gate.now.table_id.words ≡ gate.now.key.cells + FIRST) }
    requires session { seat.old.me ≡ seated gate.now.key (member_of seat.old.me.0) }
    requires held { Names held (member_of seat.old.me.0).number }
    ensures seat { (seat.new.table_id ≡ seat.old.table_id) × (seat.new.id ≡ seat.old.id) }
    ensures won { MatchResult result (λ j. TookOut gate.now.key (member_of seat.old.me.0) j seat.new.me)
        (λ _. (seat.new.me ≡ seat.old.me) × (gate.now.key.count ≢ 1)) }
    ensures back { IfOk result (λ _. kept_view seat.new.me.0 ≡ seat.old.me.0) }
{
    let found = gate.compare_exchange::<Win>(seat, WORD, FREE, held);
    if found != FREE {
        return Err(found);
    }
    match gate.exchange(seat, SLOT, None) {
        Some(monitor) => Ok(monitor),
        None => unreachable!(),
    }
}

/// Wakes one that sleeps, if there may be one.
pub(crate) fn wake(gate: &Gate, may_sleep: bool)
    requires { gate.now.table_id.words ≡ gate.now.key.cells + FIRST }
{
    if may_sleep {
        gate.wake_one(WORD);
    }
}
