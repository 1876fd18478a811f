//! The table that the sessions of an office share: one word, the gate, one slot, which holds the monitor, and the words
//! in which the current accesses stand.
//!
//! The gate's word is 0 where the gate is free. Else it names the session k that holds it, as 2 (k + 1), and is one
//! more, the mark, where someone may sleep. A word of accesses is written by the session that holds the gate, and read
//! by any.
ghost use Rattle.std.specs.Prelude.{◌≡◌};

use atomic_table::{Seat, Shared, Table, TableRule};
use mls_monitor::Monitor;
use mls_requests::Entry;
use mls_turns::BoxedMonitor;
use std::alloc::Global;
use std::collections::LinkedList;
use std::marker::Model;
use std::snapshot::Snapshot;

/// What an office was opened with: the monitor, how many sessions, how many words of accesses, and whether its journal
/// lasts.
#[derive(Drop)]
pub struct Charter {
    opened: Snapshot<Monitor>,
    count: u64,
    cells: u64,
    lasts: bool,
}

impl Model for Charter {
    ghost use Rattle.mls_sessions.specs.Journals.{Charter, charter_code};

    ghost Value = { Charter };

    ghost coded = { charter_code };

    ghost view = { λ c. record {
      start = c.opened.value.start;
      forgotten = c.opened.value.forgotten;
      entries = c.opened.value.entries;
      count = c.count;
      cells = c.cells;
      lasts = c.lasts;
    } };
}

impl Charter {
    ghost use Rattle.mls_sessions.specs.Journals.{charter_of};

    /// The monitor, so many sessions, so many words of accesses, and whether its journal lasts.
    pub(crate) fn of(monitor: &Monitor, count: u64, cells: u64, lasts: bool) -> Charter
        ensures { result ≡ charter_of monitor.now count cells lasts }
    {
        Charter {
            opened: Snapshot::of(monitor),
            count,
            cells,
            lasts,
        }
    }
}

/// How many entries of a journal are forgotten, and which were added since the office was opened.
pub struct Stretch {
    pub forgotten: u64,
    pub later: LinkedList<Entry>,
}

/// A session's number, how many entries it knows to be forgotten, and what it has seen of the journal since the office
/// was opened.
pub struct Member {
    pub number: u64,
    pub forgotten: u64,
    pub later: LinkedList<Entry>,
}

/// What the session that holds the gate knows of a word of accesses, by its place among them.
pub struct Note {
    pub cell: u64,
    pub word: u64,
}

/// What a seat knows. It exists in proofs alone: no value of it is made.
pub enum View {
    /// It was joined into another seat.
    Spent,
    /// The first seat, while the slot is still empty.
    Starting(Charter),
    /// The first seat, which has taken the empty slot.
    Filling(Charter),
    /// The first seat, which has so many numbers to give.
    Giving(Charter, u64),
    /// The sessions that it stands for.
    Sessions(Charter, LinkedList<Member>),
    /// Its session holds the gate, and took the monitor out, or published it, with this journal since the opening. It
    /// noted this of words of accesses.
    Holding(Charter, Member, Stretch, LinkedList<Note>),
}

/// The gate's rule, which each atomic step keeps.
pub struct GateRule;

impl TableRule<Option<BoxedMonitor>, View, Charter> for GateRule {
    ghost use Rattle.mls_sessions.specs.Rule.{Gated};
    ghost use Rattle.mls_sessions.specs.declared.gate_table.View.TheVariants.{Starting};

    ghost holds = { Gated };

    ghost first = { Starting };
}

/// The table, as its owner has it.
pub type GateTable = Table<Option<BoxedMonitor>, View, Charter, GateRule, Global>;

/// The table, as the sessions share it.
pub type Gate = Shared<Option<BoxedMonitor>, View, Charter, GateRule>;

/// The right to step, with what is known by it. It takes no bytes.
pub type GateSeat = Seat<Option<BoxedMonitor>, View>;
