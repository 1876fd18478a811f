//! The kinds of atomic step, each with what it tells the seat that makes it.
ghost use Rattle.mls_sessions.specs.Steps.{filled, settled, won, marked, kept, updated, looked, left_of, right_of};
ghost use Rattle.mls_sessions.specs.Steps.{both_of, first_of_two, second_of_two, glanced, tallied, read, published, blanked};
ghost use Rattle.mls_sessions.specs.declared.gate_table.View.TheVariants.{Spent};

use crate::gate_table::View;
use atomic_table::{Join, Play, Split};
use mls_turns::BoxedMonitor;

/// The first seat takes the empty slot.
pub struct Fill;

impl Play<Option<BoxedMonitor>, View> for Fill {
    ghost then = { filled };
}

/// The first seat puts the monitor in.
pub struct Settle;

impl Play<Option<BoxedMonitor>, View> for Settle {
    ghost then = { settled };
}

/// A session wins the gate with the monitor taken out, or loses it.
pub struct Win;

impl Play<Option<BoxedMonitor>, View> for Win {
    ghost then = { won };
}

/// Someone may sleep. It counts as a win that was lost: no view changes.
pub struct Mark;

impl Play<Option<BoxedMonitor>, View> for Mark {
    ghost then = { marked };
}

/// The monitor is put home, and the session's history stays.
pub struct Keep;

impl Play<Option<BoxedMonitor>, View> for Keep {
    ghost then = { kept };
}

/// The monitor is put home, and its journal is the session's history.
pub struct Update;

impl Play<Option<BoxedMonitor>, View> for Update {
    ghost then = { updated };
}

/// A session reads a word of accesses with no lock.
pub struct Glance;

impl Play<Option<BoxedMonitor>, View> for Glance {
    ghost then = { glanced };
}

/// A session reads the count of changes with no lock.
pub struct Tally;

impl Play<Option<BoxedMonitor>, View> for Tally {
    ghost then = { tallied };
}

/// The holder reads a word of accesses, and notes it.
pub struct Read;

impl Play<Option<BoxedMonitor>, View> for Read {
    ghost then = { read };
}

/// The entries of the monitor in the slot are in the present journal from here on.
pub struct Publish;

impl Play<Option<BoxedMonitor>, View> for Publish {
    ghost then = { published };
}

/// The holder makes a word of accesses blank, and notes it.
pub struct Blank;

impl Play<Option<BoxedMonitor>, View> for Blank {
    ghost then = { blanked };
}

/// Two sessions in one seat look at what they know.
pub struct Look;

impl Play<Option<BoxedMonitor>, View> for Look {
    ghost then = { looked };
}

/// The first seat gives a number to a new seat.
pub struct Give;

impl Split<View> for Give {
    ghost left = { left_of };

    ghost right = { right_of };
}

/// The whole view goes to a new seat.
pub struct Move;

impl Split<View> for Move {
    ghost left = { λ v. Spent };

    ghost right = { λ v. v };
}

/// A seat takes over the sessions of another.
pub struct Gather;

impl Join<View> for Gather {
    ghost both = { both_of };

    ghost spent = { Spent };
}

/// Two sessions in one seat get one seat each again, both with the longer history.
pub struct Part;

impl Split<View> for Part {
    ghost left = { first_of_two };

    ghost right = { second_of_two };
}
