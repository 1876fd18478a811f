//! How two sessions meet.
ghost use Rattle.std.specs.Prelude.{◌≡◌, ◌+◌};
ghost use Rattle.mls_sessions.specs.Rule.{member};
ghost use Rattle.mls_sessions.specs.Steps.{both_know, Agree};
ghost use Rattle.mls_sessions.specs.Sessions.{member_of, seated};

use crate::gate::WORD;
use crate::gate_table::{Gate, GateSeat};
use crate::limits::FIRST;
use crate::steps::{Gather, Look, Move, Part};

/// Joins the seats of two sessions, looks, and parts them again, both with the longer of the two histories and the
/// greater number of forgotten entries.
pub(crate) fn meet_at(gate: &Gate, mine: &mut GateSeat, theirs: &mut GateSeat)
    requires office { (mine.old.table_id ≡ gate.now.table_id) × (theirs.old.table_id ≡ gate.now.table_id)
        × (gate.now.table_id.words ≡ gate.now.key.cells + FIRST) }
    requires sessions { (mine.old.me ≡ seated gate.now.key (member_of mine.old.me.0))
        × (theirs.old.me ≡ seated gate.now.key (member_of theirs.old.me.0)) }
    ensures office { (mine.new.table_id ≡ gate.now.table_id) × (theirs.new.table_id ≡ gate.now.table_id) }
    ensures longer { let x = member_of mine.old.me.0 in let y = member_of theirs.old.me.0 in Agree x y
        × (mine.new.me ≡ seated gate.now.key (member x.number (both_know x y)))
        × (theirs.new.me ≡ seated gate.now.key (member y.number (both_know x y))) }
{
    let whole = gate.split_seat::<Move>(theirs);
    gate.join_seat::<Gather>(mine, whole);
    gate.load::<Look>(mine, WORD);
    *theirs = gate.split_seat::<Part>(mine);
}
