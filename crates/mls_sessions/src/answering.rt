//! What the monitor answers in one turn at the gate.
ghost use Rattle.std.specs.Prelude.{◌≡◌, ◌<◌, ◌≤◌, ◌+◌, [], length, take, vec_len, vec_capacity, OnOk, OnErr};
ghost use Rattle.mls_sessions.specs.Sessions.{Leads, number_of};
ghost use Rattle.mls_sessions.specs.Feeds.{GetsMore, AllGet};

use crate::gate_table::{Gate, GateSeat};
use crate::limits::FIRST;
use crate::publishing::publish;
use mls_monitor::Answer;
use mls_requests::Ask;
use mls_turns::BoxedMonitor;
use std::alloc::AllocError;

/// Asks the monitor for a session, lets the entry into the present journal, and keeps the answer. It returns the
/// monitor.
///
/// # Errors
/// `AllocError` where an allocation failed; the monitor and the answers are then as before.
#[tactic(auto, using(crate::proofs::Exchanges::keeps_entry, crate::proofs::Exchanges::keeps_look))]
fn answer(
    gate: &Gate,
    cells: u32,
    seat: &mut GateSeat,
    mut monitor: BoxedMonitor,
    number: u32,
    ask: Ask,
    answers: &mut Vec<Answer>,
) -> (BoxedMonitor, Result<(), AllocError>)
    requires office { (seat.old.table_id ≡ gate.now.table_id) × (gate.now.table_id.words ≡ gate.now.key.cells + FIRST)
        × (cells ≡ gate.now.key.cells) }
    requires session { Leads gate.now.key monitor seat.old.me × (number ≡ number_of seat.old.me.0) }
    requires room { vec_len answers.old < vec_capacity answers.old }
    ensures seat { (seat.new.table_id ≡ seat.old.table_id) × (seat.new.id ≡ seat.old.id) }
    ensures session { Leads gate.now.key result.0 seat.new.me × (number ≡ number_of seat.new.me.0) }
    ensures ok { OnOk result.1
        (GetsMore number monitor ask answers.old.items answers.new.items result.0
        × (vec_len answers.new ≡ vec_len answers.old + 1)) }
    ensures err { OnErr result.1
        ((result.0 ≡ monitor) × (answers.new.items ≡ answers.old.items)
        × (vec_len answers.new ≡ vec_len answers.old)) }
    ensures room { vec_capacity answers.old ≤ vec_capacity answers.new }
{
    match ask {
        Ask::Submit(request) => match monitor.submit(number, request) {
            Ok(entry) => {
                let monitor = publish(gate, seat, cells, monitor, &entry);
                answers.push_reserved(Answer::Entry(entry));
                (monitor, Ok(()))
            }
            Err(error) => (monitor, Err(error)),
        },
        Ask::Check(s, o, x) => {
            let is_held = monitor.check(s, o, x);
            answers.push_reserved(Answer::Held(is_held));
            (monitor, Ok(()))
        }
    }
}

/// Asks the monitor for a session, one after the other, until an allocation fails, and keeps the answers. It returns
/// the monitor.
///
/// # Errors
/// `AllocError` where an allocation failed; those before it are answered.
#[tactic(auto, using(crate::proofs::Exchanges::all_get_none, crate::proofs::Exchanges::all_get_more))]
pub(crate) fn answer_all(
    gate: &Gate,
    cells: u32,
    seat: &mut GateSeat,
    monitor: BoxedMonitor,
    number: u32,
    asks: &[Ask],
    answers: &mut Vec<Answer>,
) -> (BoxedMonitor, Result<(), AllocError>)
    requires office { (seat.old.table_id ≡ gate.now.table_id) × (gate.now.table_id.words ≡ gate.now.key.cells + FIRST)
        × (cells ≡ gate.now.key.cells) }
    requires session { Leads gate.now.key monitor seat.old.me × (number ≡ number_of seat.old.me.0) }
    requires room { (answers.old.items ≡ []) × (length asks.now ≤ vec_capacity answers.old) }
    ensures seat { (seat.new.table_id ≡ seat.old.table_id) × (seat.new.id ≡ seat.old.id) }
    ensures session { Leads gate.now.key result.0 seat.new.me × (number ≡ number_of seat.new.me.0) }
    ensures answered { AllGet number monitor (take (vec_len answers.new) asks.now) answers.new.items result.0 }
    ensures ok { OnOk result.1 (vec_len answers.new ≡ length asks.now) }
    ensures err { OnErr result.1 (vec_len answers.new < length asks.now) }
    ensures room { vec_capacity answers.old ≤ vec_capacity answers.new }
{
    let mut turn = monitor;
    for ask in asks {
        let (monitor, answered) = answer(gate, cells, seat, turn, number, *ask, answers);
        turn = monitor;
        if let Err(error) = answered {
            return (turn, Err(error));
        }
    }
    (turn, Ok(()))
}
