//! Opening a monitor that goes on from a state.
ghost use Rattle.std.specs.Prelude.{◌≡◌, ◌≢◌, ◌≤◌, ◌<◌, Some, IfOk, OnOk, IfErr};
ghost use Rattle.mls_c.specs.Faults.{HasStartFault};
ghost use Rattle.mls_c.specs.Opened.{state_of};
ghost use Rattle.mls_c.specs.StateText.{opened_at, GoesOnFrom, OpensState, OpenStateStatus};
ghost use Rattle.mls_c.specs.StateText.{IsNoRefusal, IsAboutState, IsOverStart, RefusesState};
ghost use Rattle.mls_c.specs.declared.status.TheConstants.{OK, ESTART, ESTATE as STATE, EINVAL as INVALID};
ghost use Rattle.mls_monitor.specs.declared.tail.TheConstants.{FORGET_LIMIT};

use crate::fault::FaultNumbers;
use crate::handle::Mls;
use crate::opened::Opened;
use crate::opening::{boxed, load};
use crate::status::{EINVAL, ENOMEM, EOPEN, ESTART, ESTATE, OK};
use mls_lines::Names;
use mls_monitor::{Monitor, ResumeFault};
use mls_snapshots::{ReadStateFault, read_state};
use mls_start::Start;
use mls_start_file::{LoadFault, Loaded};
use std::alloc::{AllocError, Global};

/// Why no monitor goes on from a state, with the numbers that are told of it. Where several apply, the first is
/// returned, and `Memory` as soon as an allocation fails.
#[derive(Clone, Copy)]
pub(crate) enum StateFault {
    /// The start is refused.
    Start(FaultNumbers),
    /// The text isn't that of a secure state of the start.
    State(FaultNumbers),
    /// More entries came before than a monitor forgets.
    Number,
    /// An allocation failed.
    Memory,
}

impl From<AllocError> for StateFault {
    ghost use Rattle.std.specs.Prelude.{◌≡◌};
    ghost use Rattle.mls_c.specs.declared.state_opening.StateFault.TheVariants.{Memory};

    ghost from_gives = { λ _ fault. fault ≡ Memory };

    fn from(_: AllocError) -> StateFault {
        StateFault::Memory
    }
}

/// What is told of a text that isn't read as a state: 1 and how many lines stand before, 2 for a state of another
/// start, 3 for one that isn't secure.
fn state_fault_of(fault: ReadStateFault) -> StateFault
    ensures { IsAboutState result }
{
    let (kind, place) = match fault {
        ReadStateFault::Line(line) => (1, line.saturating_sub(1)),
        ReadStateFault::OtherStart => (2, 0),
        ReadStateFault::NotSecure => (3, 0),
        ReadStateFault::Memory => return StateFault::Memory,
    };
    StateFault::State(FaultNumbers {
        kind,
        number: 0,
        place,
    })
}

/// The monitor with these names that goes on from what a start opens with.
fn go_on(
    alloc: Global,
    names: Names,
    begun: Start,
    number: u64,
) -> Result<Box<Opened, Global>, StateFault>
    ensures ok { IfOk result (λ b. b.value ≡ opened_at names begun number) }
    ensures state { IfOk result (λ b. state_of b.value ≡ begun) }
    ensures few { OnOk result (number ≤ FORGET_LIMIT) }
    ensures fault { IfErr result (λ fault. IsNoRefusal fault) }
    ensures many { IfErr result (λ fault. fault ≡ StateFault.Number → FORGET_LIMIT < number) }
{
    match Monitor::resume(alloc, begun, number) {
        Ok(monitor) => Ok(boxed(alloc, Opened::of(names, monitor))?),
        Err(refused) => {
            let fault = refused.fault;
            drop(refused);
            drop(names);
            match fault {
                ResumeFault::Number => Err(StateFault::Number),
                ResumeFault::Memory => Err(StateFault::Memory),
            }
        }
    }
}

/// The monitor with the names of a start that goes on from the state whose text this is.
fn go_on_loaded(
    alloc: Global,
    loaded: Loaded,
    text: &[u8],
    number: u64,
) -> Result<Box<Opened, Global>, StateFault>
    ensures ok { IfOk result (λ b. GoesOnFrom loaded text.now number b.value) }
    ensures few { OnOk result (number ≤ FORGET_LIMIT) }
    ensures fault { IfErr result (λ fault. IsOverStart fault) }
    ensures many { IfErr result (λ fault. fault ≡ StateFault.Number → FORGET_LIMIT < number) }
{
    let (names, start) = loaded.into_parts();
    let begun = read_state(alloc, &names, &start, text);
    drop(start);
    match begun {
        Ok(begun) => go_on(alloc, names, begun, number),
        Err(fault) => {
            drop(names);
            Err(state_fault_of(fault))
        }
    }
}

/// The monitor that a start file and the text of a state say.
#[tactic(auto, using(crate::proofs::StateOpenings::from_files))]
fn go_on_from(
    alloc: Global,
    start: &[u8],
    text: &[u8],
    number: u64,
) -> Result<Box<Opened, Global>, StateFault>
    ensures ok { IfOk result (λ b. OpensState start.now text.now number (Some b.value)) }
    ensures few { OnOk result (number ≤ FORGET_LIMIT) }
    ensures fault { IfErr result (λ fault. RefusesState start.now fault) }
    ensures many { IfErr result (λ fault. fault ≡ StateFault.Number → FORGET_LIMIT < number) }
{
    match load(alloc, start) {
        Ok(loaded) => go_on_loaded(alloc, loaded, text, number),
        Err(LoadFault::Memory) => Err(StateFault::Memory),
        Err(cause) => Err(StateFault::Start(FaultNumbers::of_start(cause))),
    }
}

/// Opens a monitor from the bytes of a start file and the text of a state to which `number` entries led: it goes on
/// from there, and the next entry has this number. Whatever the text says, the state is secure, and one of that start;
/// that those entries led to it is for the caller to know.
#[tactic(auto, using(crate::proofs::StateOpenings::holds_state))]
#[unsafe(no_mangle)]
pub extern "C" fn mls_open_state_bytes(
    m: &mut Mls,
    alloc: Global,
    start: &[u8],
    state: &[u8],
    number: u64,
    fault: &mut FaultNumbers,
) -> i32
    ensures status { OpenStateStatus m.old.monitor.value result }
    ensures opened { result ≡ OK → OpensState start.now state.now number m.new.monitor.value }
    ensures start { result ≡ ESTART → HasStartFault start.now fault.new }
    ensures few { result ≡ OK → number ≤ FORGET_LIMIT }
    ensures many { result ≡ INVALID → FORGET_LIMIT < number }
    ensures same { result ≢ OK → m.new.monitor.value ≡ m.old.monitor.value }
    ensures silent { result ≢ ESTART → result ≢ STATE → fault.new ≡ fault.old }
{
    if m.held != 0 {
        return EOPEN;
    }
    match go_on_from(alloc, start, state, number) {
        Ok(opened) => {
            m.put(opened);
            OK
        }
        Err(StateFault::Memory) => ENOMEM,
        Err(StateFault::Number) => EINVAL,
        Err(StateFault::Start(numbers)) => {
            *fault = numbers;
            ESTART
        }
        Err(StateFault::State(numbers)) => {
            *fault = numbers;
            ESTATE
        }
    }
}
