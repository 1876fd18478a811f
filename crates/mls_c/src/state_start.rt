//! The start file of an open monitor's state, with what becomes of the numbers of its objects.
ghost use Rattle.std.specs.Prelude.{◌≡◌, ◌≢◌, ◌≤◌, length, Some, nat_lt, if◌then◌else◌};
ghost use Rattle.mls_tables.specs.declared.limits.TheConstants.{MAX_OBJECTS};
ghost use Rattle.mls_snapshots.specs.Orders.{place_in};
ghost use Rattle.mls_c.specs.StateStart.{new_number, new_numbers, CopiesStart, CopiesStartOf, HasLongStart};
ghost use Rattle.mls_c.specs.StateStart.{HasLongStartOf, StateStartStatus};
ghost use Rattle.mls_c.specs.Texts.{LiesIn, HasLength};
ghost use Rattle.mls_c.specs.declared.status.TheConstants.{OK, ERANGE};

use crate::handle::Mls;
use crate::opened::Opened;
use crate::status::{ECLOSED, ENOMEM, ESTART, OK};
use crate::text::copy_text;
use mls_snapshots::{StateStartFault, start_of_state};
use mls_tables::{MAX_OBJECTS, ObjectId};
use std::alloc::Global;

/// The place of an object in an order.
fn place_in(order: &[ObjectId], o: usize) -> Option<usize>
    ensures { result ≡ place_in order.now o }
{
    order.iter().position(|x| x.number() as usize == o)
}

/// The number that an object gets in a start whose objects stand in this order: its place, or 4,096 where it has none.
#[tactic(auto, using(crate::proofs::NewNumbers::within))]
fn new_number(order: &[ObjectId], o: usize) -> u16
    requires { length order.now ≤ MAX_OBJECTS }
    ensures { result ≡ new_number order.now o }
{
    match place_in(order, o) {
        Some(place) => place as u16,
        None => MAX_OBJECTS,
    }
}

/// Tells the new numbers of the objects.
fn put_numbers(order: &[ObjectId], numbers: &mut [u16])
    requires { length order.now ≤ MAX_OBJECTS }
    ensures { numbers.new ≡ new_numbers order.now (length numbers.old) }
{
    for o in 0..numbers.len() {
        numbers[o] = new_number(order, o);
    }
}

/// Copies out the text of a start, and the new numbers of its objects where there is room for that.
fn copy_start(
    text: &[u8],
    order: &[ObjectId],
    buffer: &mut [u8],
    len: &mut usize,
    numbers: &mut [u16],
) -> i32
    requires { length order.now ≤ MAX_OBJECTS }
    ensures status { result ≡ (if nat_lt (length buffer.old) (length text.now) then ERANGE else OK) }
    ensures copied { result ≡ OK → LiesIn (Some text.now) buffer.old buffer.new }
    ensures numbered { result ≡ OK → numbers.new ≡ new_numbers order.now (length numbers.old) }
    ensures short { result ≢ OK → buffer.new ≡ buffer.old }
    ensures told { HasLength (Some text.now) len.new }
    ensures kept { result ≢ OK → numbers.new ≡ numbers.old }
{
    let status = copy_text(text, buffer, len);
    if status == OK {
        put_numbers(order, numbers);
    }
    status
}

/// Copies out a start of an open monitor's state.
fn copy_start_of(
    opened: &Opened,
    alloc: Global,
    buffer: &mut [u8],
    len: &mut usize,
    numbers: &mut [u16],
) -> i32
    ensures status { StateStartStatus (Some opened.now) result }
    ensures copied { result ≡ OK
        → CopiesStart opened.now buffer.old buffer.new len.new numbers.old numbers.new }
    ensures long { result ≡ ERANGE → HasLongStart opened.now (length buffer.old) len.new }
    ensures short { result ≢ OK → buffer.new ≡ buffer.old }
    ensures silent { result ≢ OK → result ≢ ERANGE → len.new ≡ len.old }
    ensures kept { result ≢ OK → numbers.new ≡ numbers.old }
{
    match start_of_state(alloc, opened.names(), opened.state()) {
        Ok(made) => copy_start(made.text.as_bytes(), &made.order, buffer, len, numbers),
        Err(StateStartFault::Memory) => ENOMEM,
        Err(StateStartFault::Differs) => ESTART,
    }
}

/// Copies out a start file of the present state, with which a handle can be opened anew, and tells for each object the
/// number that it has there, 4,096 for one that isn't active. The length of the text is told where the buffer is too
/// short, too. Nothing changes.
#[unsafe(no_mangle)]
pub extern "C" fn mls_state_start_bytes(
    m: &mut Mls,
    alloc: Global,
    buffer: &mut [u8],
    len: &mut usize,
    numbers: &mut [u16],
) -> i32
    ensures status { StateStartStatus m.old.monitor.value result }
    ensures copied { result ≡ OK
        → CopiesStartOf m.old.monitor.value buffer.old buffer.new len.new numbers.old numbers.new }
    ensures long { result ≡ ERANGE → HasLongStartOf m.old.monitor.value (length buffer.old) len.new }
    ensures short { result ≢ OK → buffer.new ≡ buffer.old }
    ensures silent { result ≢ OK → result ≢ ERANGE → len.new ≡ len.old }
    ensures kept { result ≢ OK → numbers.new ≡ numbers.old }
    ensures same { m.new.monitor.value ≡ m.old.monitor.value }
{
    if m.held == 0 {
        return ECLOSED;
    }
    let opened = m.monitor.lend();
    copy_start_of(opened, alloc, buffer, len, numbers)
}
