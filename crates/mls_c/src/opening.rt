//! Opening a monitor from a start file.
ghost use Rattle.std.specs.Prelude.{◌≡◌, ◌≢◌, [], Some, IfOk, IfErr};
ghost use Rattle.mls_start_file.specs.Says.{SaysStart, RefusesStart};
ghost use Rattle.mls_c.specs.Faults.{HasStartFault, Opens, OpenStatus};
ghost use Rattle.mls_c.specs.Opened.{opened_with};
ghost use Rattle.mls_c.specs.declared.status.TheConstants.{OK, ESTART};

use crate::fault::FaultNumbers;
use crate::handle::Mls;
use crate::opened::Opened;
use crate::status::{ENOMEM, EOPEN, ESTART, OK};
use mls_monitor::Monitor;
use mls_start_file::{LoadFault, Loaded, read_start};
use std::alloc::{AllocError, Global};

/// The start that the bytes of a start file say, with its names.
pub(crate) fn load(alloc: Global, start: &[u8]) -> Result<Loaded, LoadFault>
    ensures ok { IfOk result (λ loaded. SaysStart start.now loaded) }
    ensures fault { IfErr result (λ fault. fault ≢ LoadFault.Memory → RefusesStart start.now fault) }
{
    read_start(alloc, start)
}

/// Boxes an open monitor.
pub(crate) fn boxed(alloc: Global, opened: Opened) -> Result<Box<Opened, Global>, AllocError>
    ensures { IfOk result (λ b. b.value ≡ opened) }
{
    match Box::new(alloc, opened) {
        Ok(opened) => Ok(opened),
        Err(refused) => {
            drop(refused);
            Err(AllocError)
        }
    }
}

/// The monitor of a start with its names, with an empty journal.
fn open_loaded(alloc: Global, loaded: Loaded) -> Result<Box<Opened, Global>, AllocError>
    ensures { IfOk result (λ b. b.value ≡ opened_with loaded []) }
{
    let (names, start) = loaded.into_parts();
    match Monitor::open(alloc, start) {
        Ok(monitor) => boxed(alloc, Opened::of(names, monitor)),
        Err(refused) => {
            drop(refused);
            drop(names);
            Err(AllocError)
        }
    }
}

/// The monitor that the bytes of a start file say, with an empty journal.
fn open_bytes(alloc: Global, start: &[u8]) -> Result<Box<Opened, Global>, LoadFault>
    ensures ok { IfOk result (λ b. Opens start.now (Some b.value)) }
    ensures fault { IfErr result (λ fault. fault ≢ LoadFault.Memory → RefusesStart start.now fault) }
{
    let loaded = load(alloc, start)?;
    Ok(open_loaded(alloc, loaded)?)
}

/// Opens a monitor from the bytes of a start file.
#[tactic(auto, using(crate::proofs::Openings::holds_opened))]
#[unsafe(no_mangle)]
pub extern "C" fn mls_open_bytes(
    m: &mut Mls,
    alloc: Global,
    start: &[u8],
    fault: &mut FaultNumbers,
) -> i32
    ensures status { OpenStatus m.old.monitor.value result }
    ensures opened { result ≡ OK → Opens start.now m.new.monitor.value }
    ensures refused { result ≡ ESTART → HasStartFault start.now fault.new }
    ensures same { result ≢ OK → m.new.monitor.value ≡ m.old.monitor.value }
    ensures silent { result ≢ ESTART → fault.new ≡ fault.old }
{
    if m.held != 0 {
        return EOPEN;
    }
    match open_bytes(alloc, start) {
        Ok(opened) => {
            m.put(opened);
            OK
        }
        Err(LoadFault::Memory) => ENOMEM,
        Err(cause) => {
            *fault = FaultNumbers::of_start(cause);
            ESTART
        }
    }
}
