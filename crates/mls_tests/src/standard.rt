//! The standard start, made in one place and lent to tests: a function that owns names or a monitor takes long to
//! prove.
ghost use Rattle.std.specs.Prelude.{◌≡◌, [], IfOk};

use mls_monitor::Monitor;
use mls_start::Start;
use mls_start_file::{Loaded, standard_start};
use std::alloc::{AllocError, Allocator, Global};
use std::process::Abort;

/// The start of what was loaded.
fn without_names<A: Allocator>(loaded: Loaded<A>) -> Start<A> {
    let (names, start) = loaded.into_parts();
    drop(names);
    start
}

/// The start alone.
pub fn standard_alone<A: Allocator + Copy>(alloc: A) -> Result<Start<A>, AllocError> {
    match standard_start(alloc) {
        Ok(loaded) => Ok(without_names(loaded)),
        Err(_) => Err(AllocError),
    }
}

/// A monitor over the standard start, with an empty journal.
pub fn standard_monitor<A: Allocator + Copy>(alloc: A) -> Result<Monitor<A>, AllocError>
    ensures { IfOk result (λ m. m.entries ≡ []) }
{
    match Monitor::open(alloc, standard_alone(alloc)?) {
        Ok(monitor) => Ok(monitor),
        Err(fault) => {
            drop(fault);
            Err(AllocError)
        }
    }
}

/// The same, where there is memory for it.
pub fn ample_monitor(rt: &impl Abort, alloc: Global) -> Monitor
    ensures { result.entries ≡ [] }
{
    match standard_monitor(alloc) {
        Ok(monitor) => monitor,
        Err(_) => panic!(rt; "out of memory"),
    }
}

/// The same, whose journal goes on behind so many entries that came before.
pub fn resumed_monitor(rt: &impl Abort, alloc: Global, earlier: u64) -> Monitor {
    match standard_alone(alloc) {
        Ok(start) => resumed(rt, alloc, start, earlier),
        Err(_) => panic!(rt; "out of memory"),
    }
}

/// A monitor over a start, whose journal goes on behind so many entries that came before.
fn resumed(rt: &impl Abort, alloc: Global, start: Start, earlier: u64) -> Monitor {
    match Monitor::resume(alloc, start, earlier) {
        Ok(monitor) => monitor,
        Err(_) => panic!(rt; "out of memory"),
    }
}

/// The standard start with its names, where there is memory for it.
pub fn ample_start(rt: &impl Abort, alloc: Global) -> Loaded {
    match standard_start(alloc) {
        Ok(loaded) => loaded,
        Err(_) => panic!(rt; "out of memory"),
    }
}
