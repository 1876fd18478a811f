//! The handle that C has of a monitor.
ghost use Rattle.std.specs.Prelude.{◌≡◌, Some, None, IfSome, IfNone};
ghost use Rattle.mls_c.specs.Handle.{Told};

use crate::kept::Kept;
use crate::opened::Opened;
use std::alloc::Global;

/// A handle: closed, or open with the names of a start, the start and a journal. The caller allocates it, all zeros,
/// and never copies it.
#[repr(C)]
#[derive(Drop)]
pub struct Mls {
    /// 1 where the handle is open, and 0 where it is closed.
    pub held: u32,
    /// The open monitor.
    pub monitor: Kept,
    pub ghost told: { Told held monitor.value },
}

impl Mls {
    /// Takes the open monitor out of the handle, which is closed then.
    pub(crate) fn take(&mut self, alloc: Global) -> Option<Box<Opened, Global>>
        ensures some { IfSome result (λ opened. self.old.monitor.value ≡ Some opened.value) }
        ensures none { IfNone result (self.old.monitor.value ≡ None) }
        ensures closed { self.new.monitor.value ≡ None }
        ensures flag { self.new.held ≡ 0 }
    {
        if self.held == 0 {
            return None;
        }
        self.held = 0;
        let monitor = std::mem::replace(&mut self.monitor, Kept::none());
        Some(monitor.into_box(alloc))
    }

    /// Puts an open monitor into the handle.
    pub(crate) fn put(&mut self, opened: Box<Opened, Global>)
        ensures value { self.new.monitor.value ≡ Some opened.value }
        ensures flag { self.new.held ≡ 1 }
    {
        self.monitor = Kept::of(opened);
        self.held = 1;
    }
}

/// Closes a handle, and frees its monitor. A handle that is closed stays so.
#[unsafe(no_mangle)]
pub extern "C" fn mls_close(m: &mut Mls, alloc: Global)
    ensures closed { m.new.monitor.value ≡ None }
    ensures flag { m.new.held ≡ 0 }
{
    drop(m.take(alloc));
}
