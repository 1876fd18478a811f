//! The handle that C has of an office.
ghost use Rattle.std.specs.Prelude.{◌≡◌, Some, None, IfSome, IfNone};
ghost use Rattle.mls_c.specs.OfficeHandles.{ToldHall};

use crate::hall::Hall;
use crate::kept_hall::KeptHall;
use std::alloc::Global;

/// An office's handle: closed, or open with an office and those of its sessions that aren't handed out. The caller
/// allocates it, all zeros, and never copies it.
#[repr(C)]
#[derive(Drop)]
pub struct MlsOffice {
    /// 1 where the handle is open, and 0 where it is closed.
    pub held: u32,
    /// The office.
    pub hall: KeptHall,
    /// The serial of the office that was opened last in this handle: no other office has it.
    pub serial: u64,
    /// How many sessions that office has.
    pub count: u16,
    pub ghost told: { ToldHall held hall.value },
}

impl MlsOffice {
    /// Takes the office out of the handle, which is closed then.
    pub(crate) fn take(&mut self, alloc: Global) -> Option<Box<Hall, Global>>
        ensures some { IfSome result (λ taken. self.old.hall.value ≡ Some taken.value) }
        ensures none { IfNone result (self.old.hall.value ≡ None) }
        ensures closed { self.new.hall.value ≡ None }
        ensures flag { self.new.held ≡ 0 }
        ensures serial { self.new.serial ≡ self.old.serial }
        ensures count { self.new.count ≡ self.old.count }
    {
        if self.held == 0 {
            return None;
        }
        self.held = 0;
        let hall = std::mem::replace(&mut self.hall, KeptHall::none());
        Some(hall.into_box(alloc))
    }

    /// Puts an office into the handle.
    pub(crate) fn put(&mut self, hall: Box<Hall, Global>)
        ensures value { self.new.hall.value ≡ Some hall.value }
        ensures flag { self.new.held ≡ 1 }
        ensures serial { self.new.serial ≡ self.old.serial }
        ensures count { self.new.count ≡ self.old.count }
    {
        self.hall = KeptHall::of(hall);
        self.held = 1;
    }
}

/// Closes an office's handle, and frees its monitor with the last of the sessions. A handle that is closed stays so.
#[unsafe(no_mangle)]
pub extern "C" fn mls_office_drop(office: &mut MlsOffice, alloc: Global)
    ensures closed { office.new.hall.value ≡ None }
    ensures flag { office.new.held ≡ 0 }
{
    drop(office.take(alloc));
}
