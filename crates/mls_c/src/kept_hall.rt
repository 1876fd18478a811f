//! What C keeps of an office: the address of its block, or null.
ghost use Rattle.std.specs.Prelude.{◌≡◌, Option, Some, None, IsSome};
ghost use Rattle.std.specs.Coded.{coded_option};
ghost use Rattle.mls_c.specs.OfficeHandles.{owns_hall};
ghost use Rattle.mls_c.specs.Offices.{Hall, hall_code};

use crate::hall::Hall;
use std::alloc::Global;
use std::marker::Model;

/// An office's address, which is all that C has of it. Dropping it frees nothing: whoever holds one puts it back into a
/// handle or makes a box of it.
#[repr(C)]
#[derive(Drop)]
pub struct KeptHall {
    at: *mut u8,
    pub ghost value: { Option Hall } by { coded_option hall_code },
}

impl Model for KeptHall {
    ghost also_owns = { λ k. owns_hall k.at k.value };
}

unsafe impl Send for KeptHall {}

impl KeptHall {
    /// No office.
    pub(crate) fn none() -> KeptHall
        ensures { result.value ≡ None }
    {
        KeptHall {
            at: std::ptr::null_mut(),
        }
    }

    /// The office in a box.
    pub(crate) fn of(boxed: Box<Hall, Global>) -> KeptHall
        ensures { result.value ≡ Some boxed.value }
    {
        KeptHall {
            at: Box::into_raw(boxed).cast(),
        }
    }

    /// The box of the office, whose block goes back to the heap.
    pub(crate) fn into_box(self, alloc: Global) -> Box<Hall, Global>
        requires { IsSome self.value }
        ensures { Some result.value ≡ self.value }
    {
        unsafe { Box::from_raw(alloc, self.at.cast()) }
    }
}
