//! What C keeps of a session: the address of its block, or null.
ghost use Rattle.std.specs.Prelude.{◌≡◌, Option, Some, None, IsSome};
ghost use Rattle.std.specs.Coded.{coded_option};
ghost use Rattle.mls_c.specs.OfficeHandles.{owns_place};
ghost use Rattle.mls_c.specs.Offices.{Place, place_code};

use crate::place::Place;
use std::alloc::Global;
use std::marker::Model;

/// A session's address, which is all that C has of it. Dropping it frees nothing: whoever holds one puts it back into a
/// handle or makes a box of it.
#[repr(C)]
#[derive(Drop)]
pub struct KeptPlace {
    at: *mut u8,
    pub ghost value: { Option Place } by { coded_option place_code },
}

impl Model for KeptPlace {
    ghost also_owns = { λ k. owns_place k.at k.value };
}

unsafe impl Send for KeptPlace {}

impl KeptPlace {
    ghost use types.Logic.{sem};
    ghost use Rattle.mls_c.specs.OfficeLending.{lends_place};

    /// No session.
    pub(crate) fn none() -> KeptPlace
        ensures { result.value ≡ None }
    {
        KeptPlace {
            at: std::ptr::null_mut(),
        }
    }

    /// The session in a box.
    pub(crate) fn of(boxed: Box<Place, Global>) -> KeptPlace
        ensures { result.value ≡ Some boxed.value }
    {
        KeptPlace {
            at: Box::into_raw(boxed).cast(),
        }
    }

    /// The session, which stays where it is.
    pub(crate) fn lend(&mut self) -> &mut Place
        requires { IsSome self.old.value }
        ensures* writes_back { sem 𝓛 (lends_place self.entry result) }
        ensures value { Some result.now ≡ self.old.value }
    {
        unsafe { &mut *self.at.cast() }
    }

    /// The box of the session, whose block goes back to the heap.
    pub(crate) fn into_box(self, alloc: Global) -> Box<Place, Global>
        requires { IsSome self.value }
        ensures { Some result.value ≡ self.value }
    {
        unsafe { Box::from_raw(alloc, self.at.cast()) }
    }
}
