//! What C keeps of an open monitor: the address of its block, or null.
ghost use Rattle.std.specs.Prelude.{◌≡◌, Option, Some, None, IsSome};
ghost use Rattle.std.specs.Coded.{coded_option};
ghost use Rattle.mls_c.specs.Handle.{owns_opened};
ghost use Rattle.mls_c.specs.Opened.{Opened, opened_code};

use crate::opened::Opened;
use std::alloc::Global;
use std::marker::Model;

/// An open monitor's address, which is all that C has of it. Dropping it frees nothing: whoever holds one puts it back
/// into a handle or makes a box of it.
#[repr(C)]
#[derive(Drop)]
pub struct Kept {
    at: *mut u8,
    pub ghost value: { Option Opened } by { coded_option opened_code },
}

impl Model for Kept {
    ghost also_owns = { λ k. owns_opened k.at k.value };
}

unsafe impl Send for Kept {}

impl Kept {
    ghost use types.Logic.{sem};
    ghost use Rattle.mls_c.specs.Lending.{lends_opened};

    /// No monitor.
    pub(crate) fn none() -> Kept
        ensures { result.value ≡ None }
    {
        Kept {
            at: std::ptr::null_mut(),
        }
    }

    /// The monitor in a box.
    pub(crate) fn of(boxed: Box<Opened, Global>) -> Kept
        ensures { result.value ≡ Some boxed.value }
    {
        Kept {
            at: Box::into_raw(boxed).cast(),
        }
    }

    /// The monitor, which stays where it is.
    pub(crate) fn lend(&mut self) -> &mut Opened
        requires { IsSome self.old.value }
        ensures* writes_back { sem 𝓛 (lends_opened self.entry result) }
        ensures value { Some result.now ≡ self.old.value }
    {
        unsafe { &mut *self.at.cast() }
    }

    /// The box of the monitor, whose block goes back to the heap.
    pub(crate) fn into_box(self, alloc: Global) -> Box<Opened, Global>
        requires { IsSome self.value }
        ensures { Some result.value ≡ self.value }
    {
        unsafe { Box::from_raw(alloc, self.at.cast()) }
    }
}
