//! The handle that C has of a session.
ghost use Rattle.std.specs.Prelude.{◌≡◌, Some, None, IfSome, IfNone};
ghost use Rattle.mls_c.specs.OfficeHandles.{ToldPlace};

use crate::kept_place::KeptPlace;
use crate::place::Place;
use std::alloc::Global;

/// A session's handle: closed, or open with a session and its office. The caller allocates it, all zeros, and never
/// copies it. Calls on different handles run side by side; each handle is in one call at a time.
#[repr(C)]
#[derive(Drop)]
pub struct MlsSession {
    /// 1 where the handle is open, and 0 where it is closed.
    pub held: u32,
    /// The session.
    pub place: KeptPlace,
    /// The serial of the office that it was opened with last. It stays when the handle is closed.
    pub serial: u64,
    /// The session's number in that office.
    pub number: u16,
    pub ghost told: { ToldPlace held place.value },
}

impl MlsSession {
    /// Takes the session out of the handle, which is closed then.
    pub(crate) fn take(&mut self, alloc: Global) -> Option<Box<Place, Global>>
        ensures some { IfSome result (λ taken. self.old.place.value ≡ Some taken.value) }
        ensures none { IfNone result (self.old.place.value ≡ None) }
        ensures closed { self.new.place.value ≡ None }
        ensures flag { self.new.held ≡ 0 }
        ensures serial { self.new.serial ≡ self.old.serial }
        ensures number { self.new.number ≡ self.old.number }
    {
        if self.held == 0 {
            return None;
        }
        self.held = 0;
        let place = std::mem::replace(&mut self.place, KeptPlace::none());
        Some(place.into_box(alloc))
    }

    /// Puts a session into the handle, with the serial of its office and its number there.
    pub(crate) fn put(&mut self, place: Box<Place, Global>, serial: u64, number: u16)
        ensures value { self.new.place.value ≡ Some place.value }
        ensures flag { self.new.held ≡ 1 }
        ensures serial { self.new.serial ≡ serial }
        ensures number { self.new.number ≡ number }
    {
        self.place = KeptPlace::of(place);
        self.held = 1;
        self.serial = serial;
        self.number = number;
    }
}

/// Frees a session, which never comes back to its office. A handle that is closed stays so.
#[unsafe(no_mangle)]
pub extern "C" fn mls_session_drop(s: &mut MlsSession, alloc: Global)
    ensures closed { s.new.place.value ≡ None }
    ensures flag { s.new.held ≡ 0 }
    ensures serial { s.new.serial ≡ s.old.serial }
    ensures number { s.new.number ≡ s.old.number }
{
    drop(s.take(alloc));
}
