//! How a session has entries forgotten.
ghost use Rattle.std.specs.Prelude.{◌≡◌, false, IsOk, OnOk, OnErr};
ghost use Rattle.mls_sessions.specs.Sessions.{IsOf, Sees, Forgets, number_of};

use crate::forgetting::forget;
use crate::gate::{named, wake, win};
use crate::office::Office;
use crate::session::Session;
use crate::try_fault::Busy;

impl Session {
    /// Has the entries with numbers below `n` forgotten, as [`Monitor::forget`](mls_monitor::Monitor::forget) does: no
    /// session finds them any more, and their memory is used again. Where `n` is above the next number, all entries are
    /// forgotten. What is forgotten stays so. The history grows by what others added. It makes no entry, and doesn't
    /// wait.
    ///
    /// # Errors
    /// `Busy` where another session held the gate; the session is then as before, and nothing is forgotten. An office of
    /// one session is never busy.
    pub fn try_forget(&mut self, office: &Office, n: u64) -> Result<(), Busy>
        requires of { IsOf office.now self.old }
        requires forgets { office.now.charter.lasts ≡ false }
        ensures office { IsOf office.now self.new }
        ensures number { number_of self.new.view ≡ number_of self.old.view }
        ensures seen { OnOk result (Sees office.now.charter self.old.view self.new.view) }
        ensures forgets { OnOk result (Forgets n self.old.view self.new.view) }
        ensures busy { OnErr result (self.new ≡ self.old) }
        ensures alone { office.now.charter.count ≡ 1 → IsOk result }
    {
        let (forgot, may_sleep) = self.forget_quietly(office, n);
        wake(&office.table.shared, may_sleep);
        forgot
    }

    /// As [`try_forget`](Session::try_forget), but it wakes nobody. It returns also whether another session may sleep
    /// until it is woken, as [`Office::wake_one`] does. Where no session of the office ever waits, nobody sleeps.
    ///
    /// # Errors
    /// As those of [`try_forget`](Session::try_forget).
    pub fn forget_quietly(&mut self, office: &Office, n: u64) -> (Result<(), Busy>, bool)
        requires of { IsOf office.now self.old }
        requires forgets { office.now.charter.lasts ≡ false }
        ensures office { IsOf office.now self.new }
        ensures number { number_of self.new.view ≡ number_of self.old.view }
        ensures seen { OnOk result.0 (Sees office.now.charter self.old.view self.new.view) }
        ensures forgets { OnOk result.0 (Forgets n self.old.view self.new.view) }
        ensures busy { OnErr result.0 (self.new ≡ self.old) }
        ensures alone { office.now.charter.count ≡ 1 → IsOk result.0 }
    {
        let gate = &office.table.shared;
        let name = named(self.number());
        let Ok(monitor) = win(gate, &mut self.seat, name) else {
            return (Err(Busy), false);
        };
        let may_sleep = forget(gate, &mut self.seat, &mut self.counts, monitor, n);
        (Ok(()), may_sleep)
    }
}
