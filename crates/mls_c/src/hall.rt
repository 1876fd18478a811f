//! What an office's handle holds: the office, and the block that its monitor's handle had.
ghost use Rattle.std.specs.Prelude.{◌≡◌, ◌<◌, length, IfOk, IfErr, IsErr, IsTrue, IsSomeAnd, OnOk, OnErr};
ghost use Rattle.mls_turns.specs.Journals.{journal};
ghost use Rattle.mls_sessions.specs.Sessions.{is_count, Leaves};
ghost use Rattle.mls_c.specs.Offices.{HasMonitor};

use crate::opened::Opened;
use crate::opening::load;
use crate::seats::Seats;
use mls_monitor::Monitor;
use std::alloc::{AllocError, Global};
use std::marker::Model;

/// The start of the monitor that stands in an open monitor's block while an office has its own: one subject, and the
/// root.
const STAND_IN: &[u8] = b"{\"security\": {\"levels\": [\"l\"], \"categories\": []}, \
    \"integrity\": {\"levels\": [\"l\"], \"categories\": []}, \"subjects\": [{\"name\": \"s\", \
    \"maximum\": \"l\", \"current\": \"l\", \"integrity\": \"l\", \"trusted\": false}], \
    \"objects\": [{\"name\": \"root\", \"parent\": null, \"security\": \"l\", \"integrity\": \"l\"}], \
    \"matrix\": []}";

/// An open monitor in its block, where it is or was, and the office that has it.
#[derive(Drop)]
pub struct Hall {
    pub(crate) opened: Box<Opened, Global>,
    pub(crate) seats: Option<Seats>,
}

impl Model for Hall {
    ghost use Rattle.mls_c.specs.Offices.{Hall, hall_code};

    ghost Value = { Hall };

    ghost coded = { hall_code };

    ghost view = { λ h. record { opened = h.opened.value; seats = h.seats } };
}

/// A monitor that is never asked.
fn stand_in(alloc: Global) -> Result<Monitor, AllocError> {
    let Ok(loaded) = load(alloc, STAND_IN) else {
        return Err(AllocError);
    };
    let (names, start) = loaded.into_parts();
    drop(names);
    match Monitor::open(alloc, start) {
        Ok(monitor) => Ok(monitor),
        Err(refused) => {
            drop(refused);
            Err(AllocError)
        }
    }
}

impl Hall {
    /// Opens the monitor to so many sessions.
    ///
    /// # Errors
    /// `AllocError` where an allocation failed; the open monitor is then as before.
    fn open(&mut self, alloc: Global, count: u16) -> Result<(), AllocError>
        requires { IsTrue (is_count count) }
        ensures names { self.new.opened.names ≡ self.old.opened.names }
        ensures ok { OnOk result (IsSomeAnd self.new.seats (HasMonitor self.old.opened count)) }
        ensures err { OnErr result (self.new.opened ≡ self.old.opened) }
    {
        let stand_in = stand_in(alloc)?;
        let monitor = self.opened.swap(stand_in);
        match Seats::open(alloc, monitor, count) {
            Ok(seats) => {
                self.seats = Some(seats);
                Ok(())
            }
            Err(fault) => {
                drop(self.opened.swap(fault.monitor));
                Err(AllocError)
            }
        }
    }

    /// An office with an open monitor, and so many sessions.
    ///
    /// # Errors
    /// The open monitor as it was handed in, where an allocation failed.
    pub(crate) fn around(
        alloc: Global,
        opened: Box<Opened, Global>,
        count: u16,
    ) -> Result<Box<Hall, Global>, Box<Opened, Global>>
        requires { IsTrue (is_count count) }
        ensures names { IfOk result (λ h. h.value.opened.names ≡ opened.value.names) }
        ensures ok { IfOk result (λ h. IsSomeAnd h.value.seats (HasMonitor opened.value count)) }
        ensures err { IfErr result (λ same. same.value ≡ opened.value) }
    {
        let hall = Hall {
            opened,
            seats: None,
        };
        let mut hall = match Box::new(alloc, hall) {
            Ok(hall) => hall,
            Err(refused) => return Err(refused.value.into_opened()),
        };
        match hall.open(alloc, count) {
            Ok(()) => Ok(hall),
            Err(_) => Err(Box::into_inner(hall).into_opened()),
        }
    }

    /// The open monitor's block, with what is in it.
    fn into_opened(self) -> Box<Opened, Global>
        ensures { result.value ≡ self.opened }
    {
        let Hall { opened, seats } = self;
        drop(seats);
        opened
    }

    /// Closes the office, and gives its monitor back in its block.
    ///
    /// # Errors
    /// The office as it was, where sessions are out, or it has none.
    pub(crate) fn close(
        mut hall: Box<Hall, Global>,
    ) -> Result<Box<Opened, Global>, Box<Hall, Global>>
        ensures ok { IfOk result (λ opened. IsSomeAnd hall.value.seats (λ t.
            (opened.value.names ≡ hall.value.opened.names)
            × Leaves t.office t.home (journal opened.value.start opened.value.forgotten opened.value.entries))) }
        ensures err { IfErr result (λ same. same.value ≡ hall.value) }
        ensures out { IsSomeAnd hall.value.seats (λ t. length t.home < t.office.charter.count) → IsErr result }
    {
        let Some(seats) = hall.seats.take() else {
            return Err(hall);
        };
        match seats.close() {
            Ok(monitor) => {
                let mut opened = Box::into_inner(hall).into_opened();
                drop(opened.swap(monitor));
                Ok(opened)
            }
            Err(seats) => {
                hall.seats = Some(seats);
                Err(hall)
            }
        }
    }
}
