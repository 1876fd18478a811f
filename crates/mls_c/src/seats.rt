//! An office with those of its sessions that are at home.
ghost use Rattle.std.specs.Prelude.{◌≡◌, ◌<◌, ◌∷◌, [], ◌++◌, length, nat_eq, IfOk, IfErr, OnErr, IsErr, IsTrue};
ghost use Rattle.mls_turns.specs.Journals.{journal_of};
ghost use Rattle.mls_sessions.specs.Rule.{begun, base};
ghost use Rattle.mls_sessions.specs.Sessions.{Leaves, is_count, newcomers, number_of};
ghost use Rattle.mls_c.specs.Offices.{NumbersBelow};

use crate::place::Place;
use mls_monitor::Monitor;
use mls_sessions::{Office, OfficeFault, Session};
use std::alloc::{AllocError, Global};
use std::marker::Model;
use std::sync::Arc;

/// An office, which the handles of its sessions share, and the sessions that aren't handed out, ascending by number.
#[derive(Drop)]
pub struct Seats {
    office: Arc<Office, Global>,
    /// It has room for all sessions, so that none needs memory to come back.
    home: Vec<Session>,
    count: u16,
}

impl Model for Seats {
    ghost use Rattle.std.specs.Prelude.{◌≡◌, ◌≤◌, false, vec_capacity};
    ghost use Rattle.std.specs.Arc.{arc_value};
    ghost use Rattle.mls_sessions.specs.Sessions.{Ascending};
    ghost use Rattle.mls_c.specs.Offices.{Seats, seats_code};

    ghost Value = { Seats };

    ghost coded = { seats_code };

    ghost view = { λ t. record { office = arc_value t.office; home = t.home.items } };

    ghost invariant = { λ t. Ascending (arc_value t.office) 0 t.home.items
        × ((arc_value t.office).charter.count ≡ t.count) × (t.count ≤ vec_capacity t.home)
        × ((arc_value t.office).charter.lasts ≡ false) };
}

impl Seats {
    /// Opens a monitor to so many sessions, which are all at home.
    ///
    /// # Errors
    /// `Memory` where an allocation failed, with the monitor: its start and journal are as they were.
    pub(crate) fn open(alloc: Global, monitor: Monitor, count: u16) -> Result<Seats, OfficeFault>
        requires { IsTrue (is_count count) }
        ensures start { IfOk result (λ t. begun t.office.charter ≡ monitor.start) }
        ensures entries { IfOk result (λ t. base t.office.charter ≡ monitor.entries) }
        ensures forgotten { IfOk result (λ t. t.office.charter.forgotten ≡ monitor.forgotten) }
        ensures count { IfOk result (λ t. t.office.charter.count ≡ count) }
        ensures home { IfOk result (λ t. t.home ≡ newcomers t.office count) }
        ensures err { IfErr result (λ fault. journal_of fault.monitor ≡ journal_of monitor) }
    {
        let (office, home) = Office::open_shared(alloc, monitor, count)?;
        Ok(Seats {
            office,
            home,
            count,
        })
    }

    /// Whether no session is at home.
    pub(crate) fn is_empty(&self) -> bool
        ensures { result ≡ nat_eq (length self.now.home) 0 }
    {
        self.home.is_empty()
    }

    /// Hands out the last of the sessions at home.
    ///
    /// # Errors
    /// `AllocError` where an allocation failed; all is then as before.
    #[tactic(auto, using(crate::proofs::Offices::ascending_last))]
    pub(crate) fn hand_out(&mut self, alloc: Global) -> Result<Box<Place, Global>, AllocError>
        requires { 0 < length self.old.home }
        ensures office { self.new.office ≡ self.old.office }
        ensures ok { IfOk result (λ p. (p.value.office ≡ self.old.office)
            × (self.old.home ≡ self.new.home ++ p.value.session ∷ [])) }
        ensures err { OnErr result (self.new ≡ self.old) }
    {
        let Ok(office) = Arc::try_clone(&self.office) else {
            return Err(AllocError);
        };
        let Some(session) = self.home.pop() else {
            unreachable!()
        };
        match Box::new(alloc, Place::of(office, session)) {
            Ok(place) => Ok(place),
            Err(refused) => {
                self.home.push_reserved(refused.value.into_session());
                Err(AllocError)
            }
        }
    }

    /// Takes a session of the office back, whose number is above those at home. It needs no memory.
    #[tactic(auto, using(crate::proofs::Offices::one_more))]
    pub(crate) fn take_back(&mut self, place: Box<Place, Global>)
        requires office { place.value.office ≡ self.old.office }
        requires above { NumbersBelow (number_of place.value.session.view) self.old.home }
        ensures office { self.new.office ≡ self.old.office }
        ensures back { self.new.home ≡ self.old.home ++ place.value.session ∷ [] }
    {
        self.home
            .push_reserved(Box::into_inner(place).into_session());
    }

    /// Closes the office, and gives the monitor back, with the journal of all sessions.
    ///
    /// # Errors
    /// The office with its sessions, where some are out.
    pub(crate) fn close(self) -> Result<Monitor, Seats>
        ensures ok { IfOk result (λ m. Leaves self.office self.home (journal_of m)) }
        ensures err { IfErr result (λ seats. seats ≡ self) }
        ensures out { length self.home < self.office.charter.count → IsErr result }
    {
        if self.home.len() < self.count as usize {
            return Err(self);
        }
        let Seats {
            office,
            home,
            count,
        } = self;
        match Arc::try_unwrap(office) {
            Ok(office) => match office.close(home) {
                Ok(monitor) => Ok(monitor),
                Err(_) => unreachable!(),
            },
            Err(office) => Err(Seats {
                office,
                home,
                count,
            }),
        }
    }
}
