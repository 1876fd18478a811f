//! A session: what one thread asks of the monitor, and what it has seen of the journal.
ghost use Rattle.std.specs.Prelude.{◌≡◌, ◌≤◌, [], length};
ghost use Rattle.mls_sessions.specs.Journals.{Charter};
ghost use Rattle.mls_sessions.specs.Rule.{member, opened, base_length};
ghost use Rattle.mls_sessions.specs.Sessions.{session_at, seated, IsOf, Meets, history, own, number_of};

mod asking;
mod changing;
mod checking;
mod deciding;
mod forgetting;
mod seeing;

use crate::counts::Counts;
use crate::gate_table::GateSeat;
use crate::meeting::meet_at;
use crate::office::Office;
use crate::pace::Pace;
use std::marker::Model;

/// A session of an office. It knows a prefix of the journal, its history, which has just those entries with its number
/// that it made, each once and in order. It is used with the office that gave it, by one thread at a time.
#[derive(Drop)]
pub struct Session {
    seat: GateSeat,
    index: u32,
    counts: Counts,
    pace: Pace,
}

impl Model for Session {
    ghost use Rattle.std.specs.Prelude.{◌≡◌, []};
    ghost use Rattle.mls_sessions.specs.Sessions.{Session, session_at, session_code, number_of, IsCounted};

    ghost Value = { Session };

    ghost coded = { session_code };

    ghost view = { λ s. session_at s.seat.table_id s.seat.me.0 };

    ghost invariant = { λ s. (s.seat.me.1 ≡ []) × (s.index ≡ number_of s.seat.me.0) × IsCounted s.counts s.seat.me.0 };
}

impl Session {
    /// A session that has seen what the office was opened with.
    pub(crate) fn enter(seat: GateSeat, number: u32, base: u64) -> Session
        requires { (c : Charter) × (seat.me ≡ seated c (member number (opened c))) × (base ≡ base_length c) }
        ensures { result ≡ session_at seat.table_id seat.me.0 }
    {
        Session {
            seat,
            index: number,
            counts: Counts {
                made: 0,
                seen: base,
            },
            pace: Pace::new(),
        }
    }

    /// The session's seat.
    pub(crate) fn into_seat(self) -> GateSeat
        ensures { (result.table_id ≡ self.table) × (result.me ≡ (self.view, [])) }
    {
        let Session {
            seat,
            index: _,
            counts: _,
            pace: _,
        } = self;
        seat
    }

    /// The session's number, which its entries have.
    pub fn number(&self) -> u32
        ensures { result ≡ number_of self.now.view }
    {
        self.index
    }

    /// How many entries the session has made.
    pub fn made(&self) -> u64
        ensures { result ≡ length (own self.now.view) }
    {
        self.counts.made
    }

    /// A length that the session's history has at least: that of the journal when the session, or one that it met, last
    /// had the gate.
    pub fn seen(&self) -> u64
        ensures { result ≤ length (history self.now.view) }
    {
        self.counts.seen
    }

    /// Gives both sessions the longer of their two histories; the shorter was a prefix of it. Both then know the greater
    /// number of forgotten entries. It doesn't wait.
    #[tactic(auto, using(crate::proofs::Meetings::met_counts))]
    pub fn meet(&mut self, other: &mut Session, office: &Office)
        requires { IsOf office.now self.old × IsOf office.now other.old }
        ensures office { IsOf office.now self.new × IsOf office.now other.new }
        ensures meets { Meets self.old.view other.old.view self.new.view other.new.view }
    {
        let (mine, theirs) = (self.seen(), other.seen());
        let seen = if mine < theirs { theirs } else { mine };
        meet_at(&office.table.shared, &mut self.seat, &mut other.seat);
        self.counts.saw(seen);
        other.counts.saw(seen);
    }
}
