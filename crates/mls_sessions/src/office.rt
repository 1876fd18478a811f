//! An office, whose sessions share one monitor.
ghost use Rattle.std.specs.Prelude.{◌≡◌, ◌<◌, [], length, IfOk, IfErr, IsTrue, is_err};
ghost use Rattle.std.specs.Bool.{Decides};
ghost use Rattle.mls_turns.specs.Journals.{journal_of};
ghost use Rattle.mls_sessions.specs.Journals.{charter_of};
ghost use Rattle.mls_sessions.specs.declared.gate_table.View.TheVariants.{Starting};
ghost use Rattle.mls_sessions.specs.Rule.{base_length};
ghost use Rattle.mls_sessions.specs.Sessions.{is_count, Ascending, Leaves};

mod opening;

use crate::backoff::Backoff;
use crate::cells::cells_for;
use crate::closing::take_home;
use crate::gate::wake;
use crate::gate_table::{Charter, GateSeat, GateTable};
use crate::lobby::Lobby;
use crate::office_fault::CloseFault;
use crate::opening::vacant_table;
use crate::session::Session;
use mls_monitor::Monitor;
use std::alloc::{AllocError, Global};
use std::marker::Model;

/// An office has a monitor that its sessions share, each in whatever thread, through one lock: the gate. A session
/// takes the monitor out, and puts it home where it frees the gate.
///
/// An office and its sessions may be dropped. A dropped session never comes back, so the office can't be closed then.
#[derive(Drop)]
pub struct Office {
    pub(crate) table: GateTable,
    pub(crate) lobby: Lobby,
    pub(crate) cells: u32,
    count: u32,
    base: u64,
}

impl Model for Office {
    ghost use Rattle.std.specs.Prelude.{◌≡◌, ◌<◌, ◌+◌};
    ghost use Rattle.mls_sessions.specs.declared.limits.TheConstants.{FIRST};
    ghost use Rattle.mls_sessions.specs.Rule.{base_length};
    ghost use Rattle.mls_sessions.specs.Sessions.{Office, office_at, office_code};

    ghost Value = { Office };

    ghost coded = { office_code };

    ghost view = { λ o. office_at o.table.shared.table_id o.table.shared.key };

    ghost invariant = { λ o. (o.table.shared.table_id.words ≡ o.cells + FIRST) × (o.table.shared.table_id.slots ≡ 1)
        × (0 < o.count) × (o.count ≡ o.table.shared.key.count) × (o.cells ≡ o.table.shared.key.cells)
        × (o.base ≡ base_length o.table.shared.key) };
}

impl Office {
    /// An office for so many sessions of a monitor, which isn't put in yet, and its first seat. Its journal lasts or
    /// not, and its sessions back off so.
    ///
    /// # Errors
    /// `AllocError` where an allocation failed.
    fn vacant(
        alloc: Global,
        monitor: &Monitor,
        n: u16,
        lasts: bool,
        backoff: Backoff,
    ) -> Result<(Office, GateSeat), AllocError>
        requires { IsTrue (is_count n) }
        ensures charter { IfOk result (λ r. r.0.charter ≡ charter_of monitor.now n r.0.charter.cells lasts) }
        ensures seat { IfOk result (λ r. (r.1.table_id ≡ r.0.table) × (r.1.me ≡ (Starting r.0.charter, []))) }
    {
        let cells = cells_for(monitor.state().subject_count());
        let charter = Charter::of(monitor, u64::from(n), u64::from(cells), lasts);
        let (table, seat) = vacant_table(alloc, &charter, cells)?;
        let office = Office {
            table,
            lobby: Lobby::new(backoff, n),
            cells,
            count: u32::from(n),
            base: monitor.next_number(),
        };
        Ok((office, seat))
    }

    /// The length of the journal when the office was opened. Every session's history begins with those entries.
    pub fn base(&self) -> u64
        ensures { result ≡ base_length self.now.charter }
    {
        self.base
    }

    /// Wakes one session that sleeps at the gate, if one does. It doesn't wait.
    pub fn wake_one(&self) {
        wake(&self.table.shared, true);
    }

    /// Gives the monitor back, with the journal of all sessions, of which that is forgotten which was, and what sessions
    /// had forgotten. The sessions are given ascending by number. It doesn't wait and doesn't allocate.
    ///
    /// # Errors
    /// `CloseFault` where fewer than all sessions are given, with the office and the sessions as they were handed in.
    #[tactic(auto, using(crate::proofs::SeatsKeep::at_most))]
    pub fn close(self, sessions: Vec<Session>) -> Result<Monitor, CloseFault>
        requires { Ascending self 0 sessions.items }
        ensures ok { IfOk result (λ m. Leaves self sessions.items (journal_of m)) }
        ensures office { IfErr result (λ fault. fault.office ≡ self) }
        ensures sessions { IfErr result (λ fault. fault.sessions.items ≡ sessions.items) }
        ensures missing { Decides (is_err result) (length sessions.items < self.charter.count) }
    {
        if sessions.len() < self.count as usize {
            return Err(CloseFault {
                office: self,
                sessions,
            });
        }
        let Office {
            table,
            lobby: _,
            cells: _,
            count: _,
            base: _,
        } = self;
        Ok(take_home(table, sessions).into_inner())
    }
}
