//! How an office is opened.
ghost use Rattle.std.specs.Prelude.{◌≡◌, ◌≤◌, [], false, vec_len, vec_capacity, IfOk, IfErr, OnOk, IsTrue};
ghost use Rattle.std.specs.Prelude.{if◌then◌else◌};
ghost use Rattle.std.specs.Arc.{arc_value};
ghost use Rattle.mls_turns.specs.Journals.{journal, journal_of};
ghost use Rattle.mls_sessions.specs.Journals.{charter_of};
ghost use Rattle.mls_sessions.specs.declared.gate_table.View.TheVariants.{Starting};
ghost use Rattle.mls_sessions.specs.Rule.{begun, base};
ghost use Rattle.mls_sessions.specs.Sessions.{is_count, newcomers, Ascending};

use crate::backoff::Backoff;
use crate::gate_table::GateSeat;
use crate::limits::MAX_SESSIONS;
use crate::office::Office;
use crate::office_fault::{OfficeFault, OfficeFaultKind};
use crate::opening::{give_all, settle};
use crate::session::Session;
use mls_monitor::Monitor;
use mls_turns::BoxedMonitor;
use std::alloc::Global;
use std::sync::Arc;

impl Office {
    /// Opens the monitor to `n` sessions, which are numbered from 0 to `n` - 1. Each has the monitor's journal as its
    /// history. It doesn't wait.
    ///
    /// # Errors
    /// `BadCount` where `n` isn't 1 to [`MAX_SESSIONS`], else `Memory` where an allocation failed; with the monitor as
    /// it was handed in.
    #[tactic(auto, using(crate::proofs::SeatsKeep::newcomers_ascend))]
    pub fn open(
        alloc: Global,
        monitor: Monitor,
        n: u16,
    ) -> Result<(Office, Vec<Session>), OfficeFault>
        ensures many { OnOk result (IsTrue (is_count n)) }
        ensures start { IfOk result (λ r. begun r.0.charter ≡ monitor.start) }
        ensures base { IfOk result (λ r. base r.0.charter ≡ monitor.entries) }
        ensures forgotten { IfOk result (λ r. r.0.charter.forgotten ≡ monitor.forgotten) }
        ensures count { IfOk result (λ r. r.0.charter.count ≡ n) }
        ensures sessions { IfOk result (λ r. r.1.items ≡ newcomers r.0 n) }
        ensures all { IfOk result (λ r. vec_len r.1 ≡ n) }
        ensures of { IfOk result (λ r. Ascending r.0 0 r.1.items) }
        ensures forgets { IfOk result (λ r. r.0.charter.lasts ≡ false) }
        ensures kind { IfErr result
            (λ fault. fault.kind ≡ (if is_count n then OfficeFaultKind.Memory else OfficeFaultKind.BadCount)) }
        ensures monitor { IfErr result (λ fault. fault.monitor ≡ monitor) }
    {
        Office::open_as(alloc, monitor, n, false, Backoff::standard())
    }

    /// As [`open`](Office::open), with an office whose journal lasts, or not: whether its sessions have no entry
    /// forgotten. Its sessions back off so.
    ///
    /// # Errors
    /// As those of [`open`](Office::open).
    #[tactic(auto, using(crate::proofs::SeatsKeep::newcomers_ascend))]
    pub(crate) fn open_as(
        alloc: Global,
        monitor: Monitor,
        n: u16,
        lasts: bool,
        backoff: Backoff,
    ) -> Result<(Office, Vec<Session>), OfficeFault>
        ensures many { OnOk result (IsTrue (is_count n)) }
        ensures start { IfOk result (λ r. begun r.0.charter ≡ monitor.start) }
        ensures base { IfOk result (λ r. base r.0.charter ≡ monitor.entries) }
        ensures forgotten { IfOk result (λ r. r.0.charter.forgotten ≡ monitor.forgotten) }
        ensures count { IfOk result (λ r. r.0.charter.count ≡ n) }
        ensures sessions { IfOk result (λ r. r.1.items ≡ newcomers r.0 n) }
        ensures all { IfOk result (λ r. vec_len r.1 ≡ n) }
        ensures of { IfOk result (λ r. Ascending r.0 0 r.1.items) }
        ensures lasts { IfOk result (λ r. r.0.charter.lasts ≡ lasts) }
        ensures kind { IfErr result
            (λ fault. fault.kind ≡ (if is_count n then OfficeFaultKind.Memory else OfficeFaultKind.BadCount)) }
        ensures monitor { IfErr result (λ fault. fault.monitor ≡ monitor) }
    {
        let (office, seat, sessions) = match Office::prepare(alloc, &monitor, n, lasts, backoff) {
            Ok(prepared) => prepared,
            Err(kind) => return Err(OfficeFault { kind, monitor }),
        };
        match office.put_in(alloc, monitor, seat, sessions) {
            Ok(sessions) => Ok((office, sessions)),
            Err(fault) => Err(fault),
        }
    }

    /// As [`open`](Office::open), with an office that several owners share. All that it allocates for the office is
    /// there before the monitor is put in.
    ///
    /// # Errors
    /// As those of [`open`](Office::open).
    #[tactic(auto, using(crate::proofs::SeatsKeep::newcomers_ascend))]
    pub fn open_shared(
        alloc: Global,
        monitor: Monitor,
        n: u16,
    ) -> Result<(Arc<Office, Global>, Vec<Session>), OfficeFault>
        ensures many { OnOk result (IsTrue (is_count n)) }
        ensures start { IfOk result (λ r. begun (arc_value r.0).charter ≡ monitor.start) }
        ensures base { IfOk result (λ r. base (arc_value r.0).charter ≡ monitor.entries) }
        ensures forgotten { IfOk result (λ r. (arc_value r.0).charter.forgotten ≡ monitor.forgotten) }
        ensures count { IfOk result (λ r. (arc_value r.0).charter.count ≡ n) }
        ensures sessions { IfOk result (λ r. r.1.items ≡ newcomers (arc_value r.0) n) }
        ensures all { IfOk result (λ r. vec_len r.1 ≡ n) }
        ensures of { IfOk result (λ r. Ascending (arc_value r.0) 0 r.1.items) }
        ensures forgets { IfOk result (λ r. (arc_value r.0).charter.lasts ≡ false) }
        ensures kind { IfErr result
            (λ fault. fault.kind ≡ (if is_count n then OfficeFaultKind.Memory else OfficeFaultKind.BadCount)) }
        ensures monitor { IfErr result (λ fault. fault.monitor ≡ monitor) }
    {
        let backoff = Backoff::standard();
        let (office, seat, sessions) = match Office::prepare(alloc, &monitor, n, false, backoff) {
            Ok(prepared) => prepared,
            Err(kind) => return Err(OfficeFault { kind, monitor }),
        };
        let Ok(office) = Arc::new(alloc, office) else {
            return Err(OfficeFault {
                kind: OfficeFaultKind::Memory,
                monitor,
            });
        };
        match office.put_in(alloc, monitor, seat, sessions) {
            Ok(sessions) => Ok((office, sessions)),
            Err(fault) => Err(fault),
        }
    }

    /// An office for `n` sessions of a monitor, which isn't put in yet, its first seat, and room for the sessions. Its
    /// journal lasts or not, and its sessions back off so.
    ///
    /// # Errors
    /// As those of [`open`](Office::open).
    fn prepare(
        alloc: Global,
        monitor: &Monitor,
        n: u16,
        lasts: bool,
        backoff: Backoff,
    ) -> Result<(Office, GateSeat, Vec<Session>), OfficeFaultKind>
        ensures many { OnOk result (IsTrue (is_count n)) }
        ensures charter { IfOk result (λ r. r.0.charter ≡ charter_of monitor.now n r.0.charter.cells lasts) }
        ensures seat { IfOk result (λ r. (r.1.table_id ≡ r.0.table) × (r.1.me ≡ (Starting r.0.charter, []))) }
        ensures room { IfOk result (λ r. (r.2.items ≡ []) × (n ≤ vec_capacity r.2)) }
        ensures kind { IfErr result
            (λ kind. kind ≡ (if is_count n then OfficeFaultKind.Memory else OfficeFaultKind.BadCount)) }
    {
        if n == 0 || n > MAX_SESSIONS {
            return Err(OfficeFaultKind::BadCount);
        }
        let Ok(sessions) = Vec::with_capacity(alloc, n as usize) else {
            return Err(OfficeFaultKind::Memory);
        };
        match Office::vacant(alloc, monitor, n, lasts, backoff) {
            Ok((office, seat)) => Ok((office, seat, sessions)),
            Err(_) => Err(OfficeFaultKind::Memory),
        }
    }

    /// Puts the monitor in, by the first seat, and makes the sessions in the room for them.
    ///
    /// # Errors
    /// `Memory` where an allocation failed, with the monitor as it was handed in.
    fn put_in(
        &self,
        alloc: Global,
        monitor: Monitor,
        mut seat: GateSeat,
        mut sessions: Vec<Session>,
    ) -> Result<Vec<Session>, OfficeFault>
        requires first { (seat.table_id ≡ self.now.table) × (seat.me ≡ (Starting self.now.charter, [])) }
        requires monitor { journal_of monitor
            ≡ journal (begun self.now.charter) self.now.charter.forgotten (base self.now.charter) }
        requires room { (sessions.items ≡ []) × (self.now.charter.count ≤ vec_capacity sessions) }
        ensures all { IfOk result (λ made. vec_len made ≡ self.now.charter.count) }
        ensures sessions { IfOk result (λ made. made.items ≡ newcomers self.now self.now.charter.count) }
        ensures kind { IfErr result (λ fault. fault.kind ≡ OfficeFaultKind.Memory) }
        ensures monitor { IfErr result (λ fault. fault.monitor ≡ monitor) }
    {
        match BoxedMonitor::new(alloc, monitor) {
            Ok(boxed) => {
                let gate = &self.table.shared;
                settle(gate, &mut seat, boxed);
                give_all(gate, &mut seat, &mut sessions, self.count, self.base);
                Ok(sessions)
            }
            Err(refused) => Err(OfficeFault {
                kind: OfficeFaultKind::Memory,
                monitor: refused.value,
            }),
        }
    }
}
