//! The monitor on the heap, as a gate holds it.
ghost use Rattle.std.specs.Prelude.{◌≡◌, length, drop, IfOk, IfErr};
ghost use Rattle.std.specs.FinSet as set;
ghost use Rattle.mls_state.specs.State.{is_active};
ghost use Rattle.mls_rules.specs.Rules.{reply};
ghost use Rattle.mls_monitor.specs.Journal.{fold};
ghost use Rattle.mls_monitor.specs.Tails.{forgotten_of};
ghost use Rattle.mls_turns.specs.Journals.{journal, journal_of, Appends, Stands};

use mls_monitor::Monitor;
use mls_requests::{Entry, Reply, Request};
use mls_rules::decide;
use mls_tables::{Mode, ObjectId, SubjectId};
use std::alloc::{AllocError, AllocFailed, Global};
use std::marker::Model;

/// A monitor in a box, so that a turn at a gate moves a pointer. Contracts see its start and its journal, with what is
/// forgotten of it, and not its room.
#[derive(Drop)]
pub struct BoxedMonitor {
    monitor: Box<Monitor>,
}

impl Model for BoxedMonitor {
    ghost use Rattle.mls_turns.specs.Journals.{Journal, journal_of, journal_code};

    ghost Value = { Journal };

    ghost coded = { journal_code };

    ghost view = { λ b. journal_of b.monitor.value };
}

impl BoxedMonitor {
    /// The monitor in a box.
    ///
    /// # Errors
    /// `AllocFailed` where the allocation failed, with the monitor as it was handed in.
    pub fn new(alloc: Global, monitor: Monitor) -> Result<BoxedMonitor, AllocFailed<Monitor>>
        ensures ok { IfOk result (λ b. b ≡ journal_of monitor) }
        ensures err { IfErr result (λ fault. fault.value ≡ monitor) }
    {
        let monitor = Box::new(alloc, monitor)?;
        Ok(BoxedMonitor { monitor })
    }

    /// The monitor out of its box.
    pub fn into_inner(self) -> Monitor
        ensures { journal_of result ≡ self }
    {
        let BoxedMonitor { monitor } = self;
        Box::into_inner(monitor)
    }

    /// Adds an entry, as the rules say.
    ///
    /// # Errors
    /// `AllocError` where an allocation failed; start and journal are then as before.
    pub fn submit(&mut self, session: u32, request: Request) -> Result<Entry, AllocError>
        ensures ok { IfOk result (λ e. Appends self.old session request e self.new) }
        ensures err { IfErr result (λ _. self.new ≡ self.old) }
    {
        self.monitor.submit(session, request)
    }

    /// Forgets the entries with numbers below `n`, as far as they are there, and below the limit that a monitor has.
    pub fn forget(&mut self, n: u64)
        ensures { self.new
            ≡ journal self.old.start (forgotten_of self.old.forgotten (length self.old.entries) n) self.old.entries }
    {
        self.monitor.forget(n);
    }

    /// Whether the triple is a current access.
    pub fn check(&self, s: SubjectId, o: ObjectId, x: Mode) -> bool
        ensures { let b = (fold self.now.start self.now.entries).accesses in result ≡ set.contains b (s, o, x) }
    {
        self.monitor.check(s, o, x)
    }

    /// Whether an object is active.
    pub fn is_active(&self, o: ObjectId) -> bool
        ensures { result ≡ is_active (fold self.now.start self.now.entries) o }
    {
        self.monitor.state().is_active(o)
    }

    /// The reply of the rules to a request.
    pub fn decide(&self, request: &Request) -> Reply
        ensures { result ≡ reply (fold self.now.start self.now.entries) request.now }
    {
        decide(self.monitor.state(), request)
    }

    /// The entries that aren't forgotten. The journal is legal.
    pub fn entries(&self) -> &[Entry]
        ensures value { result.now ≡ drop self.now.forgotten self.now.entries }
        ensures legal { Stands self.now.start self.now.entries }
    {
        self.monitor.entries()
    }

    /// The monitor, to look at.
    pub fn monitor(&self) -> &Monitor
        ensures { journal_of result.now ≡ self.now }
    {
        &self.monitor
    }

    /// The number of the next entry.
    pub fn next_number(&self) -> u64
        ensures { result ≡ length self.now.entries }
    {
        self.monitor.next_number()
    }
}
