//! What a session asks the monitor for: an entry, or what a feed gave; waiting for the gate, or not.
ghost use Rattle.std.specs.Prelude.{◌≡◌, ◌≢◌, ◌<◌, ◌≤◌, ◌∷◌, [], length, take, vec_len, vec_capacity, IfOk, IfErr};
ghost use Rattle.std.specs.Prelude.{OnOk, OnErr};
ghost use Rattle.mls_sessions.specs.Sessions.{IsOf, NoShorter, Submits, number_of};
ghost use Rattle.mls_sessions.specs.Feeds.{Learns};

use crate::gate::{named, wake, win};
use crate::office::Office;
use crate::session::Session;
use crate::try_fault::TryFault;
use crate::turn::{record, record_all};
use crate::waiting::wait;
use mls_monitor::Answer;
use mls_requests::{Ask, Entry, Request};
use std::alloc::AllocError;
use std::sync::Wait;

impl Session {
    /// Waits for the gate, and makes one entry with this session's number: the history grows by what others added, and
    /// ends with it.
    ///
    /// # Errors
    /// `AllocError` where an allocation failed; the session is then as before, the journal has no entry more, and the
    /// gate is free.
    #[tactic(auto, using(crate::proofs::Recency::made_since))]
    pub fn submit<R: Wait>(
        &mut self,
        office: &Office,
        rt: &R,
        request: Request,
    ) -> Result<Entry, AllocError>
        requires { IsOf office.now self.old }
        ensures office { IsOf office.now self.new }
        ensures number { number_of self.new.view ≡ number_of self.old.view }
        ensures ok { IfOk result (λ e. Submits office.now.charter self.old.view request e self.new.view) }
        ensures since { IfOk result (λ _. NoShorter self.old.view self.new.view) }
        ensures err { OnErr result (self.new ≡ self.old) }
    {
        let gate = &office.table.shared;
        let number = self.number();
        let monitor = wait(office, rt, &mut self.seat, &mut self.pace, number, 1);
        let (made, may_sleep) = record(
            gate,
            office.cells,
            &mut self.seat,
            &mut self.counts,
            monitor,
            number,
            request,
        );
        wake(gate, may_sleep);
        made
    }

    /// As [`submit`](Session::submit), but it doesn't wait.
    ///
    /// # Errors
    /// `Busy` where another session held the gate, else `Memory` where an allocation failed; the session is then as
    /// before, and the journal has no entry more. An office of one session is never busy.
    #[tactic(auto, using(crate::proofs::Recency::made_since))]
    pub fn try_submit(&mut self, office: &Office, request: Request) -> Result<Entry, TryFault>
        requires { IsOf office.now self.old }
        ensures office { IsOf office.now self.new }
        ensures number { number_of self.new.view ≡ number_of self.old.view }
        ensures ok { IfOk result (λ e. Submits office.now.charter self.old.view request e self.new.view) }
        ensures since { IfOk result (λ _. NoShorter self.old.view self.new.view) }
        ensures err { OnErr result (self.new ≡ self.old) }
        ensures alone { office.now.charter.count ≡ 1 → IfErr result (λ fault. fault ≢ TryFault.Busy) }
    {
        let (made, may_sleep) = self.submit_quietly(office, request);
        wake(&office.table.shared, may_sleep);
        made
    }

    /// As [`try_submit`](Session::try_submit), but it wakes nobody. It returns also whether another session may sleep
    /// until it is woken, as [`Office::wake_one`] does. Where no session of the office ever waits, nobody sleeps.
    ///
    /// # Errors
    /// As those of [`try_submit`](Session::try_submit).
    #[tactic(auto, using(crate::proofs::Recency::made_since))]
    pub fn submit_quietly(
        &mut self,
        office: &Office,
        request: Request,
    ) -> (Result<Entry, TryFault>, bool)
        requires { IsOf office.now self.old }
        ensures office { IsOf office.now self.new }
        ensures number { number_of self.new.view ≡ number_of self.old.view }
        ensures ok { IfOk result.0 (λ e. Submits office.now.charter self.old.view request e self.new.view) }
        ensures since { IfOk result.0 (λ _. NoShorter self.old.view self.new.view) }
        ensures err { OnErr result.0 (self.new ≡ self.old) }
        ensures alone { office.now.charter.count ≡ 1 → IfErr result.0 (λ fault. fault ≢ TryFault.Busy) }
    {
        let gate = &office.table.shared;
        let number = self.number();
        let Ok(monitor) = win(gate, &mut self.seat, named(number)) else {
            return (Err(TryFault::Busy), false);
        };
        let (made, may_sleep) = record(
            gate,
            office.cells,
            &mut self.seat,
            &mut self.counts,
            monitor,
            number,
            request,
        );
        match made {
            Ok(entry) => (Ok(entry), may_sleep),
            Err(_) => (Err(TryFault::Memory), may_sleep),
        }
    }

    /// Waits for the gate, and asks this.
    ///
    /// # Errors
    /// `AllocError` where an allocation failed; the session is then as before, and so is the journal.
    #[tactic(auto, using(crate::proofs::Learnt::learns_entry, crate::proofs::Learnt::learns_look))]
    pub(crate) fn ask<R: Wait>(
        &mut self,
        office: &Office,
        rt: &R,
        ask: Ask,
    ) -> Result<Answer, AllocError>
        requires { IsOf office.now self.old }
        ensures office { IsOf office.now self.new }
        ensures number { number_of self.new.view ≡ number_of self.old.view }
        ensures ok { IfOk result
            (λ answer. Learns office.now.charter self.old.view (ask ∷ []) (answer ∷ []) self.new.view) }
        ensures err { OnErr result (self.new ≡ self.old) }
    {
        match ask {
            Ask::Submit(request) => {
                let entry = self.submit(office, rt, request)?;
                Ok(Answer::Entry(entry))
            }
            Ask::Check(s, o, x) => Ok(Answer::Held(self.check(office, rt, s, o, x))),
        }
    }

    /// Waits for the gate, asks one after the other in one turn, until an allocation fails, and keeps the answers.
    ///
    /// # Errors
    /// `AllocError` where an allocation failed; those before it are answered, and stand.
    pub(crate) fn ask_all<R: Wait>(
        &mut self,
        office: &Office,
        rt: &R,
        asks: &[Ask],
        answers: &mut Vec<Answer>,
    ) -> Result<(), AllocError>
        requires office { IsOf office.now self.old }
        requires room { (answers.old.items ≡ []) × (length asks.now ≤ vec_capacity answers.old) }
        ensures office { IsOf office.now self.new }
        ensures number { number_of self.new.view ≡ number_of self.old.view }
        ensures learns { Learns office.now.charter self.old.view
            (take (vec_len answers.new) asks.now) answers.new.items self.new.view }
        ensures ok { OnOk result (vec_len answers.new ≡ length asks.now) }
        ensures err { OnErr result (vec_len answers.new < length asks.now) }
        ensures room { vec_capacity answers.old ≤ vec_capacity answers.new }
    {
        let gate = &office.table.shared;
        let number = self.number();
        let turn = asks.len() as u64;
        let taken = wait(office, rt, &mut self.seat, &mut self.pace, number, turn);
        record_all(
            gate,
            office.cells,
            &mut self.seat,
            &mut self.counts,
            taken,
            number,
            asks,
            answers,
        )
    }
}
