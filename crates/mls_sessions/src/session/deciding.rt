//! What a session asks for that makes no entry: what would be replied to a request.
ghost use Rattle.std.specs.Prelude.{◌≡◌, length, IfOk, IsOk, OnErr};
ghost use Rattle.mls_rules.specs.Rules.{reply};
ghost use Rattle.mls_monitor.specs.Journal.{fold};
ghost use Rattle.mls_sessions.specs.Rule.{begun};
ghost use Rattle.mls_sessions.specs.Sessions.{IsOf, Sees, NoShorter, history, number_of};

use crate::consulting::{Decision, consult};
use crate::gate::{named, wake, win};
use crate::office::Office;
use crate::session::Session;
use crate::try_fault::Busy;
use mls_requests::Request;

impl Session {
    /// Returns what would be replied to a request, with the number that its entry would have. The history grows by what
    /// others added, and the reply is that of the state which it led to. It makes no entry, and doesn't wait.
    ///
    /// # Errors
    /// `Busy` where another session held the gate; the session is then as before. An office of one session is never
    /// busy.
    #[tactic(auto, using(crate::proofs::Recency::seen_since))]
    pub fn try_decide(&mut self, office: &Office, request: &Request) -> Result<Decision, Busy>
        requires { IsOf office.now self.old }
        ensures office { IsOf office.now self.new }
        ensures number { number_of self.new.view ≡ number_of self.old.view }
        ensures seen { IfOk result (λ _. Sees office.now.charter self.old.view self.new.view) }
        ensures since { IfOk result (λ _. NoShorter self.old.view self.new.view) }
        ensures place { IfOk result (λ d. d.number ≡ length (history self.new.view)) }
        ensures reply { IfOk result
            (λ d. d.reply ≡ reply (fold (begun office.now.charter) (history self.new.view)) request.now) }
        ensures busy { OnErr result (self.new ≡ self.old) }
        ensures alone { office.now.charter.count ≡ 1 → IsOk result }
    {
        let (told, may_sleep) = self.decide_quietly(office, request);
        wake(&office.table.shared, may_sleep);
        told
    }

    /// As [`try_decide`](Session::try_decide), but it wakes nobody. It returns also whether another session may sleep
    /// until it is woken, as [`Office::wake_one`] does. Where no session of the office ever waits, nobody sleeps.
    ///
    /// # Errors
    /// As those of [`try_decide`](Session::try_decide).
    #[tactic(auto, using(crate::proofs::Recency::seen_since))]
    pub fn decide_quietly(
        &mut self,
        office: &Office,
        request: &Request,
    ) -> (Result<Decision, Busy>, bool)
        requires { IsOf office.now self.old }
        ensures office { IsOf office.now self.new }
        ensures number { number_of self.new.view ≡ number_of self.old.view }
        ensures seen { IfOk result.0 (λ _. Sees office.now.charter self.old.view self.new.view) }
        ensures since { IfOk result.0 (λ _. NoShorter self.old.view self.new.view) }
        ensures place { IfOk result.0 (λ d. d.number ≡ length (history self.new.view)) }
        ensures reply { IfOk result.0
            (λ d. d.reply ≡ reply (fold (begun office.now.charter) (history self.new.view)) request.now) }
        ensures busy { OnErr result.0 (self.new ≡ self.old) }
        ensures alone { office.now.charter.count ≡ 1 → IsOk result.0 }
    {
        let gate = &office.table.shared;
        let name = named(self.number());
        let Ok(monitor) = win(gate, &mut self.seat, name) else {
            return (Err(Busy), false);
        };
        let (decision, may_sleep) = consult(
            gate,
            &mut self.seat,
            &mut self.counts,
            monitor,
            request,
        );
        (Ok(decision), may_sleep)
    }
}
