//! What a session asks for that changes nothing: whether a triple is a current access.
ghost use Rattle.std.specs.Prelude.{◌≡◌, IfSome, OnSome, IfNone, IfOk, IsOk, OnErr};
ghost use Rattle.std.specs.FinSet as set;
ghost use Rattle.mls_monitor.specs.Journal.{fold};
ghost use Rattle.mls_sessions.specs.Rule.{begun};
ghost use Rattle.mls_sessions.specs.Sessions.{IsOf, Sees, NoShorter, history, number_of};

use crate::cells::{BLANK, bit_of, cell_of, has_bit};
use crate::gate::{glance, named, wake, win};
use crate::office::Office;
use crate::session::Session;
use crate::try_fault::Busy;
use crate::turn::inspect;
use crate::waiting::wait;
use mls_tables::{Mode, ObjectId, SubjectId};
use std::sync::Wait;

impl Session {
    /// Reads by one load whether the triple is a current access, and takes no lock. It has no answer, and has seen
    /// nothing, where the word is blank or the triple has none.
    #[tactic(auto, using(crate::proofs::Touching::told_by))]
    fn glance(&mut self, office: &Office, s: SubjectId, o: ObjectId, x: Mode) -> Option<bool>
        requires { IsOf office.now self.old }
        ensures office { IsOf office.now self.new }
        ensures number { number_of self.new.view ≡ number_of self.old.view }
        ensures seen { OnSome result (Sees office.now.charter self.old.view self.new.view) }
        ensures answer { let b = (fold (begun office.now.charter) (history self.new.view)).accesses in IfSome result
            (λ is_held. is_held ≡ set.contains b (s, o, x)) }
        ensures none { IfNone result (self.new ≡ self.old) }
    {
        let Some(at) = cell_of(s, o, office.cells) else {
            return None;
        };
        let word = glance(&office.table.shared, &mut self.seat, at);
        if word == BLANK {
            return None;
        }
        Some(has_bit(word, bit_of(s, x)))
    }

    /// Waits for the gate, and looks the triple up in the monitor's state.
    fn look_up<R: Wait>(
        &mut self,
        office: &Office,
        rt: &R,
        s: SubjectId,
        o: ObjectId,
        x: Mode,
    ) -> bool
        requires { IsOf office.now self.old }
        ensures office { IsOf office.now self.new }
        ensures number { number_of self.new.view ≡ number_of self.old.view }
        ensures seen { Sees office.now.charter self.old.view self.new.view }
        ensures answer { let b = (fold (begun office.now.charter) (history self.new.view)).accesses in result
            ≡ set.contains b (s, o, x) }
    {
        let gate = &office.table.shared;
        let number = self.number();
        let taken = wait(office, rt, &mut self.seat, &mut self.pace, number, 1);
        let (is_held, may_sleep) = inspect(
            gate,
            office.cells,
            &mut self.seat,
            &mut self.counts,
            taken,
            s,
            o,
            x,
        );
        wake(gate, may_sleep);
        is_held
    }

    /// Returns whether the triple is a current access; false where it names an unknown subject or an object that isn't
    /// active. The history grows by what others added, and the answer is that of the state which it led to.
    ///
    /// It reads one word, that of the object for eight subjects, and waits for the gate only where the word is blank,
    /// or the triple has none. All words are blank when the office opens, and those of an object where it is deleted. A
    /// check that waited fills its word, but one of several asks of one turn fills none. A triple without a word always
    /// waits.
    #[tactic(auto, using(crate::proofs::Recency::seen_since))]
    pub fn check<R: Wait>(
        &mut self,
        office: &Office,
        rt: &R,
        s: SubjectId,
        o: ObjectId,
        x: Mode,
    ) -> bool
        requires { IsOf office.now self.old }
        ensures office { IsOf office.now self.new }
        ensures number { number_of self.new.view ≡ number_of self.old.view }
        ensures seen { Sees office.now.charter self.old.view self.new.view }
        ensures since { NoShorter self.old.view self.new.view }
        ensures answer { let b = (fold (begun office.now.charter) (history self.new.view)).accesses in result
            ≡ set.contains b (s, o, x) }
    {
        match self.glance(office, s, o, x) {
            Some(is_held) => is_held,
            None => self.look_up(office, rt, s, o, x),
        }
    }

    /// As [`check`](Session::check), but it doesn't wait.
    ///
    /// # Errors
    /// `Busy` where the word is blank, or there is none, and another session held the gate; the session is then as
    /// before. An office of one session is never busy.
    #[tactic(auto, using(crate::proofs::Recency::seen_since))]
    pub fn try_check(
        &mut self,
        office: &Office,
        s: SubjectId,
        o: ObjectId,
        x: Mode,
    ) -> Result<bool, Busy>
        requires { IsOf office.now self.old }
        ensures office { IsOf office.now self.new }
        ensures number { number_of self.new.view ≡ number_of self.old.view }
        ensures seen { IfOk result (λ _. Sees office.now.charter self.old.view self.new.view) }
        ensures since { IfOk result (λ _. NoShorter self.old.view self.new.view) }
        ensures answer { let b =
            (fold (begun office.now.charter) (history self.new.view)).accesses in IfOk result
            (λ is_held. is_held ≡ set.contains b (s, o, x)) }
        ensures busy { OnErr result (self.new ≡ self.old) }
        ensures alone { office.now.charter.count ≡ 1 → IsOk result }
    {
        let (told, may_sleep) = self.check_quietly(office, s, o, x);
        wake(&office.table.shared, may_sleep);
        told
    }

    /// As [`try_check`](Session::try_check), but it wakes nobody. It returns also whether another session may sleep
    /// until it is woken, as [`Office::wake_one`] does. Where no session of the office ever waits, nobody sleeps.
    ///
    /// # Errors
    /// As those of [`try_check`](Session::try_check).
    #[tactic(auto, using(crate::proofs::Recency::seen_since))]
    pub fn check_quietly(
        &mut self,
        office: &Office,
        s: SubjectId,
        o: ObjectId,
        x: Mode,
    ) -> (Result<bool, Busy>, bool)
        requires { IsOf office.now self.old }
        ensures office { IsOf office.now self.new }
        ensures number { number_of self.new.view ≡ number_of self.old.view }
        ensures seen { IfOk result.0 (λ _. Sees office.now.charter self.old.view self.new.view) }
        ensures since { IfOk result.0 (λ _. NoShorter self.old.view self.new.view) }
        ensures answer { let b =
            (fold (begun office.now.charter) (history self.new.view)).accesses in IfOk result.0
            (λ is_held. is_held ≡ set.contains b (s, o, x)) }
        ensures busy { OnErr result.0 (self.new ≡ self.old) }
        ensures alone { office.now.charter.count ≡ 1 → IsOk result.0 }
    {
        if let Some(is_held) = self.glance(office, s, o, x) {
            return (Ok(is_held), false);
        }
        let gate = &office.table.shared;
        let name = named(self.number());
        let Ok(monitor) = win(gate, &mut self.seat, name) else {
            return (Err(Busy), false);
        };
        let (is_held, may_sleep) = inspect(
            gate,
            office.cells,
            &mut self.seat,
            &mut self.counts,
            monitor,
            s,
            o,
            x,
        );
        (Ok(is_held), may_sleep)
    }
}
