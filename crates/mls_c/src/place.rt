//! What a thread has of an office: a session, with the office that it shares with others.
ghost use Rattle.std.specs.Prelude.{◌≡◌, ◌≢◌, false, length, IfOk, IsOk, OnOk, OnErr, IfErr};
ghost use Rattle.std.specs.Arc.{arc_value};
ghost use Rattle.std.specs.Bool.{Decides};
ghost use Rattle.std.specs.FinSet as set;
ghost use Rattle.mls_rules.specs.Rules.{reply};
ghost use Rattle.mls_sessions.specs.Sessions.{IsOf, Submits, HasSeen, Forgets, Meets, history, number_of};
ghost use Rattle.mls_c.specs.Offices.{Looks, IsSameSession, state_seen};
ghost use Rattle.mls_c.specs.Seen.{seen_by, CountsChanges};

use mls_requests::{Entry, Request};
use mls_sessions::{Busy, Decision, Office, Question, Session, TryFault};
use mls_tables::{Mode, ObjectId, SubjectId};
use std::alloc::Global;
use std::marker::Model;
use std::sync::Arc;

/// A session, with its office.
#[derive(Drop)]
pub struct Place {
    office: Arc<Office, Global>,
    session: Session,
}

impl Model for Place {
    ghost use Rattle.std.specs.Prelude.{◌≡◌, false};
    ghost use Rattle.std.specs.Arc.{arc_value};
    ghost use Rattle.mls_sessions.specs.Sessions.{IsOf};
    ghost use Rattle.mls_c.specs.Offices.{Place, place_code};

    ghost Value = { Place };

    ghost coded = { place_code };

    ghost view = { λ p. record { office = arc_value p.office; session = p.session } };

    ghost invariant = { λ p. IsOf (arc_value p.office) p.session × ((arc_value p.office).charter.lasts ≡ false) };
}

impl Place {
    /// A session of this office, which may have entries forgotten.
    pub(crate) fn of(office: Arc<Office, Global>, session: Session) -> Place
        requires { IsOf (arc_value office) session × ((arc_value office).charter.lasts ≡ false) }
        ensures { result ≡ record { office = arc_value office; session = session } }
    {
        Place { office, session }
    }

    /// The session. The office stays with those that share it.
    pub(crate) fn into_session(self) -> Session
        ensures session { result ≡ self.session }
        ensures of { IsOf self.office result }
    {
        let Place { office, session } = self;
        drop(office);
        session
    }

    /// The session's number.
    pub(crate) fn number(&self) -> u32
        ensures { result ≡ number_of self.now.session.view }
    {
        self.session.number()
    }

    /// Whether a triple is a current access.
    ///
    /// # Errors
    /// `Busy` where another session is at the monitor, and no word tells of the triple; all is then as before.
    pub(crate) fn check(&mut self, s: SubjectId, o: ObjectId, x: Mode) -> Result<bool, Busy>
        ensures seen { IfOk result (λ _. Looks self.old self.new) }
        ensures answer { let b = (state_seen self.new).accesses in IfOk result
            (λ is_held. is_held ≡ set.contains b (s, o, x)) }
        ensures busy { OnErr result (self.new ≡ self.old) }
        ensures alone { self.old.office.charter.count ≡ 1 → IsOk result }
    {
        let (told, nobody) = self.session.check_quietly(&self.office, s, o, x);
        let _ = nobody;
        told
    }

    /// What would be replied to a request.
    ///
    /// # Errors
    /// `Busy` where another session is at the monitor; all is then as before.
    pub(crate) fn decide(&mut self, request: &Request) -> Result<Decision, Busy>
        ensures seen { IfOk result (λ _. Looks self.old self.new) }
        ensures number { IfOk result (λ d. d.number ≡ length (history self.new.session.view)) }
        ensures reply { IfOk result (λ d. d.reply ≡ reply (state_seen self.new) request.now) }
        ensures busy { OnErr result (self.new ≡ self.old) }
        ensures alone { self.old.office.charter.count ≡ 1 → IsOk result }
    {
        let (told, nobody) = self.session.decide_quietly(&self.office, request);
        let _ = nobody;
        told
    }

    /// Makes an entry.
    ///
    /// # Errors
    /// `Busy` where another session is at the monitor, `Memory` where an allocation failed; all is then as before.
    pub(crate) fn submit(&mut self, request: Request) -> Result<Entry, TryFault>
        ensures office { self.new.office ≡ self.old.office }
        ensures ok { IfOk result
            (λ e. Submits self.old.office.charter self.old.session.view request e self.new.session.view) }
        ensures number { number_of self.new.session.view ≡ number_of self.old.session.view }
        ensures err { OnErr result (self.new ≡ self.old) }
        ensures alone { self.old.office.charter.count ≡ 1 → IfErr result (λ fault. fault ≢ TryFault.Busy) }
    {
        let (made, nobody) = self.session.submit_quietly(&self.office, request);
        let _ = nobody;
        made
    }

    /// Puts a question to the monitor.
    ///
    /// # Errors
    /// `Busy` where another session is at the monitor; all is then as before.
    pub(crate) fn ask<Q: Question>(&mut self, question: &mut Q) -> Result<(), Busy>
        ensures seen { OnOk result (Looks self.old self.new) }
        ensures found { OnOk result (Q.finds question.old (seen_by self.new) question.new) }
        ensures busy { OnErr result (self.new ≡ self.old) }
        ensures unasked { OnErr result (question.new ≡ question.old) }
        ensures alone { OnErr result (self.old.office.charter.count ≢ 1) }
    {
        let (asked, nobody) = self.session.ask_quietly(&self.office, question);
        let _ = nobody;
        asked
    }

    /// Sees the present journal: whether it has at least `n` entries.
    ///
    /// # Errors
    /// `Busy` where another session is at the monitor; all is then as before.
    pub(crate) fn see(&mut self, n: u64) -> Result<bool, Busy>
        ensures seen { IfOk result (λ _. Looks self.old self.new) }
        ensures long { IfOk result (λ is_long. Decides is_long (HasSeen n self.new.session.view)) }
        ensures busy { OnErr result (self.new ≡ self.old) }
        ensures alone { OnErr result (self.old.office.charter.count ≢ 1) }
    {
        let (told, nobody) = self.session.see_quietly(&self.office, n);
        let _ = nobody;
        told
    }

    /// Has the entries with numbers below `n` forgotten.
    ///
    /// # Errors
    /// `Busy` where another session is at the monitor; all is then as before.
    pub(crate) fn forget(&mut self, n: u64) -> Result<(), Busy>
        ensures seen { OnOk result (Looks self.old self.new) }
        ensures forgets { OnOk result (Forgets n self.old.session.view self.new.session.view) }
        ensures busy { OnErr result (self.new ≡ self.old) }
        ensures alone { OnErr result (self.old.office.charter.count ≢ 1) }
    {
        let (forgot, nobody) = self.session.forget_quietly(&self.office, n);
        let _ = nobody;
        forgot
    }

    /// Sees the present journal, and returns how many changes it has since the office was opened.
    pub(crate) fn changes(&mut self) -> u64
        ensures { CountsChanges self.old result self.new }
    {
        self.session.changes(&self.office)
    }

    /// Gives both sessions the longer of their two histories.
    pub(crate) fn meet(&mut self, other: &mut Place)
        requires { other.old.office ≡ self.old.office }
        ensures mine { IsSameSession self.old self.new }
        ensures theirs { IsSameSession other.old other.new }
        ensures meets { Meets self.old.session.view other.old.session.view self.new.session.view other.new.session.view }
    {
        self.session.meet(&mut other.session, &self.office);
    }
}
