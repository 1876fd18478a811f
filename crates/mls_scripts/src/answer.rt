//! The step of one line of a script: what it asks of the monitor, and what it is answered.
ghost use Rattle.std.specs.Prelude.{◌≡◌, ◌++◌, ◌∷◌, [], List, ℕ, Ok, None, option_map, IfOk, OnOk, OnErr};
ghost use Rattle.mls_rules.specs.Rules.{reply};
ghost use Rattle.mls_monitor.specs.Journal.{state_of};
ghost use Rattle.mls_lines.specs.LineView.{Asks};
ghost use Rattle.mls_lines.specs.ScriptLine.{line_of};
ghost use Rattle.mls_scripts.specs.Access.{asked_by};
ghost use Rattle.mls_scripts.specs.Script.{standing_of, said_to, left_by, vars_after, entry_for};

use crate::access::{Access, Kind, read_access};
use crate::halves::{bind_reply, make_room};
use mls_lines::{Line, LineFault, Names, Vars, read_line};
use mls_monitor::Monitor;
use mls_requests::{Action, Ask, Reply, Request};
use std::alloc::{AllocError, Allocator};

/// The answer to a line.
#[derive(Clone, Copy, Debug, PartialEq, Eq)]
pub enum Answer {
    /// A blank line: nothing.
    Nothing,
    /// A line that asks nothing: its fault.
    Fault(LineFault),
    /// A check: whether the access is held.
    Held(bool),
    /// A request: its reply.
    Replied(Reply),
}

/// A script that is answered line by line: the names that its lines may use, and the session that it asks in.
#[derive(Drop)]
pub struct Script<'n, N: Allocator> {
    pub names: &'n Names<N>,
    pub session: u32,
}

impl<N: Allocator> Script<'_, N> {
    /// Asks what a line asks, and binds the line's variable, where it has one, to the object that was made.
    ///
    /// # Errors
    /// `AllocError` where an allocation failed. The variables and the monitor are then as they were.
    pub fn answer<A: Allocator, V: Allocator + Copy>(
        &self,
        vars: &mut Vars<V>,
        monitor: &mut Monitor<A>,
        line: &[u8],
    ) -> Result<Answer, AllocError>
        ensures answer { let before = standing_of vars.old.bound monitor.old in
            IfOk result (λ a. a ≡ said_to before (line_of self.now.names.now before.vars line.now)) }
        ensures stands { let before = standing_of vars.old.bound monitor.old in
            OnOk result (standing_of vars.new.bound monitor.new
            ≡ left_by self.now.session before (line_of self.now.names.now before.vars line.now)) }
        ensures err { OnErr result (standing_of vars.new.bound monitor.new ≡ standing_of vars.old.bound monitor.old) }
        ensures forgotten { monitor.new.forgotten ≡ monitor.old.forgotten }
    {
        match read_access(self.names, line) {
            Some(access) => self.answer_access(monitor, access),
            None => self.answer_line(vars, monitor, line),
        }
    }

    /// Asks what a line asks about an access.
    ///
    /// # Errors
    /// `AllocError` where an allocation failed. The monitor is then as it was.
    fn answer_access<A: Allocator>(
        &self,
        monitor: &mut Monitor<A>,
        access: Access,
    ) -> Result<Answer, AllocError>
        ensures answer { (vars : List (List ℕ × ℕ)) → let before = standing_of vars monitor.old in
            IfOk result (λ a. a ≡ said_to before (Ok (Asks None (asked_by access)))) }
        ensures stands { (vars : List (List ℕ × ℕ)) → let before = standing_of vars monitor.old in
            OnOk result (standing_of vars monitor.new
            ≡ left_by self.now.session before (Ok (Asks None (asked_by access)))) }
        ensures err { (vars : List (List ℕ × ℕ))
            → OnErr result (standing_of vars monitor.new ≡ standing_of vars monitor.old) }
        ensures forgotten { monitor.new.forgotten ≡ monitor.old.forgotten }
    {
        let subject = access.subject;
        let (mode, object) = (access.mode, access.object);
        let action = match access.kind {
            Kind::Check => return Ok(Answer::Held(monitor.check(subject, object, mode))),
            Kind::Get => Action::Get(mode, object),
            Kind::Release => Action::Release(mode, object),
        };
        let reply = monitor
            .submit(self.session, Request { subject, action })?
            .reply;
        Ok(Answer::Replied(reply))
    }

    /// Asks what a line asks, of whatever form, and binds its variable.
    ///
    /// # Errors
    /// `AllocError` where an allocation failed. The variables and the monitor are then as they were.
    #[inline(never)]
    fn answer_line<A: Allocator, V: Allocator + Copy>(
        &self,
        vars: &mut Vars<V>,
        monitor: &mut Monitor<A>,
        line: &[u8],
    ) -> Result<Answer, AllocError>
        ensures answer { let before = standing_of vars.old.bound monitor.old in
            IfOk result (λ a. a ≡ said_to before (line_of self.now.names.now before.vars line.now)) }
        ensures stands { let before = standing_of vars.old.bound monitor.old in
            OnOk result (standing_of vars.new.bound monitor.new
            ≡ left_by self.now.session before (line_of self.now.names.now before.vars line.now)) }
        ensures err { OnErr result (standing_of vars.new.bound monitor.new ≡ standing_of vars.old.bound monitor.old) }
        ensures forgotten { monitor.new.forgotten ≡ monitor.old.forgotten }
    {
        match read_line(self.names, vars, line) {
            Err(fault) => Ok(Answer::Fault(fault)),
            Ok(Line::Blank) => Ok(Answer::Nothing),
            Ok(Line::Ask { bind, ask }) => match ask {
                Ask::Check(subject, object, mode) => {
                    Ok(Answer::Held(monitor.check(subject, object, mode)))
                }
                Ask::Submit(request) => {
                    let reply = self.submit(vars, bind, monitor, request)?;
                    Ok(Answer::Replied(reply))
                }
            },
        }
    }

    /// Asks a request, and binds the variable of its line, where it has one, to the object that it made. The room for
    /// the variable is made first, so that an object that was made is always bound.
    ///
    /// # Errors
    /// `AllocError` where an allocation failed: the variables and the monitor stay as they were.
    fn submit<A: Allocator, V: Allocator + Copy>(
        &self,
        vars: &mut Vars<V>,
        bind: Option<&str>,
        monitor: &mut Monitor<A>,
        request: Request,
    ) -> Result<Reply, AllocError>
        ensures reply { IfOk result (λ r. r ≡ reply (state_of monitor.old) request) }
        ensures bound { IfOk result
            (λ r. vars.new.bound ≡ vars_after vars.old.bound (option_map (λ name. name.now) bind.entry) r) }
        ensures start { monitor.new.start ≡ monitor.old.start }
        ensures entries { OnOk result (monitor.new.entries
            ≡ monitor.old.entries ++ entry_for self.now.session (standing_of vars.old.bound monitor.old) request ∷ []) }
        ensures err { OnErr result (standing_of vars.new.bound monitor.new ≡ standing_of vars.old.bound monitor.old) }
        ensures forgotten { monitor.new.forgotten ≡ monitor.old.forgotten }
    {
        let room = make_room(vars, bind)?;
        let reply = monitor.submit(self.session, request)?.reply;
        bind_reply(vars, room, reply);
        Ok(reply)
    }
}
