//! Asking what a line says, by whom it asks for.
ghost use Rattle.std.specs.Prelude.{◌≡◌, true, IfOk, OnOk, OnErr};
ghost use Rattle.mls_lines.specs.ScriptLine.{line_of};
ghost use Rattle.mls_scripts.specs.Script.{Standing, standing_of, said_to};
ghost use Rattle.mls_durable.specs.Sessions.{has_variable as has_variable_at, left_for, said_for, without_variable};

use crate::address::{Who, has_variable};
use mls_lines::{Line, LineFault, Names, Vars, read_line};
use mls_monitor::Monitor;
use mls_requests::Ask;
use mls_rules::decide;
use mls_scripts::{Answer, Script};
use std::alloc::{AllocError, Global};

/// The answer to a session's line in which a variable stands: only a note may have one.
fn refuse_variable(names: &Names, vars: &Vars, line: &[u8]) -> Answer
    ensures { (s : Standing) → result ≡ said_to s (without_variable true (line_of names.now vars.now.bound line.now)) }
{
    match read_line(names, vars, line) {
        Ok(Line::Blank) => Answer::Nothing,
        Ok(Line::Ask { bind: _, ask: _ }) | Err(_) => Answer::Fault(LineFault::BadForm),
    }
}

/// The answer that a line would have, in which no variable may stand. Nothing is changed.
fn try_line(names: &Names, vars: &Vars, monitor: &Monitor, line: &[u8]) -> Answer
    ensures { let now = standing_of vars.now.bound monitor.now in
        result ≡ said_to now (without_variable (has_variable_at true line.now) (line_of names.now now.vars line.now)) }
{
    if has_variable(line) {
        return refuse_variable(names, vars, line);
    }
    match read_line(names, vars, line) {
        Err(fault) => Answer::Fault(fault),
        Ok(Line::Blank) => Answer::Nothing,
        Ok(Line::Ask { bind: _, ask }) => match ask {
            Ask::Check(subject, object, mode) => Answer::Held(monitor.check(subject, object, mode)),
            Ask::Submit(request) => Answer::Replied(decide(monitor.state(), &request)),
        },
    }
}

/// Asks a line of a session, in which no variable may stand.
///
/// # Errors
/// `AllocError` where an allocation failed. The monitor is then as it was.
fn ask_session(
    names: &Names,
    session: u32,
    vars: &mut Vars,
    monitor: &mut Monitor,
    line: &[u8],
) -> Result<Answer, AllocError>
    ensures answer { let before = standing_of vars.old.bound monitor.old in
        IfOk result (λ a. a ≡ said_to before (said_for names.now before.vars (Who.Session session) line.now)) }
    ensures stands { let before = standing_of vars.old.bound monitor.old in
        OnOk result (standing_of vars.new.bound monitor.new
        ≡ left_for before (Who.Session session) (said_for names.now before.vars (Who.Session session) line.now)) }
    ensures err { OnErr result (standing_of vars.new.bound monitor.new ≡ standing_of vars.old.bound monitor.old) }
    ensures forgotten { monitor.new.forgotten ≡ monitor.old.forgotten }
{
    if has_variable(line) {
        return Ok(refuse_variable(names, vars, line));
    }
    let script = Script { names, session };
    script.answer(vars, monitor, line)
}

/// Asks the line of a script, by whom it asks for.
///
/// # Errors
/// `AllocError` where an allocation failed. The variables and the monitor are then as they were.
pub(crate) fn ask_for(
    who: Who,
    names: &Names,
    vars: &mut Vars,
    monitor: &mut Monitor,
    line: &[u8],
) -> Result<Answer, AllocError>
    ensures answer { let before = standing_of vars.old.bound monitor.old in
        IfOk result (λ a. a ≡ said_to before (said_for names.now before.vars who line.now)) }
    ensures stands { let before = standing_of vars.old.bound monitor.old in
        OnOk result (standing_of vars.new.bound monitor.new
        ≡ left_for before who (said_for names.now before.vars who line.now)) }
    ensures err { OnErr result (standing_of vars.new.bound monitor.new ≡ standing_of vars.old.bound monitor.old) }
    ensures forgotten { monitor.new.forgotten ≡ monitor.old.forgotten }
{
    match who {
        Who::Script(session) => {
            let script = Script { names, session };
            script.answer(vars, monitor, line)
        }
        Who::Nobody => Ok(Answer::Fault(LineFault::BadForm)),
        Who::Session(session) => ask_session(names, session, vars, monitor, line),
        Who::Trial(_) => Ok(try_line(names, vars, monitor, line)),
    }
}
