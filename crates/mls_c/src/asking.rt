//! Asking an open monitor: checks, requests, and what would be replied.
ghost use Rattle.std.specs.Prelude.{◌≡◌, ◌≢◌, ◌<◌, Some};
ghost use Rattle.mls_rules.specs.Rules.{reply as replied};
ghost use Rattle.mls_c.specs.Answers.{held_number, SubmitStatus, decide_status, Answers, WouldAnswer};
ghost use Rattle.mls_c.specs.Opened.{state_of};
ghost use Rattle.mls_c.specs.Requests.{mode_at, request_of};
ghost use Rattle.mls_c.specs.declared.status.TheConstants.{OK};

use crate::answer::Answer;
use crate::deciding::{decide_get, decide_in, decide_release};
use crate::handle::Mls;
use crate::opened::Opened;
use crate::request::{RequestNumbers, mode_at};
use crate::status::{ECLOSED, EINVAL, ENOMEM, OK};
use mls_requests::{Action, Reply, Request};
use mls_tables::{Mode, ObjectId, SubjectId};

/// Whether a subject holds an access to an object in a mode now: 1 or 0. It is 0 too where the handle is closed and
/// where the mode is none. It adds no entry and doesn't allocate.
#[unsafe(no_mangle)]
pub extern "C" fn mls_check(m: &mut Mls, subject: u16, object: u16, mode: u8) -> i32
    ensures held { result ≡ held_number m.old.monitor.value subject object (mode_at mode) }
    ensures same { m.new.monitor.value ≡ m.old.monitor.value }
{
    let Some(mode) = mode_at(mode) else {
        return 0;
    };
    if m.held == 0 {
        return 0;
    }
    let opened = m.monitor.lend();
    let held = opened.check(SubjectId::new(subject), ObjectId::new(object), mode);
    if held { 1 } else { 0 }
}

/// Adds the entry of a request to which the rules reply so, and answers it.
fn add_answered(
    opened: &mut Opened,
    session: u32,
    request: Request,
    reply: Reply,
    answer: &mut Answer,
) -> i32
    requires { reply ≡ replied (state_of opened.old) request }
    ensures status { SubmitStatus (Some opened.old) (Some request) result }
    ensures answered { result ≡ OK
        → Answers (Some opened.old) session (Some request) (Some opened.new) answer.new }
    ensures same { result ≢ OK → opened.new ≡ opened.old }
    ensures silent { result ≢ OK → answer.new ≡ answer.old }
{
    let entry = opened.next_entry(session, request, reply);
    match opened.add(&entry) {
        Ok(()) => {
            *answer = Answer::of(entry.number, &entry.reply);
            OK
        }
        Err(_) => ENOMEM,
    }
}

/// Answers the get or the release of numbers.
fn submit_access(
    opened: &mut Opened,
    session: u32,
    asked: &RequestNumbers,
    answer: &mut Answer,
) -> i32
    requires { asked.now.action < 2 }
    ensures status { SubmitStatus (Some opened.old) (request_of asked.now) result }
    ensures answered { result ≡ OK
        → Answers (Some opened.old) session (request_of asked.now) (Some opened.new) answer.new }
    ensures same { result ≢ OK → opened.new ≡ opened.old }
    ensures silent { result ≢ OK → answer.new ≡ answer.old }
{
    let Some(mode) = mode_at(asked.mode) else {
        return EINVAL;
    };
    let subject = SubjectId::new(asked.subject);
    let object = ObjectId::new(asked.object);
    if asked.action == 0 {
        let reply = decide_get(opened.state(), subject, object, mode);
        let action = Action::Get(mode, object);
        return add_answered(opened, session, Request { subject, action }, reply, answer);
    }
    let reply = decide_release(opened.state(), subject, object, mode);
    let action = Action::Release(mode, object);
    add_answered(opened, session, Request { subject, action }, reply, answer)
}

/// Answers the request of numbers. It isn't put where it is called, so that gets and releases pay nothing for the
/// others.
#[inline(never)]
fn submit_request(
    opened: &mut Opened,
    session: u32,
    asked: &RequestNumbers,
    answer: &mut Answer,
) -> i32
    ensures status { SubmitStatus (Some opened.old) (request_of asked.now) result }
    ensures answered { result ≡ OK
        → Answers (Some opened.old) session (request_of asked.now) (Some opened.new) answer.new }
    ensures same { result ≢ OK → opened.new ≡ opened.old }
    ensures silent { result ≢ OK → answer.new ≡ answer.old }
{
    let Some(request) = asked.request() else {
        return EINVAL;
    };
    let reply = opened.decide(&request);
    add_answered(opened, session, request, reply, answer)
}

/// Answers the request of numbers.
fn submit_numbers(
    opened: &mut Opened,
    session: u32,
    asked: &RequestNumbers,
    answer: &mut Answer,
) -> i32
    ensures status { SubmitStatus (Some opened.old) (request_of asked.now) result }
    ensures answered { result ≡ OK
        → Answers (Some opened.old) session (request_of asked.now) (Some opened.new) answer.new }
    ensures same { result ≢ OK → opened.new ≡ opened.old }
    ensures silent { result ≢ OK → answer.new ≡ answer.old }
{
    if asked.action < 2 {
        return submit_access(opened, session, asked, answer);
    }
    submit_request(opened, session, asked, answer)
}

/// Answers a request by the rules, changes the state as they say, and adds just its entry to the journal.
#[unsafe(no_mangle)]
pub extern "C" fn mls_submit(
    m: &mut Mls,
    session: u32,
    asked: &RequestNumbers,
    answer: &mut Answer,
) -> i32
    ensures status { SubmitStatus m.old.monitor.value (request_of asked.now) result }
    ensures answered { result ≡ OK
        → Answers m.old.monitor.value session (request_of asked.now) m.new.monitor.value answer.new }
    ensures same { result ≢ OK → m.new.monitor.value ≡ m.old.monitor.value }
    ensures silent { result ≢ OK → answer.new ≡ answer.old }
{
    if m.held == 0 {
        return ECLOSED;
    }
    submit_numbers(m.monitor.lend(), session, asked, answer)
}

/// Decides the get of numbers in their mode. Where the mode is known when this is compiled, nothing is asked of it when
/// it runs.
#[inline(always)]
fn decide_get_in(opened: &Opened, asked: &RequestNumbers, mode: Mode, answer: &mut Answer) -> i32
    requires get { asked.now.action ≡ 0 }
    requires mode { mode_at asked.now.mode ≡ Some mode }
    ensures status { result ≡ decide_status (Some opened.now) (request_of asked.now) }
    ensures answered { result ≡ OK → WouldAnswer (Some opened.now) (request_of asked.now) answer.new }
    ensures silent { result ≢ OK → answer.new ≡ answer.old }
{
    let number = opened.entry_count();
    let subject = SubjectId::new(asked.subject);
    let object = ObjectId::new(asked.object);
    let reply = decide_in(opened.state(), subject, object, mode);
    *answer = Answer::of(number, &reply);
    OK
}

/// Decides the get of numbers to write. It isn't put where it is called: it compares labels both ways, for which it
/// needs more of the processor's registers than gets in other modes do.
#[inline(never)]
fn decide_write(opened: &Opened, asked: &RequestNumbers, answer: &mut Answer) -> i32
    requires get { asked.now.action ≡ 0 }
    requires mode { asked.now.mode ≡ 3 }
    ensures status { result ≡ decide_status (Some opened.now) (request_of asked.now) }
    ensures answered { result ≡ OK → WouldAnswer (Some opened.now) (request_of asked.now) answer.new }
    ensures silent { result ≢ OK → answer.new ≡ answer.old }
{
    decide_get_in(opened, asked, Mode::Write, answer)
}

/// Decides the get of numbers.
fn decide_get_numbers(opened: &Opened, asked: &RequestNumbers, answer: &mut Answer) -> i32
    requires { asked.now.action ≡ 0 }
    ensures status { result ≡ decide_status (Some opened.now) (request_of asked.now) }
    ensures answered { result ≡ OK → WouldAnswer (Some opened.now) (request_of asked.now) answer.new }
    ensures silent { result ≢ OK → answer.new ≡ answer.old }
{
    match asked.mode {
        0 => decide_get_in(opened, asked, Mode::Execute, answer),
        1 => decide_get_in(opened, asked, Mode::Read, answer),
        2 => decide_get_in(opened, asked, Mode::Append, answer),
        3 => decide_write(opened, asked, answer),
        _ => EINVAL,
    }
}

/// Decides the request of numbers. It isn't put where it is called, so that a get pays nothing for the others.
#[inline(never)]
fn decide_request(opened: &Opened, asked: &RequestNumbers, answer: &mut Answer) -> i32
    ensures status { result ≡ decide_status (Some opened.now) (request_of asked.now) }
    ensures answered { result ≡ OK → WouldAnswer (Some opened.now) (request_of asked.now) answer.new }
    ensures silent { result ≢ OK → answer.new ≡ answer.old }
{
    let Some(request) = asked.request() else {
        return EINVAL;
    };
    let number = opened.entry_count();
    let reply = opened.decide(&request);
    *answer = Answer::of(number, &reply);
    OK
}

/// Decides the request of numbers.
fn decide_numbers(opened: &Opened, asked: &RequestNumbers, answer: &mut Answer) -> i32
    ensures status { result ≡ decide_status (Some opened.now) (request_of asked.now) }
    ensures answered { result ≡ OK → WouldAnswer (Some opened.now) (request_of asked.now) answer.new }
    ensures silent { result ≢ OK → answer.new ≡ answer.old }
{
    if asked.action == 0 {
        return decide_get_numbers(opened, asked, answer);
    }
    decide_request(opened, asked, answer)
}

/// What would be replied to a request now, with the number that its entry would have. Nothing changes, and it doesn't
/// allocate.
#[unsafe(no_mangle)]
pub extern "C" fn mls_decide(m: &mut Mls, asked: &RequestNumbers, answer: &mut Answer) -> i32
    ensures status { result ≡ decide_status m.old.monitor.value (request_of asked.now) }
    ensures answered { result ≡ OK → WouldAnswer m.old.monitor.value (request_of asked.now) answer.new }
    ensures same { m.new.monitor.value ≡ m.old.monitor.value }
    ensures silent { result ≢ OK → answer.new ≡ answer.old }
{
    if m.held == 0 {
        return ECLOSED;
    }
    let opened = m.monitor.lend();
    decide_numbers(opened, asked, answer)
}
