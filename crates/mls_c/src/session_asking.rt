//! Asking through a session of an office: checks, requests, and what would be replied.
ghost use Rattle.std.specs.Prelude.{◌≡◌, ◌≢◌, ℕ, Some, pos};
ghost use Rattle.mls_c.specs.Seen.{Reaches};
ghost use Rattle.mls_c.specs.Requests.{mode_at, request_of};
ghost use Rattle.mls_c.specs.Offices.{CheckStatus, DecideStatus, SessionStatus, IsAlone, Checks, Decides, MakesEntry};
ghost use Rattle.mls_c.specs.SessionHandles.{KeepsSeat};
ghost use Rattle.mls_c.specs.declared.status.TheConstants.{OK, EBUSY};

use crate::answer::Answer;
use crate::place::Place;
use crate::request::{RequestNumbers, mode_at};
use crate::session_handle::MlsSession;
use crate::status::{EBUSY, ECLOSED, EINVAL, ENOMEM, OK};
use mls_sessions::TryFault;
use mls_tables::{Mode, ObjectId, SubjectId};

/// Checks whether an access is held.
fn check_place(place: &mut Place, s: SubjectId, o: ObjectId, x: Mode, held: &mut i32) -> i32
    ensures status { CheckStatus (Some place.old) (Some x) result }
    ensures told { result ≡ OK → Checks (Some place.old) s o (Some x) (Some place.new) held.new }
    ensures since { (n : ℕ) → Reaches n (Some place.old) → Reaches n (Some place.new) }
    ensures same { result ≢ OK → place.new ≡ place.old }
    ensures silent { result ≢ OK → held.new ≡ held.old }
    ensures alone { IsAlone (Some place.old) → result ≢ EBUSY }
{
    match place.check(s, o, x) {
        Ok(is_held) => {
            *held = if is_held { 1 } else { 0 };
            OK
        }
        Err(_) => EBUSY,
    }
}

/// Whether a subject holds an access to an object in a mode now: it tells 1 or 0, and 0 also where it has no answer. It
/// takes no lock where a word tells of the access; else it tries the lock once. It adds no entry and doesn't allocate.
#[unsafe(no_mangle)]
pub extern "C" fn mls_session_check(
    s: &mut MlsSession,
    subject: u16,
    object: u16,
    mode: u8,
    held: &mut i32,
) -> i32
    ensures status { CheckStatus s.old.place.value (mode_at mode) result }
    ensures told { result ≡ OK → Checks s.old.place.value subject object (mode_at mode) s.new.place.value held.new }
    ensures since { (n : ℕ) → Reaches n s.old.place.value → Reaches n s.new.place.value }
    ensures same { result ≢ OK → s.new.place.value ≡ s.old.place.value }
    ensures silent { result ≢ OK → held.new ≡ pos 0 }
    ensures alone { IsAlone s.old.place.value → result ≢ EBUSY }
    ensures seat { KeepsSeat s.old s.new }
{
    *held = 0;
    if s.held == 0 {
        return ECLOSED;
    }
    let Some(mode) = mode_at(mode) else {
        return EINVAL;
    };
    check_place(
        s.place.lend(),
        SubjectId::new(subject),
        ObjectId::new(object),
        mode,
        held,
    )
}

/// Decides the request of numbers.
fn decide_place(place: &mut Place, asked: &RequestNumbers, answer: &mut Answer) -> i32
    ensures status { DecideStatus (Some place.old) (request_of asked.now) result }
    ensures answered { result ≡ OK → Decides (Some place.old) (request_of asked.now) (Some place.new) answer.new }
    ensures since { (n : ℕ) → Reaches n (Some place.old) → Reaches n (Some place.new) }
    ensures same { result ≢ OK → place.new ≡ place.old }
    ensures silent { result ≢ OK → answer.new ≡ answer.old }
    ensures alone { IsAlone (Some place.old) → result ≢ EBUSY }
{
    let Some(request) = asked.request() else {
        return EINVAL;
    };
    match place.decide(&request) {
        Ok(decision) => {
            *answer = Answer::of(decision.number, &decision.reply);
            OK
        }
        Err(_) => EBUSY,
    }
}

/// What would be replied to a request now, with the number that its entry would have. It tries the lock once. Nothing
/// changes, and it doesn't allocate.
#[unsafe(no_mangle)]
pub extern "C" fn mls_session_decide(
    s: &mut MlsSession,
    asked: &RequestNumbers,
    answer: &mut Answer,
) -> i32
    ensures status { DecideStatus s.old.place.value (request_of asked.now) result }
    ensures answered { result ≡ OK
        → Decides s.old.place.value (request_of asked.now) s.new.place.value answer.new }
    ensures since { (n : ℕ) → Reaches n s.old.place.value → Reaches n s.new.place.value }
    ensures same { result ≢ OK → s.new.place.value ≡ s.old.place.value }
    ensures silent { result ≢ OK → answer.new ≡ answer.old }
    ensures alone { IsAlone s.old.place.value → result ≢ EBUSY }
    ensures seat { KeepsSeat s.old s.new }
{
    if s.held == 0 {
        return ECLOSED;
    }
    decide_place(s.place.lend(), asked, answer)
}

/// Answers the request of numbers.
#[tactic(auto, using(crate::proofs::Offices::makes_entry))]
fn submit_place(place: &mut Place, asked: &RequestNumbers, answer: &mut Answer) -> i32
    ensures status { SessionStatus (Some place.old) (request_of asked.now) result }
    ensures answered { result ≡ OK
        → MakesEntry (Some place.old) (request_of asked.now) (Some place.new) answer.new }
    ensures since { (n : ℕ) → Reaches n (Some place.old) → Reaches n (Some place.new) }
    ensures same { result ≢ OK → place.new ≡ place.old }
    ensures silent { result ≢ OK → answer.new ≡ answer.old }
    ensures alone { IsAlone (Some place.old) → result ≢ EBUSY }
{
    let Some(request) = asked.request() else {
        return EINVAL;
    };
    match place.submit(request) {
        Ok(entry) => {
            *answer = Answer::of(entry.number, &entry.reply);
            OK
        }
        Err(TryFault::Busy) => EBUSY,
        Err(TryFault::Memory) => ENOMEM,
    }
}

/// Answers a request by the rules, changes the state as they say, and adds just its entry to the one journal, with the
/// session's number. It tries the lock once.
#[unsafe(no_mangle)]
pub extern "C" fn mls_session_submit(
    s: &mut MlsSession,
    asked: &RequestNumbers,
    answer: &mut Answer,
) -> i32
    ensures status { SessionStatus s.old.place.value (request_of asked.now) result }
    ensures answered { result ≡ OK
        → MakesEntry s.old.place.value (request_of asked.now) s.new.place.value answer.new }
    ensures since { (n : ℕ) → Reaches n s.old.place.value → Reaches n s.new.place.value }
    ensures same { result ≢ OK → s.new.place.value ≡ s.old.place.value }
    ensures silent { result ≢ OK → answer.new ≡ answer.old }
    ensures alone { IsAlone s.old.place.value → result ≢ EBUSY }
    ensures seat { KeepsSeat s.old s.new }
{
    if s.held == 0 {
        return ECLOSED;
    }
    submit_place(s.place.lend(), asked, answer)
}
