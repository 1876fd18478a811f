//! Why the monitor of a session's office would answer a request as it would.
ghost use Rattle.std.specs.Prelude.{◌≡◌, ◌≢◌, ◌⊎◌, ◌++◌, length, map, drop, nat_lt, vec_len, Some, if◌then◌else◌};
ghost use Rattle.mls_c.specs.Conditions.{numbers_of_condition, numbers_of_remedy};
ghost use Rattle.mls_c.specs.Seen.{ExplainLook, InSeen, ExplainsAt, CountsAt};
ghost use Rattle.mls_c.specs.Requests.{request_of};
ghost use Rattle.mls_c.specs.SessionHandles.{KeepsSeat};
ghost use Rattle.mls_c.specs.declared.status.TheConstants.{OK, ERANGE};

use crate::condition_numbers::ConditionNumbers;
use crate::explaining::{RemedyNumbers, conditions_of, put_rows, remedy_of};
use crate::place::Place;
use crate::request::RequestNumbers;
use crate::session_handle::MlsSession;
use crate::status::{EBUSY, ECLOSED, EINVAL, ENOMEM, ENOTFOUND, ERANGE, OK};
use mls_explain::Condition;
use mls_labels::SecLabel;
use mls_monitor::Monitor;
use mls_requests::Request;
use mls_sessions::Question;
use std::alloc::Global;

/// A request that is asked about, and its conditions and its remedy where all that it names is there.
#[derive(Drop)]
struct RequestAsked {
    alloc: Global,
    request: Request,
    all: Vec<Condition>,
    level: Option<SecLabel>,
    status: i32,
}

impl Question for RequestAsked {
    ghost use Rattle.mls_c.specs.Seen.{Explained, state_at};

    ghost finds = { λ old j new. Explained (state_at j) old.request new.all.items new.level new.status };

    fn look(&mut self, monitor: &Monitor) {
        let state = monitor.state();
        self.status = match conditions_of(self.alloc, state, &self.request) {
            Ok(Some(all)) => {
                self.all = all;
                self.level = remedy_of(state, &self.request);
                OK
            }
            Ok(None) => ENOTFOUND,
            Err(_) => ENOMEM,
        };
    }
}

/// Tells the conditions and the remedy that were found, if any.
fn tell_found(
    asked: &RequestAsked,
    rows: &mut [ConditionNumbers],
    count: &mut usize,
    level: &mut RemedyNumbers,
) -> i32
    ensures ok { asked.now.status ≡ OK
        → result ≡ (if nat_lt (length rows.old) (vec_len asked.now.all) then ERANGE else OK) }
    ensures other { asked.now.status ≢ OK → result ≡ asked.now.status }
    ensures rows { result ≡ OK → rows.new ≡ map numbers_of_condition asked.now.all.items
        ++ drop (vec_len asked.now.all) rows.old }
    ensures short { result ≢ OK → rows.new ≡ rows.old }
    ensures told { asked.now.status ≡ OK → count.new ≡ vec_len asked.now.all }
    ensures untold { asked.now.status ≢ OK → count.new ≡ count.old }
    ensures remedy { result ≡ OK → level.new ≡ numbers_of_remedy asked.now.level }
    ensures silent { result ≢ OK → level.new ≡ level.old }
{
    if asked.status != OK {
        return asked.status;
    }
    *count = asked.all.len();
    if rows.len() < asked.all.len() {
        return ERANGE;
    }
    put_rows(&asked.all, rows);
    *level = RemedyNumbers::of(asked.level);
    OK
}

/// Explains the request of numbers.
fn explain_place(
    place: &mut Place,
    alloc: Global,
    asked: &RequestNumbers,
    rows: &mut [ConditionNumbers],
    count: &mut usize,
    level: &mut RemedyNumbers,
) -> i32
    ensures status { ExplainLook (Some place.old) (request_of asked.now) (length rows.old) (Some place.new) result }
    ensures explained { result ≡ OK → InSeen (Some place.new)
        (ExplainsAt (request_of asked.now) rows.old rows.new count.new level.new) }
    ensures short { result ≢ OK → rows.new ≡ rows.old }
    ensures told { (result ≡ OK) ⊎ (result ≡ ERANGE)
        → InSeen (Some place.new) (CountsAt (request_of asked.now) count.new) }
    ensures silent { result ≢ OK → result ≢ ERANGE → count.new ≡ count.old }
    ensures remedy { result ≢ OK → level.new ≡ level.old }
{
    let Some(request) = asked.request() else {
        return EINVAL;
    };
    let mut asked = RequestAsked {
        alloc,
        request,
        all: Vec::new(alloc),
        level: None,
        status: OK,
    };
    match place.ask(&mut asked) {
        Ok(()) => tell_found(&asked, rows, count, level),
        Err(_) => EBUSY,
    }
}

/// As [`mls_explain_rows`](crate::mls_explain_rows), in the state that the session sees. It tries the lock once.
#[unsafe(no_mangle)]
pub extern "C" fn mls_session_explain_rows(
    s: &mut MlsSession,
    alloc: Global,
    asked: &RequestNumbers,
    rows: &mut [ConditionNumbers],
    count: &mut usize,
    level: &mut RemedyNumbers,
) -> i32
    ensures status { ExplainLook s.old.place.value (request_of asked.now) (length rows.old) s.new.place.value result }
    ensures explained { result ≡ OK → InSeen s.new.place.value
        (ExplainsAt (request_of asked.now) rows.old rows.new count.new level.new) }
    ensures short { result ≢ OK → rows.new ≡ rows.old }
    ensures told { (result ≡ OK) ⊎ (result ≡ ERANGE)
        → InSeen s.new.place.value (CountsAt (request_of asked.now) count.new) }
    ensures silent { result ≢ OK → result ≢ ERANGE → count.new ≡ count.old }
    ensures remedy { result ≢ OK → level.new ≡ level.old }
    ensures seat { KeepsSeat s.old s.new }
{
    if s.held == 0 {
        return ECLOSED;
    }
    explain_place(s.place.lend(), alloc, asked, rows, count, level)
}
