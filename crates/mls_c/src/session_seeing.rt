//! That a session sees what others did: the entries up to a number, or what another session has seen.
ghost use Rattle.std.specs.Prelude.{◌≡◌, ◌≢◌, Some};
ghost use Rattle.mls_c.specs.Seen.{LookStatus, SeeStatus, Reaches, AreOfOneOffice, MeetsIn, meet_status};
ghost use Rattle.mls_c.specs.Seen.{CountsIn, changes_status, Done, ForgetsIn};
ghost use Rattle.mls_c.specs.SessionHandles.{KeepsSeat};
ghost use Rattle.mls_c.specs.declared.status.TheConstants.{OK};

use crate::place::Place;
use crate::session_handle::MlsSession;
use crate::status::{EAGAIN, EBUSY, ECLOSED, OK};

/// Sees the present journal.
fn see_place(place: &mut Place, n: u64) -> i32
    ensures status { LookStatus (Some place.old) (SeeStatus n) (Some place.new) result }
    ensures seen { result ≡ OK → Reaches n (Some place.new) }
{
    match place.see(n) {
        Ok(true) => OK,
        Ok(false) => EAGAIN,
        Err(_) => EBUSY,
    }
}

/// Sees the present journal, and says whether it has at least `n` entries: if so, what the session is told from then on
/// is all of journals of at least `n` entries. It tries the lock once. It adds no entry and doesn't allocate.
#[unsafe(no_mangle)]
pub extern "C" fn mls_session_see(s: &mut MlsSession, n: u64) -> i32
    ensures status { LookStatus s.old.place.value (SeeStatus n) s.new.place.value result }
    ensures seen { result ≡ OK → Reaches n s.new.place.value }
    ensures seat { KeepsSeat s.old s.new }
{
    if s.held == 0 {
        return ECLOSED;
    }
    see_place(s.place.lend(), n)
}

/// Has the entries with numbers below a number forgotten.
fn forget_through(place: &mut Place, n: u64) -> i32
    ensures status { LookStatus (Some place.old) Done (Some place.new) result }
    ensures forgets { result ≡ OK → ForgetsIn n (Some place.old) (Some place.new) }
{
    match place.forget(n) {
        Ok(()) => OK,
        Err(_) => EBUSY,
    }
}

/// Forgets the entries with numbers below `n`, as far as they are there: no session can read them any more. All else
/// stays: the state, and the numbers of entries that come. It tries the lock once, adds no entry, and can't fail for
/// want of memory.
#[unsafe(no_mangle)]
pub extern "C" fn mls_session_forget(s: &mut MlsSession, n: u64) -> i32
    ensures status { LookStatus s.old.place.value Done s.new.place.value result }
    ensures forgets { result ≡ OK → ForgetsIn n s.old.place.value s.new.place.value }
    ensures seat { KeepsSeat s.old s.new }
{
    if s.held == 0 {
        return ECLOSED;
    }
    forget_through(s.place.lend(), n)
}

/// Sees the present journal, and tells how many changes it has since the office was opened: granted requests that took
/// an access or a permission away, or changed a label. It reads one word, takes no lock, and doesn't allocate.
#[unsafe(no_mangle)]
pub extern "C" fn mls_session_changes(s: &mut MlsSession, count: &mut u64) -> i32
    ensures status { result ≡ changes_status s.old.place.value }
    ensures counts { result ≡ OK → CountsIn s.old.place.value count.new s.new.place.value }
    ensures same { result ≢ OK → s.new.place.value ≡ s.old.place.value }
    ensures silent { result ≢ OK → count.new ≡ count.old }
    ensures seat { KeepsSeat s.old s.new }
{
    if s.held == 0 {
        return ECLOSED;
    }
    let changes = s.place.lend().changes();
    *count = changes;
    OK
}

/// Gives the sessions of two handles the longer of their two histories. It takes no lock and doesn't allocate. The
/// caller has to know that they are of one office: c/mls.c compares what it noted when it handed them out.
#[unsafe(no_mangle)]
pub extern "C" fn mls_session_meet_other(s: &mut MlsSession, other: &mut MlsSession) -> i32
    requires { AreOfOneOffice s.old.place.value other.old.place.value }
    ensures status { result ≡ meet_status s.old.place.value other.old.place.value }
    ensures meets { result ≡ OK
        → MeetsIn s.old.place.value other.old.place.value s.new.place.value other.new.place.value }
    ensures same { result ≢ OK → s.new.place.value ≡ s.old.place.value }
    ensures other { result ≢ OK → other.new.place.value ≡ other.old.place.value }
    ensures seat { KeepsSeat s.old s.new }
    ensures other_seat { KeepsSeat other.old other.new }
{
    if s.held == 0 || other.held == 0 {
        return ECLOSED;
    }
    s.place.lend().meet(other.place.lend());
    OK
}
