//! Calls of a session that doesn't wait, while nobody else is at the gate.
ghost use Rattle.std.specs.Prelude.{◌≡◌, false};
ghost use Rattle.mls_sessions.specs.Sessions.{IsOf};

use super::standard::{ANN, PLANS, get};
use mls_requests::Reply;
use mls_sessions::{Office, Session};
use mls_tables::Mode;

/// Whether a session is told that the access is held in this mode, where it is told: nobody else asks beside.
pub fn held(office: &Office, session: &mut Session, mode: Mode) -> Option<bool>
    requires { IsOf office.now session.old }
    ensures { IsOf office.now session.new }
{
    match session.try_check(office, ANN, PLANS, mode) {
        Ok(held) => Some(held),
        Err(_) => None,
    }
}

/// Asks for read access, which nobody else does beside: whether that made entry `number` of session `made_by`, and was
/// granted.
pub fn is_let_read(office: &Office, session: &mut Session, number: u64, made_by: u32) -> bool
    requires { IsOf office.now session.old }
    ensures { IsOf office.now session.new }
{
    match session.try_submit(office, get(ANN, Mode::Read, PLANS)) {
        Ok(entry) => {
            entry.number == number && entry.session == made_by && entry.reply == Reply::Yes
        }
        Err(_) => false,
    }
}

/// Has the first entry of all forgotten, and returns whether that was done: nobody else asks beside.
pub fn forgets_first(office: &Office, session: &mut Session) -> bool
    requires { IsOf office.now session.old × (office.now.charter.lasts ≡ false) }
    ensures { IsOf office.now session.new }
{
    session.try_forget(office, 1).is_ok()
}
