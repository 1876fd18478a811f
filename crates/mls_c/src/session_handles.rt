//! What the handles of an office's sessions hold, one after the other.
ghost use Rattle.std.specs.Prelude.{◌≡◌};
ghost use Rattle.mls_c.specs.SessionHandles.{are_closed, are_numbered, are_open, handles_of};

use crate::session_handle::MlsSession;

/// Whether no handle is open.
pub(crate) fn are_closed(sessions: &[MlsSession]) -> bool
    ensures { result ≡ are_closed (handles_of sessions.now) }
{
    for n in 0..sessions.len() {
        let session = &sessions[n];
        if session.held != 0 {
            return false;
        }
    }
    true
}

/// Whether each handle is open.
pub(crate) fn are_open(sessions: &[MlsSession]) -> bool
    ensures { result ≡ are_open (handles_of sessions.now) }
{
    for n in 0..sessions.len() {
        let session = &sessions[n];
        if session.held == 0 {
            return false;
        }
    }
    true
}

/// Whether the handles have the serial of an office, and the numbers of its sessions, in order. It looks at no handle
/// after one that hasn't.
pub(crate) fn are_numbered(sessions: &[MlsSession], serial: u64, count: u16) -> bool
    ensures { result ≡ are_numbered serial count 0 (handles_of sessions.now) }
{
    for n in 0..sessions.len() {
        let session = &sessions[n];
        if session.serial != serial || session.number as usize != n {
            return false;
        }
    }
    sessions.len() == count as usize
}
