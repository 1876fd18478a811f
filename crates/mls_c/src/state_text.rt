//! The text of an open monitor's state.
ghost use Rattle.std.specs.Prelude.{◌≡◌, ◌≢◌, ◌⊎◌, length, Some};
ghost use Rattle.mls_c.specs.StateText.{text_of_state, text_of};
ghost use Rattle.mls_c.specs.Texts.{StatusOfText, TextStatus, LiesIn, HasLength};
ghost use Rattle.mls_c.specs.declared.status.TheConstants.{OK, ERANGE, ECLOSED as CLOSED};

use crate::handle::Mls;
use crate::opened::Opened;
use crate::status::{ECLOSED, ENOMEM};
use crate::text::copy_text;
use mls_snapshots::state_text;
use std::alloc::Global;

/// Copies out the text of an open monitor's state.
fn copy_state(opened: &Opened, alloc: Global, buffer: &mut [u8], len: &mut usize) -> i32
    ensures status { TextStatus (text_of_state opened.now) (length buffer.old) result }
    ensures copied { result ≡ OK → LiesIn (Some (text_of_state opened.now)) buffer.old buffer.new }
    ensures short { result ≢ OK → buffer.new ≡ buffer.old }
    ensures told { (result ≡ OK) ⊎ (result ≡ ERANGE) → HasLength (Some (text_of_state opened.now)) len.new }
    ensures silent { result ≢ OK → result ≢ ERANGE → len.new ≡ len.old }
{
    match state_text(alloc, opened.names(), opened.state()) {
        Ok(text) => copy_text(text.as_bytes(), buffer, len),
        Err(_) => ENOMEM,
    }
}

/// Copies out the text of the present state, with which a handle can go on, and tells its length; the length is told
/// where the buffer is too short, too. Nothing changes.
#[unsafe(no_mangle)]
pub extern "C" fn mls_state_text_bytes(
    m: &mut Mls,
    alloc: Global,
    buffer: &mut [u8],
    len: &mut usize,
) -> i32
    ensures status { StatusOfText CLOSED (text_of m.old.monitor.value) (length buffer.old) result }
    ensures copied { result ≡ OK → LiesIn (text_of m.old.monitor.value) buffer.old buffer.new }
    ensures short { result ≢ OK → buffer.new ≡ buffer.old }
    ensures told { (result ≡ OK) ⊎ (result ≡ ERANGE) → HasLength (text_of m.old.monitor.value) len.new }
    ensures silent { result ≢ OK → result ≢ ERANGE → len.new ≡ len.old }
    ensures same { m.new.monitor.value ≡ m.old.monitor.value }
{
    if m.held == 0 {
        return ECLOSED;
    }
    let opened = m.monitor.lend();
    copy_state(opened, alloc, buffer, len)
}
