//! States that were kept, compared with those that a journal leads to.
ghost use Rattle.std.specs.Prelude.{◌≡◌, IsTrue, IfOk};
ghost use Rattle.mls_monitor.specs.Journal.{state_of};
ghost use Rattle.mls_snapshots.specs.States.{state_text};
ghost use Rattle.mls_seen.specs.Seeing.{StandsOn};

use crate::seeing::Seeing;
use mls_monitor::earlier_entries_take_their_places;
use mls_snapshots::{a_start_has_names, a_text_is_of_one_state, is_text_of};
use std::alloc::{AllocError, Global};

/// Whether bytes are the text of the state to which a journal has led. Then the journal may be cut there: whatever entries
/// stand before its own cut, they and the entries behind it stand before a cut at which these bytes were kept. So a
/// journal over files, from whose start on each kept state is compared, may be looked through from each of them.
///
/// # Errors
/// `AllocError` where an allocation failed.
pub fn is_kept_state(alloc: Global, seeing: &Seeing, bytes: &[u8]) -> Result<bool, AllocError>
    ensures text { IfOk result (λ is. IsTrue is →
        state_text seeing.now.opened.loaded.names (state_of seeing.now.monitor) ≡ bytes.now) }
    ensures stands { IfOk result (λ is. IsTrue is → StandsOn seeing.now bytes.now) }
{
    earlier_entries_take_their_places();
    a_start_has_names();
    let opened = seeing.opened();
    a_text_is_of_one_state(opened.loaded());
    let monitor = seeing.monitor();
    // that its journal is legal
    let _ = monitor.entries();
    is_text_of(
        alloc,
        opened.names(),
        opened.start(),
        monitor.state(),
        bytes,
    )
}
