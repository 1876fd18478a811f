//! What holds of all texts of states. The functions do nothing: each is a law, which its contract states.
ghost use Rattle.std.specs.Prelude.{◌≡◌, ℕ, List};
ghost use Rattle.mls_start_file.specs.Says.{SaysStart};
ghost use Rattle.mls_start_file.specs.Ties.{Loaded as LoadedView};
ghost use Rattle.mls_state.specs.State.{State};
ghost use Rattle.mls_wording.specs.ReadBack.{HasNames};
ghost use Rattle.mls_snapshots.specs.Reading.{IsOver};
ghost use Rattle.mls_snapshots.specs.States.{state_text};

use mls_labels::{a_text_has_one_meaning, a_written_label_is_spelled};
use mls_requests::modes_have_their_words;
use mls_start_file::Loaded;

/// The names of a start file are NAMEs, and no subject and no object has another's.
pub fn a_start_has_names()
    ensures { (bytes : List ℕ) (loaded : LoadedView) → SaysStart bytes loaded → HasNames loaded.names }
{}

/// Over one start, a text is that of one state at most: what is written of a state determines it.
pub fn a_text_is_of_one_state(loaded: &Loaded)
    ensures { (v w : State) → HasNames loaded.now.names → IsOver loaded.now.start v → IsOver loaded.now.start w
        → state_text loaded.now.names v ≡ state_text loaded.now.names w → v ≡ w }
{
    // both schemes are sound, as their bounds tell
    let names = loaded.names();
    let _ = names.security().bounds();
    let _ = names.integrity().bounds();
    a_text_has_one_meaning();
    a_written_label_is_spelled();
    modes_have_their_words();
}
