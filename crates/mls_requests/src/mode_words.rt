//! The words of modes.
ghost use Rattle.std.specs.Prelude.{◌≡◌};
ghost use Rattle.std.specs.Str.{bytes_eq};
ghost use Rattle.mls_requests.specs.ModeWords.{mode_word, read_mode};

use mls_tables::Mode;

/// All modes, in the order in which a word is looked for.
const MODES: [Mode; 4] = [Mode::Execute, Mode::Read, Mode::Append, Mode::Write];

/// The word of a mode.
pub fn mode_word(mode: Mode) -> &'static str
    ensures { result.now ≡ mode_word mode }
{
    match mode {
        Mode::Execute => "execute",
        Mode::Read => "read",
        Mode::Append => "append",
        Mode::Write => "write",
    }
}

/// Whether a word is this mode's.
fn is_word(mode: Mode, word: &[u8]) -> bool
    ensures { result ≡ bytes_eq word.now (mode_word mode) }
{
    word == mode_word(mode).as_bytes()
}

/// The mode that has this word, where one has it.
pub fn read_mode(word: &[u8]) -> Option<Mode>
    ensures { result ≡ read_mode word.now }
{
    MODES.iter().find(|mode| is_word(**mode, word)).copied()
}
