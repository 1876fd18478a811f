//! The modes that a question asks for.
ghost use Rattle.std.specs.Prelude.{◌≡◌};
ghost use Rattle.mls_explain_text.specs.Files.{modes_asked};

use mls_tables::{Mode, Modes};

/// The modes that are asked for: one, or all.
pub fn modes_asked(mode: Option<Mode>) -> Modes
    ensures { result ≡ modes_asked mode }
{
    match mode {
        Some(x) => Modes::empty().with(x),
        None => Modes::empty()
            .with(Mode::Execute)
            .with(Mode::Read)
            .with(Mode::Append)
            .with(Mode::Write),
    }
}
