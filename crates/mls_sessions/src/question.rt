//! Questions that a session puts to the monitor.
ghost use Rattle.std.specs.Prelude.{◌≡◌, length};
ghost use Rattle.mls_turns.specs.Journals.{journal_of};

use mls_monitor::Monitor;

/// A question to the monitor: it looks at it, and keeps what it finds. The gate is held while it looks, so it neither
/// waits nor asks a session.
///
/// What a kind of question makes of a journal, its ghost member `finds` says. By it
/// [`ask_quietly`](crate::Session::ask_quietly) tells what was found.
pub trait Question {
    ghost use Rattle.mls_turns.specs.Journals.{Journal};

    ghost finds: { Self → Journal → Self → Type 0 };

    /// Looks at the monitor.
    fn look(&mut self, monitor: &Monitor)
        ensures { finds self.old (journal_of monitor.now) self.new };
}

/// How many entries the journal has.
#[derive(Clone, Copy)]
pub(crate) struct Length {
    pub entries: u64,
}

impl Question for Length {
    ghost use Rattle.std.specs.Prelude.{◌≡◌, length};

    ghost finds = { λ old j new. new.entries ≡ length j.entries };

    fn look(&mut self, monitor: &Monitor) {
        self.entries = monitor.next_number();
    }
}
