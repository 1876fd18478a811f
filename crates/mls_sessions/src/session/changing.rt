//! How a session asks what has changed, with no lock.
ghost use Rattle.std.specs.Prelude.{◌≡◌, ◌≤◌};
ghost use Rattle.mls_monitor.specs.Journal.{fold};
ghost use Rattle.mls_sessions.specs.Rule.{begun};
ghost use Rattle.mls_sessions.specs.Changes.{Keeps};
ghost use Rattle.mls_sessions.specs.Sessions.{IsOf, Sees, NoShorter, changes_seen, history, number_of};

use crate::gate::tally;
use crate::office::Office;
use crate::session::Session;

impl Session {
    /// Sees the present journal, and returns how many changes it has since the office was opened: entries whose request
    /// was granted, and which took an access or a permission away, or changed a label. It reads one word, and never
    /// waits.
    ///
    /// Each change is in the count before its submit returns. While the count is as before, each access that was current
    /// is so still, each permission stands, and each subject has its current label.
    #[tactic(auto, using(crate::proofs::Recency::seen_since))]
    pub fn changes(&mut self, office: &Office) -> u64
        requires { IsOf office.now self.old }
        ensures office { IsOf office.now self.new }
        ensures number { number_of self.new.view ≡ number_of self.old.view }
        ensures seen { Sees office.now.charter self.old.view self.new.view }
        ensures since { NoShorter self.old.view self.new.view }
        ensures changes { result ≡ changes_seen self.new.view }
        ensures rises { changes_seen self.old.view ≤ result }
        ensures keeps { result ≡ changes_seen self.old.view
            → Keeps (fold (begun office.now.charter) (history self.old.view))
            (fold (begun office.now.charter) (history self.new.view)) }
    {
        tally(&office.table.shared, &mut self.seat)
    }
}
