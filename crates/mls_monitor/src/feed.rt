//! Feeds: what the thread of a session asks for, and is told.
ghost use Rattle.std.specs.Prelude.{◌≡◌, ◌<◌, ◌≤◌, ◌+◌, ℕ, IfSome, IfNone};

use mls_requests::{Ask, Entry};

/// The answer to an ask.
#[derive(Clone, Copy, Debug, PartialEq, Eq)]
pub enum Answer {
    /// The entry that a request made.
    Entry(Entry),
    /// Whether the access is held.
    Held(bool),
}

/// Where a feed stands.
#[derive(Clone, Copy, Debug, PartialEq, Eq)]
pub enum Stage {
    /// It can be asked for what comes next.
    Ready,
    /// It waits for the answer to what it gave, or for several.
    Waiting,
    /// Nothing comes any more.
    Done,
}

/// What the thread of a session asks for, one after the other. The gate isn't held during any call of a feed.
///
/// What a kind of feed gives, and what it makes of an answer or of being stopped, its ghost members `gives`,
/// `gives_ahead`, `hears` and `stops` say: by these `run_sessions` of mls_sessions tells which answers its feeds were
/// told. Of a kind that leaves them out a run tells only that its feeds are done. A kind that gives asks ahead says in
/// `waits_for` how many answers it waits for.
pub trait Feed {
    ghost use Rattle.std.specs.Prelude.{Option, ⊤};
    ghost use Rattle.mls_requests.specs.declared.ask.Ask.{Ask};
    ghost use Rattle.mls_monitor.specs.declared.feed.Answer.{Answer};
    ghost use Rattle.mls_monitor.specs.declared.feed.Stage.{Stage};

    ghost asks_left: { Self → ℕ };

    ghost stands_at: { Self → Stage };

    ghost waits_for: { Self → ℕ } = { λ _. 1 };

    ghost gives: { Self → Option Ask → Self → Type 0 } = { λ _ _ _. ⊤ };

    ghost gives_ahead: { Self → Ask → Self → Type 0 } = { λ _ _ _. ⊤ };

    ghost hears: { Self → Answer → Self → Type 0 } = { λ _ _ _. ⊤ };

    ghost stops: { Self → Self → Type 0 } = { λ _ _. ⊤ };

    /// A bound on the asks that still come.
    fn left(&self) -> u64
        ensures { result ≡ asks_left self.now };

    /// Where the feed stands.
    fn stage(&self) -> Stage
        ensures { result ≡ stands_at self.now };

    /// What comes next, or nothing any more. It is called where the feed is ready.
    fn next(&mut self) -> Option<Ask>
        requires { stands_at self.old ≡ Stage.Ready }
        ensures some { IfSome result
            (λ _. (asks_left self.new < asks_left self.old) × (stands_at self.new ≡ Stage.Waiting)
            × (waits_for self.new ≡ 1)) }
        ensures none { IfNone result ((asks_left self.new ≤ asks_left self.old) × (stands_at self.new ≡ Stage.Done)) }
        ensures given { gives self.old result self.new };

    /// What it asks besides, before it is told the answers to what it gave: all of that is then asked in one turn, one
    /// after the other, and answered in that order. A feed that needs an answer to know what it asks next gives nothing
    /// ahead, as here; then it stays as it was.
    fn ahead(&mut self) -> Option<Ask>
        requires { stands_at self.old ≡ Stage.Waiting }
        ensures some { IfSome result
            (λ ask. (asks_left self.new < asks_left self.old) × (stands_at self.new ≡ Stage.Waiting)
            × (waits_for self.new ≡ waits_for self.old + 1) × gives_ahead self.old ask self.new) }
        ensures none { IfNone result (self.new ≡ self.old) }
    {
        None
    }

    /// The answer to the first of what the feed gave and wasn't told yet.
    fn told(&mut self, answer: &Answer)
        requires { stands_at self.old ≡ Stage.Waiting }
        ensures left { asks_left self.new ≤ asks_left self.old }
        ensures ready { waits_for self.old ≤ 1 → stands_at self.new ≡ Stage.Ready }
        ensures waits { 1 < waits_for self.old → (stands_at self.new ≡ Stage.Waiting)
            × (waits_for self.new + 1 ≡ waits_for self.old) }
        ensures heard { hears self.old answer.now self.new };

    /// What the feed gave and wasn't told yet gets no answer, for want of memory, and nothing is asked any more.
    fn stopped(&mut self)
        requires { stands_at self.old ≡ Stage.Waiting }
        ensures left { asks_left self.new ≤ asks_left self.old }
        ensures waits { stands_at self.new ≡ Stage.Waiting }
        ensures stopped { stops self.old self.new };
}
