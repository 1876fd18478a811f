//! Where the gets of an object turn over a journal.
ghost use Rattle.std.specs.Prelude.{◌≡◌, ◌<◌, [], length, Some, IfOk, OnOk};
ghost use Rattle.mls_tables.specs.Triples.{Triple};
ghost use Rattle.mls_tables.specs.declared.limits.TheConstants.{MAX_SUBJECTS};
ghost use Rattle.mls_rules.specs.Rules.{after};
ghost use Rattle.mls_spans.specs.Windows.{would_grant as would_grant_in};
ghost use Rattle.mls_spans.specs.Turning.{AreTurns, kept, settled};

use crate::granting::differ;
use crate::reach::Reach;
use crate::turning::Turns;
use mls_requests::Entry;
use mls_rules::{State, apply};
use mls_tables::ObjectId;
use std::alloc::{AllocError, Global};

impl Turns {
    /// Goes on to the state after an entry, and to the turns up to it.
    fn follow(&mut self, state: &mut State, entry: &Entry) -> Result<(), AllocError>
        requires subjects { length self.old.modes.items ≡ MAX_SUBJECTS }
        requires granted { (t : Triple) → t.1 ≡ self.old.object → t.0 < MAX_SUBJECTS
            → (kept self.old t).0 ≡ would_grant_in state.old t }
        ensures state { OnOk result (state.new ≡ after state.old entry.now.request) }
        ensures object { OnOk result (self.new.object ≡ self.old.object) }
        ensures subjects { OnOk result (length self.new.modes.items ≡ MAX_SUBJECTS) }
        ensures each { OnOk result ((t : Triple) → t.1 ≡ self.old.object → t.0 < MAX_SUBJECTS
            → kept self.new t ≡ settled state.new (Some entry.now.number) t (kept self.old t)) }
    {
        let was_active = state.is_active(self.object);
        let answer = apply(state, &entry.request)?;
        let has_changed = differ(was_active, state.is_active(self.object));
        let reach = Reach::of(&entry.request, answer, has_changed, self.object);
        self.settle_reached(state, reach, Some(entry.number))?;
        Ok(())
    }

    /// Goes on to the states after entries, and to the turns up to them.
    fn follow_all(&mut self, state: &mut State, entries: &[Entry]) -> Result<(), AllocError>
        requires { AreTurns state.old [] self.old }
        ensures object { OnOk result (self.new.object ≡ self.old.object) }
        ensures turns { OnOk result (AreTurns state.old entries.now self.new) }
    {
        for entry in entries {
            self.follow(state, entry)?;
        }
        Ok(())
    }
}

/// Where the gets of an object turn over entries from a state.
pub(crate) fn turns_from(
    alloc: Global,
    state: &mut State,
    entries: &[Entry],
    object: ObjectId,
) -> Result<Turns, AllocError>
    ensures object { IfOk result (λ turns. turns.object ≡ object) }
    ensures turns { IfOk result (λ turns. AreTurns state.old entries.now turns) }
{
    let mut turns = Turns::new(alloc, object)?;
    turns.settle_all(state, None)?;
    turns.follow_all(state, entries)?;
    Ok(turns)
}
