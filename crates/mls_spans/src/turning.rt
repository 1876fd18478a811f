//! Where the gets of an object turned so far.
ghost use Rattle.std.specs.Prelude.{◌≡◌, ◌<◌, ◌==◌, ◌++◌, ◌∷◌, [], get_or, length, set as put, IfOk, OnOk};
ghost use Rattle.std.specs.Prelude.{false, true};
ghost use Rattle.std.specs.FinSet as set;
ghost use Rattle.mls_tables.specs.Triples.{Triple};
ghost use Rattle.mls_tables.specs.declared.limits.TheConstants.{MAX_SUBJECTS};
ghost use Rattle.mls_spans.specs.Windows.{would_grant as would_grant_in};
ghost use Rattle.mls_spans.specs.Turning.{is_one_of, is_reached, kept, settled, settled_where};

use crate::granting::{none_granted, would_grant};
use crate::reach::Reach;
use crate::turn::Turn;
use mls_rules::State;
use mls_tables::{MAX_SUBJECTS, Mode, Modes, ObjectId, SubjectId};
use std::alloc::{AllocError, Global};

/// Where the gets of an object turned so far.
#[derive(Drop)]
pub(crate) struct Turns {
    pub object: ObjectId,
    /// The modes, by subject, in which a get of it would be granted now.
    pub modes: Vec<Modes>,
    pub turns: Vec<Turn>,
}

impl Turns {
    /// No get is granted yet.
    pub(crate) fn new(alloc: Global, object: ObjectId) -> Result<Turns, AllocError>
        ensures subjects { IfOk result (λ turns. length turns.modes.items ≡ MAX_SUBJECTS) }
        ensures object { IfOk result (λ turns. turns.object ≡ object) }
        ensures each { IfOk result (λ turns. (t : Triple) → t.0 < MAX_SUBJECTS → kept turns t ≡ (false, [])) }
    {
        let modes = none_granted(alloc)?;
        let turns = Vec::new(alloc);
        Ok(Turns {
            object,
            modes,
            turns,
        })
    }

    /// The modes in which a get of a subject is granted, as it is kept.
    fn modes_of(&self, s: SubjectId) -> Modes
        requires { s < length self.now.modes.items }
        ensures { result ≡ get_or self.now.modes.items s set.empty }
    {
        self.modes[s.number() as usize]
    }

    /// Adds a turn of the get of a subject, of which gets in these modes would be granted then.
    fn push(
        &mut self,
        s: SubjectId,
        x: Mode,
        granted: Modes,
        number: Option<u64>,
    ) -> Result<(), AllocError>
        requires { s < length self.old.modes.items }
        ensures object { OnOk result (self.new.object ≡ self.old.object) }
        ensures modes { OnOk result (self.new.modes.items ≡ put self.old.modes.items s granted) }
        ensures turns { OnOk result (self.new.turns.items
            ≡ self.old.turns.items ++ (record { subject = s; mode = x; number = number }) ∷ []) }
    {
        self.modes[s.number() as usize] = granted;
        self.turns.push(Turn {
            subject: s,
            mode: x,
            number,
        })?;
        Ok(())
    }

    /// Keeps that the get of a subject in a mode is granted from a state on.
    fn open_mode(
        &mut self,
        state: &State,
        s: SubjectId,
        x: Mode,
        number: Option<u64>,
    ) -> Result<(), AllocError>
        requires within { s < length self.old.modes.items }
        requires was { (kept self.old (s, self.old.object, x)).0 ≡ false }
        requires now { would_grant_in state.now (s, self.old.object, x) ≡ true }
        ensures object { OnOk result (self.new.object ≡ self.old.object) }
        ensures subjects { OnOk result (length self.new.modes.items ≡ length self.old.modes.items) }
        ensures each { OnOk result ((t : Triple) → t.1 ≡ self.old.object
            → kept self.new t ≡ settled_where (is_one_of s x t) state.now number t (kept self.old t)) }
    {
        let granted = self.modes_of(s).with(x);
        self.push(s, x, granted, number)?;
        Ok(())
    }

    /// Keeps that the get of a subject in a mode is granted no longer.
    fn close_mode(
        &mut self,
        state: &State,
        s: SubjectId,
        x: Mode,
        number: Option<u64>,
    ) -> Result<(), AllocError>
        requires within { s < length self.old.modes.items }
        requires was { (kept self.old (s, self.old.object, x)).0 ≡ true }
        requires now { would_grant_in state.now (s, self.old.object, x) ≡ false }
        ensures object { OnOk result (self.new.object ≡ self.old.object) }
        ensures subjects { OnOk result (length self.new.modes.items ≡ length self.old.modes.items) }
        ensures each { OnOk result ((t : Triple) → t.1 ≡ self.old.object
            → kept self.new t ≡ settled_where (is_one_of s x t) state.now number t (kept self.old t)) }
    {
        let granted = self.modes_of(s).without(x);
        self.push(s, x, granted, number)?;
        Ok(())
    }

    /// Looks at a state for the get of a subject in a mode.
    fn settle_mode(
        &mut self,
        state: &State,
        s: SubjectId,
        x: Mode,
        number: Option<u64>,
    ) -> Result<(), AllocError>
        requires within { s < length self.old.modes.items }
        ensures object { OnOk result (self.new.object ≡ self.old.object) }
        ensures subjects { OnOk result (length self.new.modes.items ≡ length self.old.modes.items) }
        ensures each { OnOk result ((t : Triple) → t.1 ≡ self.old.object
            → kept self.new t ≡ settled_where (is_one_of s x t) state.now number t (kept self.old t)) }
    {
        let was = self.modes_of(s).has(x);
        if would_grant(state, s, self.object, x) {
            if was {
                return Ok(());
            }
            return self.open_mode(state, s, x, number);
        }
        if was {
            return self.close_mode(state, s, x, number);
        }
        Ok(())
    }

    /// Looks at a state for the gets of a subject.
    fn settle(&mut self, state: &State, s: SubjectId, number: Option<u64>) -> Result<(), AllocError>
        requires { length self.old.modes.items ≡ MAX_SUBJECTS }
        ensures object { OnOk result (self.new.object ≡ self.old.object) }
        ensures subjects { OnOk result (length self.new.modes.items ≡ length self.old.modes.items) }
        ensures each { OnOk result ((t : Triple) → t.1 ≡ self.old.object → t.0 < MAX_SUBJECTS
            → kept self.new t ≡ settled_where (t.0 == s) state.now number t (kept self.old t)) }
    {
        if s.number() >= MAX_SUBJECTS {
            return Ok(());
        }
        self.settle_mode(state, s, Mode::Execute, number)?;
        self.settle_mode(state, s, Mode::Read, number)?;
        self.settle_mode(state, s, Mode::Append, number)?;
        self.settle_mode(state, s, Mode::Write, number)?;
        Ok(())
    }

    /// Looks at a state for the gets of all subjects.
    pub(crate) fn settle_all(
        &mut self,
        state: &State,
        number: Option<u64>,
    ) -> Result<(), AllocError>
        requires { length self.old.modes.items ≡ MAX_SUBJECTS }
        ensures object { OnOk result (self.new.object ≡ self.old.object) }
        ensures subjects { OnOk result (length self.new.modes.items ≡ length self.old.modes.items) }
        ensures each { OnOk result ((t : Triple) → t.1 ≡ self.old.object → t.0 < MAX_SUBJECTS
            → kept self.new t ≡ settled state.now number t (kept self.old t)) }
    {
        for s in 0..MAX_SUBJECTS {
            self.settle(state, SubjectId(s), number)?;
        }
        Ok(())
    }

    /// Looks at a state for the gets of those who are reached.
    pub(crate) fn settle_reached(
        &mut self,
        state: &State,
        reach: Reach,
        number: Option<u64>,
    ) -> Result<(), AllocError>
        requires { length self.old.modes.items ≡ MAX_SUBJECTS }
        ensures object { OnOk result (self.new.object ≡ self.old.object) }
        ensures subjects { OnOk result (length self.new.modes.items ≡ length self.old.modes.items) }
        ensures each { OnOk result ((t : Triple) → t.1 ≡ self.old.object → t.0 < MAX_SUBJECTS
            → kept self.new t ≡ settled_where (is_reached reach t.0) state.now number t (kept self.old t)) }
    {
        match reach {
            Reach::Nobody => Ok(()),
            Reach::Just(s) => self.settle(state, s, number),
            Reach::Everyone => self.settle_all(state, number),
        }
    }
}
