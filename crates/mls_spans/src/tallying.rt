//! The uses of the permissions over a journal.
ghost use Rattle.std.specs.Prelude.{◌≡◌, ◌<◌, None, IfOk, OnOk};
ghost use Rattle.mls_tables.specs.Triples.{Triple};
ghost use Rattle.mls_rules.specs.Rules.{after};
ghost use Rattle.mls_spans.specs.Uses.{is_permitted};
ghost use Rattle.mls_spans.specs.Kept.{asked_in, given_by, with_asked, with_given, followed, kept, IsTally};

use crate::following::is_granted;
use crate::tally::Tally;
use crate::uses::Uses;
use mls_requests::{Action, Entry, Request};
use mls_rules::{State, apply};
use mls_state::Table;
use mls_tables::{Mode, ObjectId, SubjectId};
use std::alloc::{AllocError, Global};

/// Whether the matrix permits an access.
pub(crate) fn is_permitted(state: &State, access: &(SubjectId, ObjectId, Mode)) -> bool
    ensures { result ≡ is_permitted state.now access.now }
{
    let (s, o, x) = access;
    Table::Matrix.modes(state, *s, *o).has(*x)
}

/// The access that a request is the get of, where the matrix permits it.
fn asked(state: &State, request: &Request) -> Option<(SubjectId, ObjectId, Mode)>
    ensures { result ≡ asked_in state.now request.now.subject request.now.action }
{
    match request.action {
        Action::Get(x, o) => {
            let access = (request.subject, o, x);
            if is_permitted(state, &access) {
                Some(access)
            } else {
                None
            }
        }
        Action::Release(..)
        | Action::Give(..)
        | Action::Rescind(..)
        | Action::Create(..)
        | Action::Delete(_)
        | Action::SubjectLevel(_)
        | Action::ObjectLevel(..) => None,
    }
}

/// The access that an action is to permit.
fn given(action: &Action) -> Option<(SubjectId, ObjectId, Mode)>
    ensures { result ≡ given_by action.now }
{
    match *action {
        Action::Give(x, t, o) => Some((t, o, x)),
        Action::Get(..)
        | Action::Release(..)
        | Action::Rescind(..)
        | Action::Create(..)
        | Action::Delete(_)
        | Action::SubjectLevel(_)
        | Action::ObjectLevel(..) => None,
    }
}

impl Tally {
    /// Counts the get of an access, where one is asked for.
    fn count(
        &mut self,
        asked: Option<(SubjectId, ObjectId, Mode)>,
        is_granted: bool,
        number: u64,
    ) -> Result<(), AllocError>
        ensures { OnOk result ((t : Triple) → t.1 < 65536
            → kept self.new t ≡ with_asked asked is_granted number t (kept self.old t)) }
    {
        let Some(access) = asked else {
            return Ok(());
        };
        let uses = Uses::told(self.at(&access)).with_use(is_granted, number)?;
        self.put(&access, uses)?;
        Ok(())
    }

    /// Keeps that an access is a permission, where it is given and the matrix permits it.
    fn add(
        &mut self,
        state: &State,
        given: Option<(SubjectId, ObjectId, Mode)>,
    ) -> Result<(), AllocError>
        ensures { OnOk result ((t : Triple) → t.1 < 65536
            → kept self.new t ≡ with_given state.now given t (kept self.old t)) }
    {
        let Some(access) = given else {
            return Ok(());
        };
        if !is_permitted(state, &access) {
            return Ok(());
        }
        let uses = Uses::told(self.at(&access));
        self.put(&access, uses)?;
        Ok(())
    }

    /// Goes on to the state after an entry, and tallies it.
    pub(crate) fn follow(&mut self, state: &mut State, entry: &Entry) -> Result<(), AllocError>
        ensures state { OnOk result (state.new ≡ after state.old entry.now.request) }
        ensures tally { OnOk result ((t : Triple) → t.1 < 65536
            → kept self.new t ≡ followed state.old state.new entry.now t (kept self.old t)) }
    {
        let asked = asked(state, &entry.request);
        let given = given(&entry.request.action);
        let answer = apply(state, &entry.request)?;
        self.count(asked, is_granted(&answer), entry.number)?;
        self.add(state, given)?;
        Ok(())
    }

    /// Goes on to the states after entries, and tallies these.
    fn follow_all(&mut self, state: &mut State, entries: &[Entry]) -> Result<(), AllocError>
        requires { (t : Triple) → kept self.old t ≡ None }
        ensures { OnOk result (IsTally state.old entries.now self.new) }
    {
        for entry in entries {
            self.follow(state, entry)?;
        }
        Ok(())
    }
}

/// The tally of entries from a state, which goes on to the state after them.
fn tally_from(alloc: Global, state: &mut State, entries: &[Entry]) -> Result<Tally, AllocError>
    ensures { IfOk result (λ tally. IsTally state.old entries.now tally) }
{
    let mut tally = Tally::new(alloc);
    tally.follow_all(state, entries)?;
    Ok(tally)
}

/// The tally of entries from a state.
pub(crate) fn tally_over(
    alloc: Global,
    first: &State,
    entries: &[Entry],
) -> Result<Tally, AllocError>
    ensures { IfOk result (λ tally. IsTally first.now entries.now tally) }
{
    let mut state = first.duplicate(alloc)?;
    let tally = tally_from(alloc, &mut state, entries);
    drop(state);
    tally
}
