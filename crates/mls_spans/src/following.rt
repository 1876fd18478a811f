//! The spans of the states that a journal leads through.
ghost use Rattle.std.specs.Prelude.{◌≡◌, ◌++◌, [], map, IfOk, OnOk};
ghost use Rattle.std.specs.List.{range_with_len};
ghost use Rattle.mls_rules.specs.Rules.{reply, after};
ghost use Rattle.mls_state.specs.State.{State as StateView};
ghost use Rattle.mls_spans.specs.Spans.{ending_of, is_held, spans_over, opened as opened_in};
ghost use Rattle.mls_spans.specs.Sweeping.{AreAmong, AllStand, begins, closed, is_granted, may_take, moved};
ghost use Rattle.mls_spans.specs.Sweeping.{sought as sought_in};

use crate::opening::opened;
use crate::span::{Ending, Span};
use crate::sweeping::sweep;
use mls_requests::{Action, ActionWord, Entry, Reply, Request};
use mls_rules::{State, apply};
use mls_tables::{Mode, ObjectId, SubjectId};
use std::alloc::{AllocError, Global};

/// The spans of the states so far, by the entries that made them.
#[derive(Drop)]
pub(crate) struct Spans {
    pub spans: Vec<Span>,
    /// The places of those that aren't ended.
    pub places: Vec<usize>,
}

/// Whether an access is held.
pub(crate) fn is_held(state: &State, access: &(SubjectId, ObjectId, Mode)) -> bool
    ensures { result ≡ is_held state.now access.now }
{
    let (s, o, x) = access;
    state.has_access(*s, *o, *x)
}

/// The access that a request asks for, where it isn't held.
fn sought(state: &State, request: &Request) -> Option<(SubjectId, ObjectId, Mode)>
    ensures { result ≡ sought_in state.now request.now.subject request.now.action }
{
    match request.action {
        Action::Get(x, o) => {
            if state.has_access(request.subject, o, x) {
                None
            } else {
                Some((request.subject, o, x))
            }
        }
        Action::Release(..)
        | Action::Give(..)
        | Action::Rescind(..)
        | Action::Create(..)
        | Action::Delete(_)
        | Action::SubjectLevel(_)
        | Action::ObjectLevel(..) => None,
    }
}

/// Whether an action may take accesses away.
fn may_take(action: &Action) -> bool
    ensures { result ≡ may_take action.now }
{
    matches!(
        action,
        Action::Release(..) | Action::Rescind(..) | Action::Delete(_)
    )
}

/// Whether a reply grants what was asked.
pub(crate) fn is_granted(reply: &Reply) -> bool
    ensures { result ≡ is_granted reply.now }
{
    matches!(reply, Reply::Yes | Reply::Created(_))
}

/// What is told of an entry that ends an access.
fn ending_of(entry: &Entry) -> Ending
    ensures { result ≡ ending_of entry.now }
{
    Ending {
        number: entry.number,
        word: ActionWord::of(entry.request.action),
    }
}

/// The numbers below a number.
fn numbers_below(alloc: Global, count: usize) -> Result<Vec<usize>, AllocError>
    ensures { IfOk result (λ found. found.items ≡ range_with_len 0 count) }
{
    let mut found = Vec::new(alloc);
    for at in 0..count {
        found.push(at)?;
    }
    Ok(found)
}

impl Spans {
    /// The spans of a state.
    pub(crate) fn new(alloc: Global, state: &State) -> Result<Spans, AllocError>
        ensures spans { IfOk result (λ spans. spans.spans.items ≡ opened_in state.now []) }
        ensures places { IfOk result (λ spans. AreAmong spans.spans.items spans.places.items) }
        ensures stand { IfOk result (λ spans. AllStand state.now spans.spans.items) }
    {
        let spans = opened(alloc, state)?;
        let places = numbers_below(alloc, spans.len())?;
        Ok(Spans { spans, places })
    }

    /// Adds the span of an access that was sought, where it is held.
    fn begin(
        &mut self,
        state: &State,
        sought: Option<(SubjectId, ObjectId, Mode)>,
        number: u64,
    ) -> Result<(), AllocError>
        requires { AreAmong self.old.spans.items self.old.places.items }
        ensures spans { OnOk result
            (self.new.spans.items ≡ self.old.spans.items ++ begins state.now number sought) }
        ensures places { OnOk result (AreAmong self.new.spans.items self.new.places.items) }
    {
        let Some(access) = sought else {
            return Ok(());
        };
        if !is_held(state, &access) {
            return Ok(());
        }
        let at = self.spans.len();
        self.spans.push(Span {
            access,
            made: Some(number),
            ended: None,
        })?;
        self.places.push(at)?;
        Ok(())
    }

    /// Ends the spans whose accesses an entry took away, where it was answered so.
    fn end(
        &mut self,
        alloc: Global,
        state: &State,
        entry: &Entry,
        answer: Reply,
    ) -> Result<(), AllocError>
        requires { AreAmong self.old.spans.items self.old.places.items }
        ensures spans { (v : StateView) → AllStand v self.old.spans.items
            → state.now ≡ after v entry.now.request → answer ≡ reply v entry.now.request
            → OnOk result
            (self.new.spans.items ≡ map (closed state.now (ending_of entry.now)) self.old.spans.items) }
        ensures places { OnOk result (AreAmong self.new.spans.items self.new.places.items) }
    {
        if !may_take(&entry.request.action) {
            return Ok(());
        }
        if !is_granted(&answer) {
            return Ok(());
        }
        let ending = ending_of(entry);
        self.places = sweep(alloc, &mut self.spans, &self.places, state, ending)?;
        Ok(())
    }

    /// Goes on to the state after an entry, and to its spans.
    pub(crate) fn follow(
        &mut self,
        alloc: Global,
        state: &mut State,
        entry: &Entry,
    ) -> Result<(), AllocError>
        requires places { AreAmong self.old.spans.items self.old.places.items }
        requires stand { AllStand state.old self.old.spans.items }
        ensures state { OnOk result (state.new ≡ after state.old entry.now.request) }
        ensures spans { OnOk result (self.new.spans.items ≡ moved state.new entry.now
            (sought_in state.old entry.now.request.subject entry.now.request.action) self.old.spans.items) }
        ensures places { OnOk result (AreAmong self.new.spans.items self.new.places.items) }
        ensures stand { OnOk result (AllStand state.new self.new.spans.items) }
    {
        let sought = sought(state, &entry.request);
        let answer = apply(state, &entry.request)?;
        self.end(alloc, state, entry, answer)?;
        self.begin(state, sought, entry.number)?;
        Ok(())
    }

    /// Goes on to the states after entries, and to their spans.
    fn follow_all(
        &mut self,
        alloc: Global,
        state: &mut State,
        entries: &[Entry],
    ) -> Result<(), AllocError>
        requires spans { self.old.spans.items ≡ opened_in state.old [] }
        requires places { AreAmong self.old.spans.items self.old.places.items }
        requires stand { AllStand state.old self.old.spans.items }
        ensures { OnOk result (self.new.spans.items ≡ spans_over state.old entries.now) }
    {
        for entry in entries {
            self.follow(alloc, state, entry)?;
        }
        Ok(())
    }
}

/// The spans of the states that entries lead through from a state.
pub(crate) fn spans_from(
    alloc: Global,
    state: &mut State,
    entries: &[Entry],
) -> Result<Vec<Span>, AllocError>
    ensures { IfOk result (λ spans. spans.items ≡ spans_over state.old entries.now) }
{
    let mut spans = Spans::new(alloc, state)?;
    spans.follow_all(alloc, state, entries)?;
    let Spans { spans, places } = spans;
    drop(places);
    Ok(spans)
}
