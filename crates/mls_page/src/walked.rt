//! What is looked at in each state of a journal, in one replay.
ghost use Rattle.std.specs.Prelude.{◌≡◌, ◌++◌, [], ◌∷◌, IfOk, OnOk, if◌then◌else◌};
ghost use Rattle.mls_page.specs.ByTrust.{trusting_here, trusting_over};

use mls_explain::uses_trust;
use mls_explain_text::why;
use mls_lines::Names;
use mls_requests::Entry;
use mls_rules::{State, apply};
use mls_start::Start;
use mls_tables::SubjectId;
use std::alloc::{AllocError, Global};

/// Why some entries were denied, and whom trust granted something.
#[derive(Drop)]
pub struct Walked {
    /// Of the entries at these places, in ascending order: why each was denied.
    pub places: Vec<usize>,
    pub reasons: Vec<String>,
    /// Of each entry that trust alone granted, the number of its subject.
    pub trusting: Vec<u64>,
}

/// Adds the number of a subject, where it is to be.
fn push_where(trusting: &mut Vec<u64>, subject: SubjectId, so: bool) -> Result<(), AllocError>
    ensures { OnOk result
        (trusting.new.items ≡ trusting.old.items ++ (if so then subject ∷ [] else [])) }
{
    if so {
        trusting.push(u64::from(subject.number()))?;
    }
    Ok(())
}

impl Walked {
    /// Nothing was looked at yet.
    fn new(alloc: Global) -> Walked
        ensures { result.trusting.items ≡ [] }
    {
        Walked {
            places: Vec::new(alloc),
            reasons: Vec::new(alloc),
            trusting: Vec::new(alloc),
        }
    }

    /// Keeps why an entry was denied in a state.
    fn explain(
        &mut self,
        alloc: Global,
        names: &Names,
        state: &State,
        place: usize,
        entry: &Entry,
    ) -> Result<(), AllocError>
        ensures { OnOk result (self.new.trusting.items ≡ self.old.trusting.items) }
    {
        let told = why(alloc, names, state, &entry.request)?;
        self.reasons.push(told)?;
        self.places.push(place)?;
        Ok(())
    }

    /// Looks at an entry in the state before it.
    fn look(
        &mut self,
        alloc: Global,
        names: &Names,
        state: &State,
        place: usize,
        entry: &Entry,
        wanted: &[usize],
    ) -> Result<(), AllocError>
        ensures { OnOk result (self.new.trusting.items
            ≡ self.old.trusting.items ++ trusting_here state.now entry.now.request) }
    {
        let used = uses_trust(state, &entry.request);
        push_where(&mut self.trusting, entry.request.subject, used)?;
        if wanted.contains(&place) {
            self.explain(alloc, names, state, place, entry)?;
        }
        Ok(())
    }

    /// Looks at entries from a state on.
    fn look_at_all(
        &mut self,
        alloc: Global,
        names: &Names,
        state: &mut State,
        entries: &[Entry],
        wanted: &[usize],
    ) -> Result<(), AllocError>
        ensures { OnOk result (self.new.trusting.items
            ≡ self.old.trusting.items ++ trusting_over state.old entries.now) }
    {
        for (place, entry) in entries.iter().enumerate() {
            self.look(alloc, names, state, place, entry, wanted)?;
            apply(state, &entry.request)?;
        }
        Ok(())
    }

    /// Why the entry at a place was denied, where that was asked for.
    pub(crate) fn reason_at(&self, place: usize) -> Option<&str> {
        for (index, known) in self.places.iter().enumerate() {
            if *known == place {
                return match self.reasons.get(index) {
                    Some(text) => Some(text.as_str()),
                    None => None,
                };
            }
        }
        None
    }
}

/// Looks at the entries of a start, in one replay: why those at the places that are wanted were denied, and whom trust
/// alone granted something.
///
/// # Errors
/// `AllocError` where an allocation failed.
pub fn walk(
    alloc: Global,
    names: &Names,
    start: &Start,
    entries: &[Entry],
    wanted: &[usize],
) -> Result<Walked, AllocError>
    ensures { IfOk result (λ walked. walked.trusting.items ≡ trusting_over start.now entries.now) }
{
    let mut walked = Walked::new(alloc);
    let mut state = start.opening(alloc)?;
    let done = walked.look_at_all(alloc, names, &mut state, entries, wanted);
    drop(state);
    done?;
    Ok(walked)
}
