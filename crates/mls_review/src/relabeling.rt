//! Which labels a subject may take, or give to an object.
ghost use Rattle.std.specs.Prelude.{◌≡◌, ◌++◌, IsTrue, IfOk, OnOk, filter, map};
ghost use Rattle.mls_state.specs.State.{is_subject, is_active};
ghost use Rattle.mls_review.specs.Granted.{change_view};
ghost use Rattle.mls_review.specs.Powers.{may_take, is_there, labels_taken, relabelings};

use crate::change::Change;
use crate::distinct::is_same;
use crate::power::may;
use mls_labels::SecLabel;
use mls_requests::Action;
use mls_state::State;
use mls_tables::{ObjectId, SubjectId};
use std::alloc::{AllocError, Allocator, Global};

/// A change of a security label, in the order of the rules.
#[derive(Clone, Copy, Debug, PartialEq, Eq)]
pub enum Relabeling {
    /// A subject's current label.
    Level,
    /// An object's label, to another one that it dominates.
    Down(ObjectId),
    /// An object's label, to one that neither dominates it nor is dominated by it.
    Aside(ObjectId),
    /// An object's label, to another one that dominates it.
    Up(ObjectId),
}

impl Relabeling {
    /// Whether a subject may make the change to a label.
    fn may_take<A: Allocator>(&self, state: &State<A>, s: SubjectId, l: &SecLabel) -> bool
        requires subject { IsTrue (is_subject state.now s) }
        requires object { IsTrue (is_there state.now self.now) }
        ensures { result ≡ may_take state.now s self.now l.now }
    {
        match *self {
            Relabeling::Level => {
                !is_same(&state.current(s), l) && may(state, s, Action::SubjectLevel(*l))
            }
            Relabeling::Down(o) => {
                let there = state.object_label(o);
                (there.dominates(l) && !is_same(&there, l))
                    && may(state, s, Action::ObjectLevel(o, *l))
            }
            Relabeling::Aside(o) => {
                let there = state.object_label(o);
                (!l.dominates(&there) && !there.dominates(l))
                    && may(state, s, Action::ObjectLevel(o, *l))
            }
            Relabeling::Up(o) => {
                let there = state.object_label(o);
                (l.dominates(&there) && !is_same(&there, l))
                    && may(state, s, Action::ObjectLevel(o, *l))
            }
        }
    }

    /// Those of some labels to which a subject may make the change.
    fn taken<A: Allocator>(
        &self,
        alloc: Global,
        state: &State<A>,
        s: SubjectId,
        labels: &[SecLabel],
    ) -> Result<Vec<SecLabel>, AllocError>
        requires subject { IsTrue (is_subject state.now s) }
        requires object { IsTrue (is_there state.now self.now) }
        ensures { IfOk result (λ found. found.items ≡ filter (may_take state.now s self.now) labels.now) }
    {
        let mut found = Vec::new(alloc);
        for l in labels {
            if self.may_take(state, s, l) {
                found.push(*l)?;
            }
        }
        Ok(found)
    }

    /// Adds those of some labels to which a subject may make the change, where there are any.
    pub(crate) fn push_taken<A: Allocator>(
        &self,
        alloc: Global,
        found: &mut Vec<Change>,
        state: &State<A>,
        s: SubjectId,
        labels: &[SecLabel],
    ) -> Result<(), AllocError>
        requires subject { IsTrue (is_subject state.now s) }
        requires object { IsTrue (is_there state.now self.now) }
        ensures { OnOk result (map change_view found.new.items
            ≡ map change_view found.old.items ++ relabelings state.now labels.now s self.now) }
    {
        let taken = self.taken(alloc, state, s, labels)?;
        push_labels(found, s, *self, taken)
    }
}

/// Adds labels, where there are any.
fn push_labels(
    found: &mut Vec<Change>,
    s: SubjectId,
    change: Relabeling,
    labels: Vec<SecLabel>,
) -> Result<(), AllocError>
    ensures { OnOk result
        (map change_view found.new.items ≡ map change_view found.old.items ++ labels_taken s change labels.items) }
{
    if labels.is_empty() {
        return Ok(());
    }
    found.push(Change::Labels(s, change, labels))?;
    Ok(())
}
