//! The changes that rules make of a state, each of one part. They keep the tables in agreement and the objects a tree,
//! and don't ask whether a change may be made. A monitor lends its state for reading alone, so that nobody else calls
//! them.
ghost use Rattle.std.specs.Prelude.{◌≡◌, IsTrue, IfOk, OnOk, OnErr, not};
ghost use Rattle.std.specs.FinSet as set;
ghost use Rattle.mls_state.specs.State.{is_subject, is_active};
ghost use Rattle.mls_state.specs.Changes.{with_current, with_object_label};

use crate::state::State;
use mls_labels::SecLabel;
use mls_tables::{Mode, ObjectId, SubjectId};
use std::alloc::{AllocError, Allocator};

impl<A: Allocator> State<A> {
    /// Adds a current access, and returns whether it is new. It doesn't ask whether the access may be had: that is for
    /// the rule that calls it to decide, and a test of an audit makes a state by it that isn't secure.
    ///
    /// # Errors
    /// `AllocError` where an allocation failed; the state is then as before.
    #[tactic(auto, using(crate::proofs::Tables::access_place, crate::proofs::Changes::agrees_put))]
    pub fn put_access(&mut self, s: SubjectId, o: ObjectId, x: Mode) -> Result<bool, AllocError>
        requires subject { IsTrue (is_subject self.old s) }
        requires object { IsTrue (is_active self.old o) }
        ensures new { IfOk result (λ new. new ≡ not (set.contains self.old.accesses (s, o, x))) }
        ensures ok { OnOk result (self.new ≡ record self.old { accesses = set.insert self.old.accesses (s, o, x) }) }
        ensures err { OnErr result (self.new ≡ self.old) }
    {
        let new = self.accesses.insert(s, o, x)?;
        Ok(new)
    }

    /// Takes out a current access, and returns whether it was there: what a release changes.
    #[tactic(auto, using(crate::proofs::Tables::access_place, crate::proofs::Changes::agrees_removed))]
    pub fn remove_access(&mut self, s: SubjectId, o: ObjectId, x: Mode) -> bool
        requires subject { IsTrue (is_subject self.old s) }
        requires object { IsTrue (is_active self.old o) }
        ensures there { result ≡ set.contains self.old.accesses (s, o, x) }
        ensures removed { self.new ≡ record self.old { accesses = set.remove self.old.accesses (s, o, x) } }
    {
        self.accesses.remove(s, o, x)
    }

    /// Takes a triple out of the matrix and out of the current accesses: what a rescind changes. It doesn't ask who
    /// controls the object.
    #[tactic(auto, using(crate::proofs::Tables::both_places, crate::proofs::Changes::agrees_rescinded))]
    pub fn rescind(&mut self, s: SubjectId, o: ObjectId, x: Mode)
        requires subject { IsTrue (is_subject self.old s) }
        requires object { IsTrue (is_active self.old o) }
        ensures { self.new ≡ record self.old {
          matrix = set.remove self.old.matrix (s, o, x);
          accesses = set.remove self.old.accesses (s, o, x);
        } }
    {
        self.matrix.rescind(s, o, x);
        self.accesses.remove(s, o, x);
    }

    /// Gives a subject another current label: what a change of a subject's level changes. It doesn't ask whether the
    /// label is below the subject's maximum, nor what the subject accesses.
    #[tactic(auto, using(crate::proofs::Tables::subject_row, crate::proofs::Replacing::with_current_steps))]
    pub fn set_current(&mut self, s: SubjectId, l: SecLabel)
        requires { IsTrue (is_subject self.old s) }
        ensures { self.new ≡ with_current self.old s l }
    {
        let at = s.number() as usize;
        self.subjects[at].current = l;
    }

    /// Gives an object another security label: what a relabelling changes. It doesn't ask who may relabel it, nor what
    /// accesses it.
    #[tactic(auto, using(crate::proofs::Tables::label_place, crate::proofs::Replacing::with_object_label_steps))]
    pub fn set_object_label(&mut self, o: ObjectId, l: SecLabel)
        requires { IsTrue (is_active self.old o) }
        ensures { self.new ≡ with_object_label self.old o l }
    {
        let at = o.number() as usize;
        self.objects[at].security = l;
    }
}
