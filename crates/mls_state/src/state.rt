//! The state: subjects, objects, the matrix and the current accesses.
ghost use Rattle.std.specs.Prelude.{◌≡◌, ◌<◌, ◌≤◌, IsTrue, Some, IfSome, nat_lt, ℕ};
ghost use Rattle.std.specs.FinMap as map;
ghost use Rattle.std.specs.FinSet as set;
ghost use Rattle.mls_tables.specs.declared.limits.TheConstants.{MAX_SUBJECTS, MAX_OBJECTS};
ghost use Rattle.mls_tables.specs.declared.mode.Mode.{Mode};
ghost use Rattle.mls_state.specs.State.{is_subject, is_active};
ghost use Rattle.mls_state.specs.Properties.{HasTree, HasWholeTables};

use crate::subject::{ObjectLabels, Subject};
use mls_labels::{Bounds, IntLabel, SecLabel};
use mls_tables::{AccessSet, Matrix, Mode, Modes, ObjectId, SubjectId};
use mls_tree::{Profile, Tree};
use std::alloc::{Allocator, Global};
use std::marker::Model;

mod changes;
mod copying;
mod listing;
mod making;
mod placing;
mod removing;

/// The state of the monitor, the `(b, M, f, H)` of MTR-2997 with integrity labels. Its tables agree and its objects
/// are a tree, always; whether it is secure is another matter, which the rules see to.
#[derive(Drop)]
pub struct State<A: Allocator = Global> {
    subjects: Vec<Subject, A>,
    objects: Vec<ObjectLabels, A>,
    tree: Tree<A>,
    matrix: Matrix<A>,
    accesses: AccessSet<A>,
    /// Room for the objects that a deletion takes out.
    group: Vec<ObjectId, A>,
    security: Bounds,
    integrity: Bounds,
}

impl<A: Allocator> Model for State<A> {
    ghost use Rattle.mls_state.specs.State.{State, state_code};
    ghost use Rattle.mls_state.specs.StateView.{state_of, Agrees};

    ghost Value = { State };

    ghost coded = { state_code };

    ghost view = { state_of };

    ghost invariant = { Agrees };
}

impl<A: Allocator> State<A> {
    /// What is known of a known subject.
    pub fn subject(&self, s: SubjectId) -> &Subject
        requires { IsTrue (is_subject self.now s) }
        ensures maximum { map.get self.now.maximum s ≡ Some result.now.maximum }
        ensures current { map.get self.now.current s ≡ Some result.now.current }
        ensures integrity { map.get self.now.subject_integrity s ≡ Some result.now.integrity }
        ensures trusted { set.contains self.now.trusted s ≡ result.now.trusted }
    {
        &self.subjects[s.number() as usize]
    }

    /// The labels of an active object.
    pub fn labels(&self, o: ObjectId) -> &ObjectLabels
        requires { IsTrue (is_active self.now o) }
        ensures security { map.get self.now.object_label o ≡ Some result.now.security }
        ensures integrity { map.get self.now.object_integrity o ≡ Some result.now.integrity }
    {
        &self.objects[o.number() as usize]
    }

    /// How many subjects there are: 1 to `MAX_SUBJECTS`. Their numbers are those below it.
    #[tactic(auto, using(crate::proofs::Tables::known_below))]
    pub fn subject_count(&self) -> u16
        ensures count { (s : ℕ) → is_subject self.now s ≡ nat_lt s result }
        ensures least { 1 ≤ result }
        ensures most { result ≤ MAX_SUBJECTS }
    {
        self.matrix.subjects()
    }

    /// Whether the subject is known.
    pub fn is_subject(&self, s: SubjectId) -> bool
        ensures { result ≡ is_subject self.now s }
    {
        s.number() < self.subject_count()
    }

    /// Whether the object is active.
    #[tactic(auto, using(crate::proofs::Tables::in_the_tree))]
    pub fn is_active(&self, o: ObjectId) -> bool
        ensures { result ≡ is_active self.now o }
    {
        self.tree.is_active(o)
    }

    /// Whether object numbers are used again.
    pub fn profile(&self) -> Profile
        ensures { result ≡ self.now.profile }
    {
        self.tree.profile()
    }

    /// The number that the next object will have, [`mls_tables::MAX_OBJECTS`] where there is none: in profile 1 the
    /// least that was never used, in profile 2 the least that isn't active. The active objects are a tree, and the
    /// tables of the state agree, always.
    pub fn next(&self) -> u16
        ensures number { result ≡ self.now.next }
        ensures most { result ≤ MAX_OBJECTS }
        ensures tree { HasTree self.now }
        ensures whole { HasWholeTables self.now }
    {
        self.tree.next()
    }

    /// A number above those of all active objects, at most [`mls_tables::MAX_OBJECTS`].
    #[tactic(auto, using(crate::proofs::Tables::in_the_tree))]
    pub(crate) fn places(&self) -> u16
        ensures { (o : ℕ) → IsTrue (is_active self.now o) → o < result }
    {
        self.tree.places()
    }

    /// That the active objects are a tree and the tables agree, which is so of every state.
    pub fn agrees(&self)
        ensures tree { HasTree self.now }
        ensures whole { HasWholeTables self.now }
    {
        let _ = self.next();
    }

    /// The maximum security label of a known subject.
    pub fn maximum(&self, s: SubjectId) -> SecLabel
        requires { IsTrue (is_subject self.now s) }
        ensures { map.get self.now.maximum s ≡ Some result }
    {
        self.subject(s).maximum
    }

    /// The current security label of a known subject.
    pub fn current(&self, s: SubjectId) -> SecLabel
        requires { IsTrue (is_subject self.now s) }
        ensures { map.get self.now.current s ≡ Some result }
    {
        self.subject(s).current
    }

    /// The integrity label of a known subject.
    pub fn subject_integrity(&self, s: SubjectId) -> IntLabel
        requires { IsTrue (is_subject self.now s) }
        ensures { map.get self.now.subject_integrity s ≡ Some result }
    {
        self.subject(s).integrity
    }

    /// Whether a known subject is trusted: exempt from the star property.
    pub fn is_trusted(&self, s: SubjectId) -> bool
        requires { IsTrue (is_subject self.now s) }
        ensures { result ≡ set.contains self.now.trusted s }
    {
        self.subject(s).trusted
    }

    /// The security label of an active object.
    pub fn object_label(&self, o: ObjectId) -> SecLabel
        requires { IsTrue (is_active self.now o) }
        ensures { map.get self.now.object_label o ≡ Some result }
    {
        self.labels(o).security
    }

    /// The integrity label of an active object.
    pub fn object_integrity(&self, o: ObjectId) -> IntLabel
        requires { IsTrue (is_active self.now o) }
        ensures { map.get self.now.object_integrity o ≡ Some result }
    {
        self.labels(o).integrity
    }

    /// The parent of an active object, `None` for the root. It is active.
    pub fn parent(&self, o: ObjectId) -> Option<ObjectId>
        requires { IsTrue (is_active self.now o) }
        ensures parent { result ≡ map.get self.now.parent o }
        ensures active { IfSome result (λ p. IsTrue (is_active self.now p)) }
    {
        self.tree.parent(o)
    }

    /// The modes that the matrix permits a known subject on an active object.
    #[tactic(auto, using(crate::proofs::Tables::matrix_row, crate::proofs::Tables::matrix_column))]
    pub fn allowed(&self, s: SubjectId, o: ObjectId) -> Modes
        requires subject { IsTrue (is_subject self.now s) }
        requires object { IsTrue (is_active self.now o) }
        ensures { (x : Mode) → set.contains result x ≡ set.contains self.now.matrix (s, o, x) }
    {
        self.matrix.modes(s, o)
    }

    /// The modes in which a known subject accesses an active object.
    #[tactic(auto, using(crate::proofs::Tables::access_row, crate::proofs::Tables::access_column))]
    pub fn accesses(&self, s: SubjectId, o: ObjectId) -> Modes
        requires subject { IsTrue (is_subject self.now s) }
        requires object { IsTrue (is_active self.now o) }
        ensures { (x : Mode) → set.contains result x ≡ set.contains self.now.accesses (s, o, x) }
    {
        self.accesses.modes(s, o)
    }

    /// Whether the triple is a current access, whatever it names.
    pub fn has_access(&self, s: SubjectId, o: ObjectId, x: Mode) -> bool
        ensures { result ≡ set.contains self.now.accesses (s, o, x) }
    {
        let accesses = &self.accesses;
        if !self.is_subject(s) {
            return false;
        }
        if !self.is_active(o) {
            return false;
        }
        accesses.contains(s, o, x)
    }

    /// The bounds of the security labels.
    pub fn security(&self) -> Bounds
        ensures { result ≡ self.now.security }
    {
        self.security
    }

    /// The bounds of the integrity labels.
    pub fn integrity(&self) -> Bounds
        ensures { result ≡ self.now.integrity }
    {
        self.integrity
    }
}
