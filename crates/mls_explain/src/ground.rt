//! What the conditions of requests rest on.

use crate::term::Term;
use mls_labels::SecLabel;
use mls_tables::{Mode, ObjectId, SubjectId};

/// What the authority of an untrusted subject to relabel an object rests on.
#[derive(Clone, Copy, Debug)]
pub struct Relabelling {
    pub subject: SubjectId,
    /// The parent of the object.
    pub parent: ObjectId,
    /// Whether the subject holds write on the parent.
    pub writes: bool,
    pub object: ObjectId,
    /// The current label of the subject.
    pub current: SecLabel,
    /// The label of the object.
    pub label: SecLabel,
    /// The label that it would have.
    pub new: SecLabel,
}

/// What the fit of a label between those of an object's parent and of its children rests on.
#[derive(Clone, Copy, Debug)]
pub struct Place {
    pub object: ObjectId,
    /// The label that the object would have.
    pub new: SecLabel,
    /// The parent of the object.
    pub parent: ObjectId,
    /// The label of the parent.
    pub label: SecLabel,
    /// Whether the label of each child dominates the new one.
    pub below: bool,
}

/// What a condition rests on: the values that it compares.
#[derive(Clone, Copy, Debug)]
pub enum Ground {
    /// Whether the matrix permits the subject the object in the mode.
    Permission(SubjectId, Mode, ObjectId),
    /// That the mode doesn't observe.
    Unobserving(Mode),
    /// That execute neither observes nor alters.
    Inert,
    /// Whether the subject is trusted.
    Trust(SubjectId),
    /// Whether the first label dominates the second.
    Dominance(Term, Term),
    /// Whether two labels are equal.
    Equality(Term, Term),
    /// Whether the subject holds write on the object.
    Writing(SubjectId, ObjectId),
    /// Whether the subject holds append or write on the object.
    Altering(SubjectId, ObjectId),
    /// That the object has no parent.
    Parentless(ObjectId),
    /// Whether the number of the next object is free: it is less than 4,096.
    Number(u16),
    /// Whether the object isn't the root.
    Root(ObjectId),
    /// Whether star holds of all that the subject holds, with this current label.
    Holdings(SubjectId, SecLabel),
    /// Whether a subject that isn't trusted may give an object that isn't the root a label.
    Relabelling(Relabelling),
    /// Whether the label of each child of the object, which has no parent, dominates this label.
    Children(ObjectId, SecLabel),
    /// Whether a label fits between those of the object's parent and of its children.
    Place(Place),
    /// Whether simple security holds of all that is held of the object, with this label.
    Observers(ObjectId, SecLabel),
    /// Whether star holds of all that is held of the object, with this label.
    Holders(ObjectId, SecLabel),
}
