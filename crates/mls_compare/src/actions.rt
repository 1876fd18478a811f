//! Actions of what may lack.
ghost use Rattle.std.specs.Prelude.{◌≡◌, option_map};
ghost use Rattle.mls_requests.specs.declared.action.Action.TheVariants.{Get, Release, Give, Rescind, Delete};
ghost use Rattle.mls_requests.specs.declared.action.Action.TheVariants.{SubjectLevel, ObjectLevel};
ghost use Rattle.mls_compare.specs.Carrying.{of_both, carried_create};

use mls_labels::{IntLabel, SecLabel};
use mls_requests::Action;
use mls_tables::{Mode, ObjectId, SubjectId};

/// A get of an object that may lack.
pub(crate) fn get(x: Mode, o: Option<ObjectId>) -> Option<Action>
    ensures { result ≡ option_map (Get x) o }
{
    match o {
        Some(o) => Some(Action::Get(x, o)),
        None => None,
    }
}

/// A release of an object that may lack.
pub(crate) fn release(x: Mode, o: Option<ObjectId>) -> Option<Action>
    ensures { result ≡ option_map (Release x) o }
{
    match o {
        Some(o) => Some(Action::Release(x, o)),
        None => None,
    }
}

/// A give to a subject on an object, each of which may lack.
pub(crate) fn give(x: Mode, s: Option<SubjectId>, o: Option<ObjectId>) -> Option<Action>
    ensures { result ≡ of_both (Give x) s o }
{
    match (s, o) {
        (Some(s), Some(o)) => Some(Action::Give(x, s, o)),
        (Some(_), None) | (None, _) => None,
    }
}

/// A rescind from a subject on an object, each of which may lack.
pub(crate) fn rescind(x: Mode, s: Option<SubjectId>, o: Option<ObjectId>) -> Option<Action>
    ensures { result ≡ of_both (Rescind x) s o }
{
    match (s, o) {
        (Some(s), Some(o)) => Some(Action::Rescind(x, s, o)),
        (Some(_), None) | (None, _) => None,
    }
}

/// A create below a parent, with two labels, each of which may lack.
pub(crate) fn create(
    p: Option<ObjectId>,
    l: Option<SecLabel>,
    i: Option<IntLabel>,
) -> Option<Action>
    ensures { result ≡ carried_create p l i }
{
    let Some(p) = p else {
        return None;
    };
    match (l, i) {
        (Some(l), Some(i)) => Some(Action::Create(p, l, i)),
        (Some(_), None) | (None, _) => None,
    }
}

/// A delete of an object that may lack.
pub(crate) fn delete(o: Option<ObjectId>) -> Option<Action>
    ensures { result ≡ option_map Delete o }
{
    match o {
        Some(o) => Some(Action::Delete(o)),
        None => None,
    }
}

/// A change to a current label that may lack.
pub(crate) fn level(l: Option<SecLabel>) -> Option<Action>
    ensures { result ≡ option_map SubjectLevel l }
{
    match l {
        Some(l) => Some(Action::SubjectLevel(l)),
        None => None,
    }
}

/// A relabel of an object, with a label, each of which may lack.
pub(crate) fn relabel(o: Option<ObjectId>, l: Option<SecLabel>) -> Option<Action>
    ensures { result ≡ of_both ObjectLevel o l }
{
    match (o, l) {
        (Some(o), Some(l)) => Some(Action::ObjectLevel(o, l)),
        (Some(_), None) | (None, _) => None,
    }
}
