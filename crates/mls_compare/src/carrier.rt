//! What a request of one start asks of another.
ghost use Rattle.std.specs.Prelude.{◌≡◌, ◌≤◌, None, get_or, length, IfOk};
ghost use Rattle.mls_tables.specs.declared.limits.TheConstants.{MAX_SUBJECTS};
ghost use Rattle.mls_compare.specs.Carriers.{Carries, objects_in};
ghost use Rattle.mls_compare.specs.Carrying.{carried_action, carried_request, request_of};
ghost use Rattle.mls_differences.specs.Alike.{carried_label};
ghost use Rattle.mls_differences.specs.Counterparts.{counterparts};

use crate::actions::{create, delete, get, give, level, relabel, release, rescind};
use crate::carried::{Carried, carry, lowest_kept};
use crate::object_table::ObjectTable;
use mls_differences::counterpart_subject;
use mls_labels::{IntLabel, Label, SecLabel};
use mls_lines::Names;
use mls_requests::{Action, Request};
use mls_tables::{MAX_SUBJECTS, SubjectId};
use std::alloc::{AllocError, Global};

/// Tables by which subjects and labels of one start are carried over to another by name.
#[derive(Drop)]
pub(crate) struct Carrier {
    /// The counterparts of subjects, by number.
    pub subjects: Vec<Option<SubjectId>>,
    /// Security labels that were met, with their counterparts.
    pub security: Vec<Option<Carried>>,
    /// Integrity labels that were met, with their counterparts.
    pub integrity: Vec<Option<Carried>>,
}

/// The counterparts of subjects, by number.
fn subjects_by_name(
    alloc: Global,
    first: &Names,
    second: &Names,
) -> Result<Vec<Option<SubjectId>>, AllocError>
    ensures { IfOk result (λ subjects. subjects.items
        ≡ counterparts first.now.subjects second.now.subjects MAX_SUBJECTS) }
{
    let mut subjects = Vec::new(alloc);
    for n in 0..MAX_SUBJECTS {
        subjects.push(counterpart_subject(first, second, SubjectId(n)))?;
    }
    Ok(subjects)
}

/// A request of a subject that may lack, for an action that may.
fn request_of(s: Option<SubjectId>, action: Option<Action>) -> Option<Request>
    ensures { result ≡ request_of s action }
{
    match (s, action) {
        (Some(subject), Some(action)) => Some(Request { subject, action }),
        (Some(_), None) | (None, _) => None,
    }
}

impl Carrier {
    /// The tables for two starts with these names.
    pub(crate) fn new(alloc: Global, first: &Names, second: &Names) -> Result<Carrier, AllocError>
        requires { length first.now.subjects ≤ MAX_SUBJECTS }
        ensures { IfOk result (λ carrier. Carries first.now second.now carrier) }
    {
        let subjects = subjects_by_name(alloc, first, second)?;
        let security = lowest_kept(alloc, first.security(), second.security())?;
        let integrity = lowest_kept(alloc, first.integrity(), second.integrity())?;
        Ok(Carrier {
            subjects,
            security,
            integrity,
        })
    }

    /// The counterpart of a subject, where it has one.
    fn subject(&self, s: SubjectId) -> Option<SubjectId>
        ensures { result ≡ get_or self.now.subjects.items s None }
    {
        match self.subjects.get(s.number() as usize) {
            Some(subject) => *subject,
            None => None,
        }
    }

    /// The counterpart of a security label, where it has one.
    fn security(
        &mut self,
        alloc: Global,
        first: &Names,
        second: &Names,
        l: SecLabel,
    ) -> Result<Option<SecLabel>, AllocError>
        requires { Carries first.now second.now self.old }
        ensures carries { Carries first.now second.now self.new }
        ensures label { IfOk result
            (λ to. to ≡ carried_label first.now.security second.now.security l) }
    {
        let scheme = first.security();
        let other = second.security();
        match carry(alloc, &mut self.security, scheme, other, l.label())? {
            Some(label) => Ok(Some(SecLabel::of(label))),
            None => Ok(None),
        }
    }

    /// The counterpart of an integrity label, where it has one.
    fn integrity(
        &mut self,
        alloc: Global,
        first: &Names,
        second: &Names,
        i: IntLabel,
    ) -> Result<Option<IntLabel>, AllocError>
        requires { Carries first.now second.now self.old }
        ensures carries { Carries first.now second.now self.new }
        ensures label { IfOk result
            (λ to. to ≡ carried_label first.now.integrity second.now.integrity i) }
    {
        let scheme = first.integrity();
        let other = second.integrity();
        match carry(alloc, &mut self.integrity, scheme, other, i.label())? {
            Some(label) => Ok(Some(IntLabel::of(label))),
            None => Ok(None),
        }
    }

    /// What an action asks of the other start, where all that it names has a counterpart.
    fn action(
        &mut self,
        alloc: Global,
        first: &Names,
        second: &Names,
        objects: &ObjectTable,
        action: &Action,
    ) -> Result<Option<Action>, AllocError>
        requires { Carries first.now second.now self.old }
        ensures carries { Carries first.now second.now self.new }
        ensures action { IfOk result
            (λ asked. asked ≡ carried_action first.now second.now (objects_in objects.now) action.now) }
    {
        match *action {
            Action::Get(x, o) => Ok(get(x, objects.get(o))),
            Action::Release(x, o) => Ok(release(x, objects.get(o))),
            Action::Give(x, s, o) => Ok(give(x, self.subject(s), objects.get(o))),
            Action::Rescind(x, s, o) => Ok(rescind(x, self.subject(s), objects.get(o))),
            Action::Create(p, l, i) => {
                let l = self.security(alloc, first, second, l)?;
                let i = self.integrity(alloc, first, second, i)?;
                Ok(create(objects.get(p), l, i))
            }
            Action::Delete(o) => Ok(delete(objects.get(o))),
            Action::SubjectLevel(l) => Ok(level(self.security(alloc, first, second, l)?)),
            Action::ObjectLevel(o, l) => {
                let l = self.security(alloc, first, second, l)?;
                Ok(relabel(objects.get(o), l))
            }
        }
    }

    /// What a request asks of the other start, where all that it names has a counterpart.
    pub(crate) fn request(
        &mut self,
        alloc: Global,
        first: &Names,
        second: &Names,
        objects: &ObjectTable,
        request: &Request,
    ) -> Result<Option<Request>, AllocError>
        requires { Carries first.now second.now self.old }
        ensures carries { Carries first.now second.now self.new }
        ensures request { IfOk result
            (λ asked. asked ≡ carried_request first.now second.now (objects_in objects.now) request.now) }
    {
        let subject = self.subject(request.subject);
        let action = self.action(alloc, first, second, objects, &request.action)?;
        Ok(request_of(subject, action))
    }
}
