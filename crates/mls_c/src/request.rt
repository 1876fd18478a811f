//! Requests in numbers.
ghost use Rattle.std.specs.Prelude.{◌≡◌, ◌<◌, ◌⊎◌, Some};
ghost use Rattle.mls_c.specs.Requests.{mode_at, number_of_mode, action_of, request_of, blank, numbers_of_request};

use crate::label::LabelNumbers;
use mls_labels::{IntLabel, SecLabel};
use mls_requests::{Action, Request};
use mls_tables::{Mode, ObjectId, SubjectId};

/// A request: which action, of which subject, and what it is about. What an action doesn't use isn't looked at.
#[repr(C)]
#[derive(Clone, Copy)]
pub struct RequestNumbers {
    pub action: u8,
    pub mode: u8,
    pub subject: u16,
    pub other: u16,
    pub object: u16,
    pub security: LabelNumbers,
    pub integrity: LabelNumbers,
}

/// The mode of a number.
pub(crate) fn mode_at(number: u8) -> Option<Mode>
    ensures { result ≡ mode_at number }
{
    match number {
        0 => Some(Mode::Execute),
        1 => Some(Mode::Read),
        2 => Some(Mode::Append),
        3 => Some(Mode::Write),
        _ => None,
    }
}

/// The number of a mode.
pub(crate) fn number_of_mode(mode: Mode) -> u8
    ensures { result ≡ number_of_mode mode }
{
    match mode {
        Mode::Execute => 0,
        Mode::Read => 1,
        Mode::Append => 2,
        Mode::Write => 3,
    }
}

impl RequestNumbers {
    /// The action of the numbers in a mode, where it is one of the four that have one.
    fn action_in(&self, mode: Mode) -> Action
        requires { self.now.action < 4 }
        ensures { mode_at self.now.mode ≡ Some mode → Some result ≡ action_of self.now }
    {
        let object = ObjectId::new(self.object);
        let other = SubjectId::new(self.other);
        match self.action {
            0 => Action::Get(mode, object),
            1 => Action::Release(mode, object),
            2 => Action::Give(mode, other, object),
            _ => Action::Rescind(mode, other, object),
        }
    }

    /// The creation of the numbers.
    fn creation(&self) -> Option<Action>
        requires { self.now.action ≡ 4 }
        ensures { result ≡ action_of self.now }
    {
        let security = SecLabel::of(self.security.label()?);
        let integrity = IntLabel::of(self.integrity.label()?);
        Some(Action::Create(ObjectId::new(self.object), security, integrity))
    }

    /// The action of the numbers in one of the two that have a new label.
    fn level(&self) -> Option<Action>
        requires { (self.now.action ≡ 6) ⊎ (self.now.action ≡ 7) }
        ensures { result ≡ action_of self.now }
    {
        let label = SecLabel::of(self.security.label()?);
        if self.action == 6 {
            return Some(Action::SubjectLevel(label));
        }
        Some(Action::ObjectLevel(ObjectId::new(self.object), label))
    }

    /// The action of the numbers.
    fn action(&self) -> Option<Action>
        ensures { result ≡ action_of self.now }
    {
        match self.action {
            0..=3 => match mode_at(self.mode) {
                Some(mode) => Some(self.action_in(mode)),
                None => None,
            },
            4 => self.creation(),
            5 => Some(Action::Delete(ObjectId::new(self.object))),
            6 | 7 => self.level(),
            _ => None,
        }
    }

    /// The request of the numbers, where they are one's.
    pub(crate) fn request(&self) -> Option<Request>
        ensures { result ≡ request_of self.now }
    {
        let action = self.action()?;
        Some(Request {
            subject: SubjectId::new(self.subject),
            action,
        })
    }

    /// The numbers of a request of this subject, with 0 for all else.
    fn blank(subject: SubjectId) -> RequestNumbers
        ensures { result ≡ blank subject }
    {
        RequestNumbers {
            action: 0,
            mode: 0,
            subject: subject.number(),
            other: 0,
            object: 0,
            security: LabelNumbers::none(),
            integrity: LabelNumbers::none(),
        }
    }

    /// A request in numbers.
    pub(crate) fn of(request: &Request) -> RequestNumbers
        ensures { result ≡ numbers_of_request request.now }
    {
        let mut numbers = RequestNumbers::blank(request.subject);
        match request.action {
            Action::Get(mode, object) => {
                numbers.mode = number_of_mode(mode);
                numbers.object = object.number();
            }
            Action::Release(mode, object) => {
                numbers.action = 1;
                numbers.mode = number_of_mode(mode);
                numbers.object = object.number();
            }
            Action::Give(mode, other, object) => {
                numbers.action = 2;
                numbers.mode = number_of_mode(mode);
                numbers.other = other.number();
                numbers.object = object.number();
            }
            Action::Rescind(mode, other, object) => {
                numbers.action = 3;
                numbers.mode = number_of_mode(mode);
                numbers.other = other.number();
                numbers.object = object.number();
            }
            Action::Create(parent, security, integrity) => {
                numbers.action = 4;
                numbers.object = parent.number();
                numbers.security = LabelNumbers::of(security.label());
                numbers.integrity = LabelNumbers::of(integrity.label());
            }
            Action::Delete(object) => {
                numbers.action = 5;
                numbers.object = object.number();
            }
            Action::SubjectLevel(label) => {
                numbers.action = 6;
                numbers.security = LabelNumbers::of(label.label());
            }
            Action::ObjectLevel(object, label) => {
                numbers.action = 7;
                numbers.object = object.number();
                numbers.security = LabelNumbers::of(label.label());
            }
        }
        numbers
    }
}
