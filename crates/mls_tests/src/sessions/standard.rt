//! What is asked of a monitor over the standard start, and one that replayed a journal.
use crate::standard::standard_alone;
use mls_labels::{CatSet, Label, SecLabel};
use mls_monitor::{Monitor, replay};
use mls_requests::{Action, Entry, Reason, Reply, Request};
use mls_tables::{Mode, ObjectId, SubjectId};
use std::alloc::{AllocError, Global};

pub const ANN: SubjectId = SubjectId(0);

pub const BOB: SubjectId = SubjectId(1);

pub const PLANS: ObjectId = ObjectId(1);

pub const MEMO: ObjectId = ObjectId(2);

/// A request for an access.
pub fn get(subject: SubjectId, x: Mode, o: ObjectId) -> Request {
    Request {
        subject,
        action: Action::Get(x, o),
    }
}

/// A request for the end of an access.
pub fn release(subject: SubjectId, x: Mode, o: ObjectId) -> Request {
    Request {
        subject,
        action: Action::Release(x, o),
    }
}

/// A subject's request for a level with no category.
pub fn level(subject: SubjectId, level: u8) -> Request {
    let label = SecLabel::of(Label::new(level % 16, CatSet::empty()));
    Request {
        subject,
        action: Action::SubjectLevel(label),
    }
}

/// A journal: bob is denied the memo, goes up a level, gets it, can't go down before he releases it, and then does.
pub fn six_entries() -> [Entry; 6] {
    [
        Entry::new(0, 0, get(BOB, Mode::Read, MEMO), Reply::No(Reason::Star)),
        Entry::new(1, 0, level(BOB, 1), Reply::Yes),
        Entry::new(2, 0, get(BOB, Mode::Read, MEMO), Reply::Yes),
        Entry::new(3, 0, level(BOB, 0), Reply::No(Reason::Star)),
        Entry::new(4, 0, release(BOB, Mode::Read, MEMO), Reply::Yes),
        Entry::new(5, 0, level(BOB, 0), Reply::Yes),
    ]
}

/// A monitor that replayed that journal over the standard start.
pub fn replayed_monitor(alloc: Global) -> Result<Monitor, AllocError> {
    match replay(alloc, standard_alone(alloc)?, &six_entries()) {
        Ok(monitor) => Ok(monitor),
        Err(refused) => {
            drop(refused);
            Err(AllocError)
        }
    }
}
