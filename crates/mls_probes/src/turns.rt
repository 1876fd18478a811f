//! Turns at a monitor, with work between them.
ghost use Rattle.std.specs.Prelude.{◌≡◌, IfOk};
ghost use Rattle.mls_monitor.specs.Feeds.{AllAt};

use mls_monitor::Monitor;
use mls_requests::{Action, Ask, Request};
use mls_sessions::{Answer, Feed, Stage};
use mls_tables::{Mode, ObjectId, SubjectId};
use std::alloc::{AllocError, Global};
use std::sync::{Mutex, Wait};

/// How many turns a thread takes, and how many rounds it works between two; how many threads look, which take so many
/// looks.
#[derive(Clone, Copy, Debug)]
pub struct Job {
    pub turns: u64,
    pub rounds: u64,
    pub lookers: u64,
    pub looks: u64,
}

/// Works so many rounds, of some eight instructions each.
fn work(seed: u64, rounds: u64) -> u64 {
    let mut number = seed;
    for _ in 0..rounds {
        number ^= number << 13;
        number ^= number >> 7;
        number ^= number << 17;
    }
    number
}

/// What a turn asks for, by what the work came to: a release, which is always granted.
pub fn release(number: u64) -> Request {
    Request {
        subject: SubjectId(0),
        action: Action::Release(Mode::Read, ObjectId((number % 4) as u16)),
    }
}

/// Takes the turns of a job under a mutex.
pub fn take_turns<R: Wait>(rt: &R, monitor: &Mutex<Monitor>, job: Job) {
    let mut number = 1u64;
    for _ in 0..job.turns {
        number = work(number, job.rounds);
        let request = release(number);
        let _ = monitor.lock(rt).submit(0, request);
    }
}

/// What a look asks for.
fn look(number: u64) -> Ask {
    Ask::Check(SubjectId(0), ObjectId((number % 4) as u16), Mode::Read)
}

/// A feed that takes the turns of a job, or that looks.
#[derive(Drop)]
pub struct Turns {
    left: u64,
    rounds: u64,
    number: u64,
    is_looking: bool,
    stage: Stage,
}

impl Turns {
    fn new(job: Job) -> Turns
        ensures { result.stage ≡ Stage.Ready }
    {
        Turns {
            left: job.turns,
            rounds: job.rounds,
            number: 1,
            is_looking: false,
            stage: Stage::Ready,
        }
    }

    /// A feed that looks.
    fn looker(job: Job) -> Turns
        ensures { result.stage ≡ Stage.Ready }
    {
        Turns {
            left: job.looks,
            rounds: 0,
            number: 1,
            is_looking: true,
            stage: Stage::Ready,
        }
    }
}

impl Feed for Turns {
    ghost asks_left = { λ f. f.left };

    ghost stands_at = { λ f. f.stage };

    fn left(&self) -> u64 {
        self.left
    }

    fn stage(&self) -> Stage {
        self.stage
    }

    fn next(&mut self) -> Option<Ask> {
        if self.left == 0 {
            self.stage = Stage::Done;
            return None;
        }
        self.left -= 1;
        self.number = work(self.number, self.rounds);
        self.stage = Stage::Waiting;
        if self.is_looking {
            self.number = self.number.wrapping_add(1);
            return Some(look(self.number));
        }
        Some(Ask::Submit(release(self.number)))
    }

    fn told(&mut self, _answer: &Answer) {
        self.stage = Stage::Ready;
    }

    fn stopped(&mut self) {}
}

/// A feed for each of so many threads that take turns, and for each that looks.
#[tactic(auto, using(crate::proofs::Lists::at_snoc))]
pub fn make_feeds(alloc: Global, threads: u64, job: Job) -> Result<Vec<Turns>, AllocError>
    ensures { IfOk result (λ v. AllAt (λ f. f.stage) Stage.Ready v.items) }
{
    let mut all = Vec::new(alloc);
    for _ in 0..threads {
        all.push(Turns::new(job))?;
    }
    for _ in 0..job.lookers {
        all.push(Turns::looker(job))?;
    }
    Ok(all)
}
