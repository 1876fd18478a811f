//! What is kept of the uses of permissions, by access.
ghost use Rattle.std.specs.Prelude.{◌≡◌, ◌<◌, ◌+◌, ◌*◌, None, Some, OnOk, if◌then◌else◌};
ghost use Rattle.mls_tables.specs.Mode.{mode_number};
ghost use Rattle.mls_tables.specs.Triples.{Triple, is_triple};
ghost use Rattle.mls_spans.specs.Kept.{key_of, kept};

use crate::uses::Uses;
use mls_tables::{Mode, ObjectId, SubjectId};
use std::alloc::{AllocError, Global};
use std::collections::BTreeMap;

/// The uses of some accesses, by the accesses' numbers.
#[derive(Drop)]
pub(crate) struct Tally {
    uses: BTreeMap<u64, Uses>,
}

/// The place of a mode in the order of modes.
fn mode_number(x: Mode) -> u64
    ensures { result ≡ mode_number x }
{
    match x {
        Mode::Execute => 0,
        Mode::Read => 1,
        Mode::Append => 2,
        Mode::Write => 3,
    }
}

/// The number of an access: each has its own.
fn key(access: &(SubjectId, ObjectId, Mode)) -> u64
    ensures number { result ≡ key_of access.now }
    ensures object { access.now.1 < 65536 }
{
    let (s, o, x) = access;
    u64::from(s.number()) * 262_144 + u64::from(o.number()) * 4 + mode_number(*x)
}

impl Tally {
    /// Nothing is kept yet.
    pub(crate) fn new(alloc: Global) -> Tally
        ensures { (t : Triple) → kept result t ≡ None }
    {
        Tally {
            uses: BTreeMap::new(alloc),
        }
    }

    /// What is kept of an access, where something is.
    pub(crate) fn at(&self, access: &(SubjectId, ObjectId, Mode)) -> Option<Uses>
        ensures { result ≡ kept self.now access.now }
    {
        let key = key(access);
        self.uses.get(&key).copied()
    }

    /// Keeps the uses of an access, in place of what is kept of it.
    pub(crate) fn put(
        &mut self,
        access: &(SubjectId, ObjectId, Mode),
        uses: Uses,
    ) -> Result<(), AllocError>
        ensures { OnOk result ((t : Triple) → t.1 < 65536
            → kept self.new t ≡ if is_triple t access.now then Some uses else kept self.old t) }
    {
        let key = key(access);
        self.uses.insert(key, uses)?;
        Ok(())
    }
}
