//! The counterparts of the first start's objects.
ghost use Rattle.std.specs.Prelude.{◌≡◌, ◌+◌, ◌<◌, ℕ, List, Option, map, set, get_or, IfOk};
ghost use Rattle.mls_tables.specs.declared.limits.TheConstants.{MAX_OBJECTS};
ghost use Rattle.mls_compare.specs.Carriers.{Holds, objects_in, if_still, from_the_beginning};
ghost use Rattle.mls_compare.specs.Carrying.{carried_object};
ghost use Rattle.mls_differences.specs.Counterparts.{counterparts};
ghost use Rattle.mls_compare.specs.Following.{after_create, after_other, objects_after};

use mls_differences::counterpart_object;
use mls_lines::Names;
use mls_requests::Reply;
use mls_tables::{MAX_OBJECTS, ObjectId};
use std::alloc::{AllocError, Global};

/// How many numbers an object may have.
const NUMBERS: usize = 65_536;

/// A counterpart, and the time since when it is one.
#[derive(Clone, Copy)]
pub(crate) struct Since {
    pub object: ObjectId,
    pub time: u64,
}

/// The counterparts of the first start's objects, by number. One that has ceased to be one stays in its place: it
/// counts only where it became one no earlier than its number last ceased to be any object's.
#[derive(Drop)]
pub(crate) struct ObjectTable {
    /// By the numbers of the first start.
    pub objects: Vec<Option<Since>>,
    /// When each number of the second start last ceased to be a counterpart.
    pub ceased: Vec<u64>,
}

/// The time at which a number last ceased to be a counterpart.
fn ceased_at(ceased: &[u64], p: ObjectId) -> u64
    ensures { result ≡ get_or ceased.now p 0 }
{
    match ceased.get(p.number() as usize) {
        Some(time) => *time,
        None => 0,
    }
}

/// A counterpart, where it still is one.
fn if_still(ceased: &[u64], slot: &Option<Since>) -> Option<ObjectId>
    ensures { result ≡ if_still ceased.now slot.now }
{
    match slot {
        Some(since) => {
            if ceased_at(ceased, since.object) <= since.time {
                Some(since.object)
            } else {
                None
            }
        }
        None => None,
    }
}

/// Notes that a number ceases to be a counterpart.
fn cease(ceased: &mut Vec<u64>, p: ObjectId, time: u64)
    ensures time { ceased.new.items ≡ set ceased.old.items p time }
    ensures number { p < 65536 }
{
    let place = p.number() as usize;
    if place < ceased.len() {
        ceased[place] = time;
    }
}

/// Puts a counterpart, or none, in an object's place.
fn put(objects: &mut Vec<Option<Since>>, o: ObjectId, slot: Option<Since>)
    ensures { objects.new.items ≡ set objects.old.items o slot }
{
    let place = o.number() as usize;
    if place < objects.len() {
        objects[place] = slot;
    }
}

/// A counterpart, where there is one, from the beginning.
fn from_the_beginning(o: Option<ObjectId>) -> Option<Since>
    ensures { result ≡ from_the_beginning o }
{
    match o {
        Some(object) => Some(Since { object, time: 0 }),
        None => None,
    }
}

/// The counterparts by name, from the beginning.
fn objects_by_name(
    alloc: Global,
    first: &Names,
    second: &Names,
) -> Result<Vec<Option<Since>>, AllocError>
    ensures { IfOk result (λ objects. objects.items
        ≡ map from_the_beginning (counterparts first.now.objects second.now.objects MAX_OBJECTS)) }
{
    let mut objects = Vec::new(alloc);
    for n in 0..MAX_OBJECTS {
        let o = counterpart_object(first, second, ObjectId(n));
        objects.push(from_the_beginning(o))?;
    }
    Ok(objects)
}

impl ObjectTable {
    /// The counterparts by name: no number has ceased to be one.
    pub(crate) fn new(
        alloc: Global,
        first: &Names,
        second: &Names,
    ) -> Result<ObjectTable, AllocError>
        ensures { IfOk result (λ table. Holds 1
            (counterparts first.now.objects second.now.objects MAX_OBJECTS) table) }
    {
        let objects = objects_by_name(alloc, first, second)?;
        let ceased = Vec::from_elem(alloc, 0u64, NUMBERS)?;
        Ok(ObjectTable { objects, ceased })
    }

    /// The counterpart of an object, where it has one.
    pub(crate) fn get(&self, o: ObjectId) -> Option<ObjectId>
        ensures { result ≡ carried_object (objects_in self.now) o }
    {
        match self.objects.get(o.number() as usize) {
            Some(slot) => if_still(&self.ceased, slot),
            None => None,
        }
    }

    /// Goes on by the second start's reply, where the first start made this object.
    fn follow_create(&mut self, o: ObjectId, there: Reply, time: u64)
        ensures { (objects : List (Option ℕ)) → Holds time objects self.old
            → Holds (time + 1) (after_create o there objects) self.new }
    {
        match there {
            Reply::Created(p) => {
                cease(&mut self.ceased, p, time);
                put(&mut self.objects, o, Some(Since { object: p, time }));
            }
            Reply::Yes | Reply::No(_) | Reply::Undefined => put(&mut self.objects, o, None),
        }
    }

    /// Goes on by the second start's reply, where the first start made no object.
    #[tactic(auto, using(crate::proofs::Tables::later))]
    fn follow_other(&mut self, there: Reply, time: u64)
        ensures { (objects : List (Option ℕ)) → Holds time objects self.old
            → Holds (time + 1) (after_other there objects) self.new }
    {
        match there {
            Reply::Created(p) => cease(&mut self.ceased, p, time),
            Reply::Yes | Reply::No(_) | Reply::Undefined => {}
        }
    }

    /// Goes on by the two replies to a request, the first start's first.
    pub(crate) fn follow(&mut self, here: Reply, there: Reply, time: u64)
        ensures { (objects : List (Option ℕ)) → Holds time objects self.old
            → Holds (time + 1) (objects_after here there objects) self.new }
    {
        match here {
            Reply::Created(o) => self.follow_create(o, there, time),
            Reply::Yes | Reply::No(_) | Reply::Undefined => self.follow_other(there, time),
        }
    }
}
