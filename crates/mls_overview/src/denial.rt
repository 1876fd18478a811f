//! Denied entries, by subject, object and reason.
ghost use Rattle.std.specs.Prelude.{◌≡◌, ◌≤◌, ◌++◌, ◌∷◌, [], map, All, IfOk, OnOk};
ghost use Rattle.mls_overview.specs.Denials.{IsGrouped, IsOf, cause_key, key_denied, keys_denied};
ghost use Rattle.mls_overview.specs.Denials.{about, object_key as key_of_object};
ghost use Rattle.mls_overview.specs.Denials.{said_by, said_of};

use mls_groups::{Group, Grouping, grouped};
use mls_requests::{Action, Entry, Reason, Reply};
use mls_tables::{ObjectId, SubjectId};
use std::alloc::{AllocError, Global};

/// The denied entries of a subject about an object, or about none, for one reason.
#[derive(Clone, Copy)]
pub struct Denial {
    /// The number of the three.
    pub key: u64,
    /// How many they are.
    pub count: u64,
    /// The place of the last of them.
    pub last: usize,
}

/// The object that an action is about: of a creation the parent, of a change of one's own level none.
pub fn object_about(action: &Action) -> Option<ObjectId>
    ensures { result ≡ about action.now }
{
    match *action {
        Action::Get(_, o) => Some(o),
        Action::Release(_, o) => Some(o),
        Action::Give(_, _, o) => Some(o),
        Action::Rescind(_, _, o) => Some(o),
        Action::Create(o, _, _) => Some(o),
        Action::Delete(o) => Some(o),
        Action::ObjectLevel(o, _) => Some(o),
        Action::SubjectLevel(_) => None,
    }
}

/// The number of an object, or of none: each has its own.
fn object_key(object: Option<ObjectId>) -> u64
    ensures key { result ≡ key_of_object object }
    ensures few { result ≤ 65536 }
{
    match object {
        Some(o) => u64::from(o.number()) + 1,
        None => 0,
    }
}

/// The number of a subject, an object and a reason: each three have their own.
fn key_of(subject: SubjectId, object: Option<ObjectId>, reason: Reason) -> u64
    ensures { result ≡ cause_key subject object reason }
{
    (u64::from(subject.number()) * 131_072 + object_key(object)) * 16 + u64::from(reason.place())
}

/// Adds the number of an entry, where it was denied, and its place.
fn add(
    keys: &mut Vec<u64>,
    places: &mut Vec<usize>,
    place: usize,
    entry: &Entry,
) -> Result<(), AllocError>
    ensures { OnOk result (keys.new.items ≡ keys.old.items ++ key_denied entry.now) }
{
    match entry.reply {
        Reply::No(reason) => {
            let object = object_about(&entry.request.action);
            keys.push(key_of(entry.request.subject, object, reason))?;
            places.push(place)?;
        }
        Reply::Yes => {}
        Reply::Created(_) => {}
        Reply::Undefined => {}
    }
    Ok(())
}

/// The numbers of the denied ones of some entries, and their places.
fn denied(keys: &mut Vec<u64>, places: &mut Vec<usize>, entries: &[Entry]) -> Result<(), AllocError>
    requires { keys.old.items ≡ [] }
    ensures { OnOk result (keys.new.items ≡ keys_denied entries.now) }
{
    let mut place = 0usize;
    for entry in entries {
        add(keys, places, place, entry)?;
        place = place.saturating_add(1);
    }
    Ok(())
}

/// The place among all entries of the last member of a group.
fn last_of(grouping: &Grouping, group: &Group, places: &[usize]) -> usize {
    match grouping.members_of(group).last() {
        Some((_, index)) => places.get(*index).copied().unwrap_or(0),
        None => 0,
    }
}

/// The denied entries of a group, of which the last is this one.
///
/// # Errors
/// `AllocError` where the entry isn't of the group.
fn denial_of(group: &Group, last: usize, entry: &Entry) -> Result<Denial, AllocError>
    ensures said { IfOk result (λ denial. said_of denial ≡ said_by group.now) }
    ensures key { IfOk result (λ denial. key_denied entry.now ≡ denial.key ∷ []) }
    ensures last { IfOk result (λ denial. denial.last ≡ last) }
{
    let Reply::No(reason) = entry.reply else {
        return Err(AllocError);
    };
    let object = object_about(&entry.request.action);
    let is_same = key_of(entry.request.subject, object, reason) == group.key;
    if !is_same {
        return Err(AllocError);
    }
    Ok(Denial {
        key: group.key,
        count: group.count as u64,
        last,
    })
}

/// The denied entries of the group at a place.
#[tactic(auto, using(crate::proofs::Grouped::last_at))]
fn denial_at(
    entries: &[Entry],
    grouping: &Grouping,
    group: &Group,
    places: &[usize],
) -> Result<Denial, AllocError>
    ensures said { IfOk result (λ denial. said_of denial ≡ said_by group.now) }
    ensures last { IfOk result (λ denial. IsOf entries.now denial) }
{
    let last = last_of(grouping, group, places);
    match entries.get(last) {
        Some(entry) => denial_of(group, last, entry),
        None => Err(AllocError),
    }
}

/// The denied entries of some groups.
#[tactic(auto, using(crate::proofs::Grouped::said_more, crate::proofs::Grouped::last_more))]
fn denials_of(
    alloc: Global,
    entries: &[Entry],
    grouping: &Grouping,
    groups: &[Group],
    places: &[usize],
) -> Result<Vec<Denial>, AllocError>
    ensures said { IfOk result (λ found. map said_of found.items ≡ map said_by groups.now) }
    ensures last { IfOk result (λ found. All (IsOf entries.now) found.items) }
{
    let mut found = Vec::new(alloc);
    for group in groups {
        let denial = denial_at(entries, grouping, group, places)?;
        found.push(denial)?;
    }
    Ok(found)
}

/// The denied ones of some entries, which have these numbers and places.
#[tactic(auto, using(crate::proofs::Grouped::is_grouped))]
fn grouped_denials(
    alloc: Global,
    entries: &[Entry],
    keys: &[u64],
    places: &[usize],
) -> Result<Vec<Denial>, AllocError>
    requires { keys.now ≡ keys_denied entries.now }
    ensures { IfOk result (λ found. IsGrouped entries.now found.items) }
{
    let grouping = grouped(alloc, keys)?;
    let found = denials_of(alloc, entries, &grouping, &grouping.groups, places);
    drop(grouping);
    found
}

/// The denied ones of some entries, by subject, object and reason.
///
/// # Errors
/// `AllocError` where an allocation failed.
pub fn denials(alloc: Global, entries: &[Entry]) -> Result<Vec<Denial>, AllocError>
    ensures { IfOk result (λ found. IsGrouped entries.now found.items) }
{
    let mut keys = Vec::new(alloc);
    let mut places = Vec::new(alloc);
    denied(&mut keys, &mut places, entries)?;
    let found = grouped_denials(alloc, entries, &keys, &places);
    drop(places);
    drop(keys);
    found
}
