//! Things in groups, by their keys.
ghost use Rattle.std.specs.Prelude.{◌≡◌, ◌<◌, ◌+◌, ◌-◌, ◌∷◌, ◌++◌, ℕ, List, IfOk, map};
ghost use Rattle.std.specs.List.Sorted.{IsPermutation, IsNonDecreasing};
ghost use Rattle.mls_groups.specs.Groups.{Counts, run_of, runs_from};

use std::alloc::{AllocError, Global};

/// Those that have one key: where their places begin among the members, and how many they are.
#[derive(Clone, Copy)]
pub struct Group {
    pub key: u64,
    pub begin: usize,
    pub count: usize,
}

/// Things in groups.
#[derive(Drop)]
pub struct Grouping {
    /// Each key with the place of what has it, by key and by place: those of one key stand together.
    pub members: Vec<(u64, usize)>,
    /// The groups, by their keys.
    pub groups: Vec<Group>,
}

/// The keys, each with its place.
#[tactic(auto, using(crate::proofs::Runs::keys_push))]
fn numbered(alloc: Global, keys: &[u64]) -> Result<Vec<(u64, usize)>, AllocError>
    ensures { IfOk result (λ members. map (λ m. m.0) members.items ≡ keys.now) }
{
    let mut members = Vec::new(alloc);
    let mut place = 0usize;
    for key in keys {
        members.push((*key, place))?;
        place = place.saturating_add(1);
    }
    Ok(members)
}

/// The key of a member.
fn key_of(member: &(u64, usize)) -> u64
    ensures { result ≡ member.now.0 }
{
    let (key, _) = *member;
    key
}

/// The keys, each with its place, in ascending order.
fn in_order(alloc: Global, keys: &[u64]) -> Result<Vec<(u64, usize)>, AllocError>
    ensures same { IfOk result (λ members. IsPermutation keys.now (map (λ m. m.0) members.items)) }
    ensures sorted { IfOk result (λ members. IsNonDecreasing (map (λ m. m.0) members.items)) }
{
    let mut members = numbered(alloc, keys)?;
    members.sort_by_key(|member| key_of(member))?;
    Ok(members)
}

/// The keys of members.
#[tactic(auto, using(crate::proofs::Runs::keys_push))]
fn keys_of(alloc: Global, members: &[(u64, usize)]) -> Result<Vec<u64>, AllocError>
    ensures { IfOk result (λ keys. keys.items ≡ map (λ m. m.0) members.now) }
{
    let mut keys = Vec::new(alloc);
    for member in members {
        keys.push(key_of(member))?;
    }
    Ok(keys)
}

/// Ends the group of a key that began at a place, where another key follows. The answer is the key of the group that
/// goes on, and where it began.
#[tactic(auto, using(crate::proofs::Runs::follow_same, crate::proofs::Runs::follow_next))]
fn follow(
    groups: &mut Vec<Group>,
    key: u64,
    begin: usize,
    next: u64,
    place: usize,
) -> Result<(u64, usize), AllocError>
    requires { begin < place }
    ensures before { IfOk result (λ p. p.1 < place + 1) }
    ensures runs { IfOk result (λ p. (rest : List ℕ)
        → map run_of groups.new.items ++ runs_from p.0 (place + 1 - p.1) rest
        ≡ map run_of groups.old.items ++ runs_from key (place - begin) (next ∷ rest)) }
{
    if next == key {
        return Ok((key, begin));
    }
    let count = place - begin;
    groups.push(Group { key, begin, count })?;
    Ok((next, place))
}

/// The groups of keys that are in order.
fn groups_of(alloc: Global, keys: &[u64]) -> Result<Vec<Group>, AllocError>
    requires { IsNonDecreasing keys.now }
    ensures { IfOk result (λ groups. Counts keys.now groups.items) }
{
    let mut groups = Vec::new(alloc);
    if keys.is_empty() {
        return Ok(groups);
    }
    let mut key = keys[0];
    let mut begin = 0;
    for place in 1..keys.len() {
        let (next_key, next_begin) = follow(&mut groups, key, begin, keys[place], place)?;
        key = next_key;
        begin = next_begin;
    }
    let count = keys.len() - begin;
    groups.push(Group { key, begin, count })?;
    Ok(groups)
}

/// The groups of members that are in order.
fn member_groups(alloc: Global, members: &[(u64, usize)]) -> Result<Vec<Group>, AllocError>
    requires { IsNonDecreasing (map (λ m. m.0) members.now) }
    ensures { IfOk result (λ groups. Counts (map (λ m. m.0) members.now) groups.items) }
{
    let keys = keys_of(alloc, members)?;
    let groups = groups_of(alloc, &keys);
    drop(keys);
    groups
}

/// Things in groups, by the key of each.
///
/// # Errors
/// `AllocError` where an allocation failed.
#[tactic(auto, using(crate::proofs::Runs::counts_permuted))]
pub fn grouped(alloc: Global, keys: &[u64]) -> Result<Grouping, AllocError>
    ensures { IfOk result (λ grouping. Counts keys.now grouping.groups.items) }
{
    let members = in_order(alloc, keys)?;
    match member_groups(alloc, &members) {
        Ok(groups) => Ok(Grouping { members, groups }),
        Err(fault) => {
            drop(members);
            Err(fault)
        }
    }
}

impl Grouping {
    /// The members of a group, each its key and its place.
    pub fn members_of(&self, group: &Group) -> &[(u64, usize)] {
        let end = group.begin.saturating_add(group.count);
        self.members.get(group.begin..end).unwrap_or(&[])
    }
}
