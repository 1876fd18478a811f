//! How many requests of a subject were granted, denied, or undefined.
ghost use Rattle.std.specs.Prelude.{◌≡◌, map, max, IfOk};
ghost use Rattle.mls_page.specs.Counts.{
  asker,
  asker_of,
  greatest_of,
  if_denied,
  if_granted,
  if_undefined,
  requests_of,
  share_of,
  shares,
  sums_of,
};

use crate::cutting::{Column, cut, sum_of};
use crate::weight::Weighed;
use mls_listings::ReplyCount;
use mls_requests::ReplyWord;
use mls_tables::SubjectId;
use std::alloc::{AllocError, Global};

/// How many requests of a subject were granted, denied, or undefined.
#[derive(Clone, Copy)]
pub(crate) struct Share {
    pub subject: SubjectId,
    pub granted: u64,
    pub denied: u64,
    pub undefined: u64,
}

/// Sums of shares.
#[derive(Clone, Copy)]
pub(crate) struct Sums {
    pub granted: u64,
    pub denied: u64,
    pub undefined: u64,
}

impl Share {
    /// The greatest of its numbers.
    fn greatest(&self) -> u64
        ensures { result ≡ max (max self.now.granted self.now.denied) self.now.undefined }
    {
        self.granted.max(self.denied).max(self.undefined)
    }
}

impl Weighed for Share {
    ghost weight_of = { requests_of };

    /// How many requests there are.
    #[tactic(auto, using(crate::proofs::Counting::capped_more))]
    fn weight(&self) -> u64 {
        self.granted
            .saturating_add(self.denied)
            .saturating_add(self.undefined)
    }
}

/// Counts by their subjects.
struct Asker;

impl Column<ReplyCount> for Asker {
    ghost number_of = { asker };

    fn of(row: &ReplyCount) -> u64 {
        u64::from(row.subject.number())
    }
}

/// Whose the counts of a run are.
fn asker_of(rows: &[ReplyCount]) -> SubjectId
    ensures { result ≡ asker_of rows.now }
{
    match rows.first() {
        Some(row) => row.subject,
        None => SubjectId::new(0),
    }
}

/// How many of so many replies of a first word grant.
fn if_granted(word: ReplyWord, count: u64) -> u64
    ensures { result ≡ if_granted word count }
{
    match word {
        ReplyWord::Yes | ReplyWord::Created => count,
        ReplyWord::No | ReplyWord::Undefined => 0,
    }
}

/// How many of them deny.
fn if_denied(word: ReplyWord, count: u64) -> u64
    ensures { result ≡ if_denied word count }
{
    match word {
        ReplyWord::No => count,
        ReplyWord::Yes | ReplyWord::Created | ReplyWord::Undefined => 0,
    }
}

/// How many of them are undefined.
fn if_undefined(word: ReplyWord, count: u64) -> u64
    ensures { result ≡ if_undefined word count }
{
    match word {
        ReplyWord::Undefined => count,
        ReplyWord::Yes | ReplyWord::Created | ReplyWord::No => 0,
    }
}

/// What replies grant.
struct Granted;

impl Column<ReplyCount> for Granted {
    ghost number_of = { λ r. if_granted r.word r.entries };

    fn of(row: &ReplyCount) -> u64 {
        if_granted(row.word, row.entries)
    }
}

/// What they deny.
struct Denied;

impl Column<ReplyCount> for Denied {
    ghost number_of = { λ r. if_denied r.word r.entries };

    fn of(row: &ReplyCount) -> u64 {
        if_denied(row.word, row.entries)
    }
}

/// What is undefined.
struct Undefined;

impl Column<ReplyCount> for Undefined {
    ghost number_of = { λ r. if_undefined r.word r.entries };

    fn of(row: &ReplyCount) -> u64 {
        if_undefined(row.word, row.entries)
    }
}

/// The share of the counts of a subject.
fn share_of(rows: &[ReplyCount]) -> Share
    ensures { result ≡ share_of rows.now }
{
    Share {
        subject: asker_of(rows),
        granted: sum_of::<ReplyCount, Granted>(rows),
        denied: sum_of::<ReplyCount, Denied>(rows),
        undefined: sum_of::<ReplyCount, Undefined>(rows),
    }
}

/// The shares of runs.
fn shares_in(alloc: Global, runs: &[&[ReplyCount]]) -> Result<Vec<Share>, AllocError>
    ensures { IfOk result (λ found. found.items ≡ map share_of (map (λ run. run.now) runs.now)) }
{
    let mut found = Vec::new(alloc);
    for run in runs {
        found.push(share_of(run))?;
    }
    Ok(found)
}

/// The shares of the subjects of a summary, in its order: the counts of a subject stand together.
///
/// # Errors
/// `AllocError` where an allocation failed.
pub(crate) fn shares_of(alloc: Global, replies: &[ReplyCount]) -> Result<Vec<Share>, AllocError>
    ensures { IfOk result (λ found. found.items ≡ shares replies.now) }
{
    let runs = cut::<ReplyCount, Asker>(alloc, replies)?;
    let found = shares_in(alloc, &runs);
    drop(runs);
    found
}

/// The greatest number of some shares.
pub(crate) fn greatest_of(shares: &[Share]) -> u64
    ensures { result ≡ greatest_of shares.now }
{
    shares.iter().fold(0, |most, it| it.greatest().max(most))
}

/// What shares have of granted requests.
struct GrantedSum;

impl Column<Share> for GrantedSum {
    ghost number_of = { λ s. s.granted };

    fn of(row: &Share) -> u64 {
        row.granted
    }
}

/// What they have of denied ones.
struct DeniedSum;

impl Column<Share> for DeniedSum {
    ghost number_of = { λ s. s.denied };

    fn of(row: &Share) -> u64 {
        row.denied
    }
}

/// What they have of undefined ones.
struct UndefinedSum;

impl Column<Share> for UndefinedSum {
    ghost number_of = { λ s. s.undefined };

    fn of(row: &Share) -> u64 {
        row.undefined
    }
}

/// The sums of some shares.
pub(crate) fn sums_of(shares: &[Share]) -> Sums
    ensures { result ≡ sums_of shares.now }
{
    Sums {
        granted: sum_of::<Share, GrantedSum>(shares),
        denied: sum_of::<Share, DeniedSum>(shares),
        undefined: sum_of::<Share, UndefinedSum>(shares),
    }
}
