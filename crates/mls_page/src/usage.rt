//! How the permissions of a subject were used.
ghost use Rattle.std.specs.Prelude.{◌≡◌, map, IfOk};
ghost use Rattle.mls_page.specs.Usage.{holder, holder_of, last_of, later, total_of, totals};

use crate::cutting::{Column, cut};
use crate::gets::{denied_of, granted_of};
use crate::weight::Weighed;
use mls_spans::{Usage, count_unused};
use mls_tables::SubjectId;
use std::alloc::{AllocError, Global};

/// How the permissions of a subject were used, together.
#[derive(Clone, Copy)]
pub(crate) struct Total {
    pub subject: SubjectId,
    pub permissions: u64,
    /// How many of them were never granted.
    pub unused: u64,
    pub granted: u64,
    pub denied: u64,
    /// The last entry that got one of them, or was denied one.
    pub last: Option<u64>,
}

impl Weighed for Total {
    ghost weight_of = { λ t. t.unused };

    /// How many permissions were never granted.
    fn weight(&self) -> u64 {
        self.unused
    }
}

/// Whose a permission is.
fn holder(usage: &Usage) -> SubjectId
    ensures { result ≡ holder usage.now }
{
    let (s, _, _) = usage.access;
    s
}

/// Permissions by their subjects.
struct ByHolder;

impl Column<Usage> for ByHolder {
    ghost number_of = { holder };

    fn of(row: &Usage) -> u64 {
        u64::from(holder(row).number())
    }
}

/// Whose the permissions of a run are.
fn holder_of(usages: &[Usage]) -> SubjectId
    ensures { result ≡ holder_of usages.now }
{
    match usages.first() {
        Some(usage) => holder(usage),
        None => SubjectId::new(0),
    }
}

/// The later of two entries.
fn later(a: Option<u64>, b: Option<u64>) -> Option<u64>
    ensures { result ≡ later a b }
{
    match (a, b) {
        (Some(a), Some(b)) => Some(a.max(b)),
        (None, other) | (other, None) => other,
    }
}

/// The last entry that got one of some permissions, or was denied one.
#[tactic(auto, using(crate::proofs::Counting::fold_next))]
fn last_of(usages: &[Usage]) -> Option<u64>
    ensures { result ≡ last_of usages.now }
{
    let mut last = None;
    for usage in usages {
        last = later(last, usage.uses.last);
    }
    last
}

/// How the permissions of a run were used.
fn total_of(usages: &[Usage]) -> Total
    ensures { result ≡ total_of usages.now }
{
    Total {
        subject: holder_of(usages),
        permissions: usages.len() as u64,
        unused: count_unused(usages),
        granted: granted_of(usages),
        denied: denied_of(usages),
        last: last_of(usages),
    }
}

/// The totals of runs.
fn totals_of(alloc: Global, runs: &[&[Usage]]) -> Result<Vec<Total>, AllocError>
    ensures { IfOk result (λ found. found.items ≡ map total_of (map (λ run. run.now) runs.now)) }
{
    let mut found = Vec::new(alloc);
    for run in runs {
        found.push(total_of(run))?;
    }
    Ok(found)
}

/// The totals of permissions, by subject: the permissions of a subject stand together.
///
/// # Errors
/// `AllocError` where an allocation failed.
pub(crate) fn totals(alloc: Global, usages: &[Usage]) -> Result<Vec<Total>, AllocError>
    ensures { IfOk result (λ found. found.items ≡ totals usages.now) }
{
    let runs = cut::<Usage, ByHolder>(alloc, usages)?;
    let found = totals_of(alloc, &runs);
    drop(runs);
    found
}
