//! Columns of rows: cuts between rows that differ there, and sums.
ghost use Rattle.std.specs.Prelude.{◌≡◌, ◌≤◌, ◌<◌, ◌+◌, ◌++◌, ℕ, length, map, IfOk, OnOk};
ghost use Rattle.std.specs.List.{sum_by};
ghost use Rattle.mls_page.specs.Gets.{capped};
ghost use Rattle.mls_page.specs.Runs.{IsCut, ended, goes_with, runs_by};

use std::alloc::{AllocError, Global};

/// A column of rows: a number that each has.
pub(crate) trait Column<R> {
    ghost number_of: { R → ℕ };

    /// The number of a row.
    fn of(row: &R) -> u64
        ensures { result ≡ number_of row.now };
}

/// The sum of a column, or the greatest number of 64 bits where it is above that.
#[tactic(auto, using(crate::proofs::Counting::sum_next))]
pub(crate) fn sum_of<R, C: Column<R>>(rows: &[R]) -> u64
    ensures { result ≡ capped (sum_by C.number_of rows.now) }
{
    let mut sum = 0u64;
    for row in rows {
        sum = sum.saturating_add(C::of(row));
    }
    sum
}

/// Whether a row goes on with a run: it has the number of the first.
fn goes_with<R, C: Column<R>>(run: &[R], row: &R) -> bool
    ensures { result ≡ goes_with C.number_of run.now row.now }
{
    match run.first() {
        Some(first) => C::of(row) == C::of(first),
        None => true,
    }
}

/// Goes on with the row at a place: in the run that begins at another place, or in one of its own. The answer is where
/// its run begins.
#[tactic(auto, using(crate::proofs::Cuts::same_run, crate::proofs::Cuts::next_run))]
fn follow<'a, R, C: Column<R>>(
    found: &mut Vec<&'a [R]>,
    rows: &'a [R],
    begin: usize,
    place: usize,
) -> Result<usize, AllocError>
    requires before { begin ≤ place }
    requires within { place < length rows.now }
    ensures before { IfOk result (λ next. next ≤ place) }
    ensures cut { IfOk result (λ next.
        IsCut C.number_of rows.now begin place (map (λ run. run.now) found.old.items)
        → IsCut C.number_of rows.now next (place + 1) (map (λ run. run.now) found.new.items)) }
{
    let run = &rows[begin..place];
    if goes_with::<R, C>(run, &rows[place]) {
        return Ok(begin);
    }
    found.push(run)?;
    Ok(place)
}

/// Ends a run, where it has rows.
fn end_run<'a, R>(found: &mut Vec<&'a [R]>, run: &'a [R]) -> Result<(), AllocError>
    ensures { OnOk result
        (map (λ run. run.now) found.new.items ≡ map (λ run. run.now) found.old.items ++ ended run.now) }
{
    if !run.is_empty() {
        found.push(run)?;
    }
    Ok(())
}

/// The runs of rows that have the same number in a column.
///
/// # Errors
/// `AllocError` where an allocation failed.
#[tactic(auto, using(crate::proofs::Cuts::all_cut))]
pub(crate) fn cut<'a, R, C: Column<R>>(
    alloc: Global,
    rows: &'a [R],
) -> Result<Vec<&'a [R]>, AllocError>
    ensures { IfOk result (λ runs. map (λ run. run.now) runs.items ≡ runs_by C.number_of rows.now) }
{
    let mut found = Vec::new(alloc);
    let mut begin = 0;
    for place in 0..rows.len() {
        begin = follow::<R, C>(&mut found, rows, begin, place)?;
    }
    end_run(&mut found, &rows[begin..])?;
    Ok(found)
}
