//! Tables of steps, which are taken in one thing whose allocations are refused in turn, and beside it in one that meets
//! no refusal.

use crate::values::seen::sees;
use std::alloc::AllocError;
use std::process::Abort;

/// How often the first step is taken, what is done, what is done after a copy was made, and what is seen of the copy
/// after that.
pub struct Row<'s, S> {
    pub times: u16,
    pub before: &'s [S],
    pub after: &'s [S],
    pub copied: &'s [S],
}

/// Two things that are treated alike, of which the second meets no refusal.
pub trait Pair {
    /// What is done to both, or seen of them.
    type Step;

    /// A copy of the first.
    type Copied: Drop;

    /// Takes a step in the first.
    fn take(&mut self, rt: &impl Abort, step: &Self::Step) -> Result<(), AllocError>;

    /// Takes a step in the second.
    fn follow(&mut self, rt: &impl Abort, step: &Self::Step) -> Result<(), AllocError>;

    /// Asserts that the first is as the second.
    fn compare(&self, rt: &impl Abort);

    /// The same after a step was refused in the first.
    fn compare_refused(&self, rt: &impl Abort);

    /// A copy of the first.
    fn copied(&self) -> Result<Self::Copied, AllocError>;

    /// Asserts that a copy is as the second.
    fn compare_copy(&self, rt: &impl Abort, copy: &Self::Copied);

    /// Sees what a step tells of a copy.
    fn look(rt: &impl Abort, copy: &Self::Copied, step: &Self::Step);
}

/// Takes a step in both, in the first again where an allocation failed: it is then as before.
fn take_in_both<P: Pair>(rt: &impl Abort, pair: &mut P, step: &P::Step) -> Result<(), AllocError> {
    if pair.take(rt, step).is_err() {
        pair.compare_refused(rt);
        pair.take(rt, step)?;
    }
    pair.follow(rt, step)?;
    pair.compare(rt);
    Ok(())
}

/// Takes steps in both.
fn take_all<P: Pair>(rt: &impl Abort, pair: &mut P, steps: &[P::Step]) -> Result<(), AllocError> {
    for step in steps {
        take_in_both(rt, pair, step)?;
    }
    Ok(())
}

/// Takes the first step in both, but for once as often as a row says.
fn repeat<P: Pair>(
    rt: &impl Abort,
    pair: &mut P,
    row: &Row<'_, P::Step>,
) -> Result<(), AllocError> {
    if let Some(first) = row.before.first() {
        for _ in 1..row.times {
            take_in_both(rt, pair, first)?;
        }
    }
    Ok(())
}

/// Copies the first, again where an allocation failed, takes the steps that come after that, and sees what is told of
/// the copy.
fn copy<P: Pair>(rt: &impl Abort, pair: &mut P, row: &Row<'_, P::Step>) -> Result<(), AllocError> {
    let copy = match pair.copied() {
        Ok(copy) => copy,
        Err(_) => pair.copied()?,
    };
    pair.compare_copy(rt, &copy);
    let taken = take_all(rt, pair, row.after);
    for step in row.copied {
        P::look(rt, &copy, step);
    }
    drop(copy);
    taken
}

/// Takes the steps of a row in both.
pub fn take_row<P: Pair>(
    rt: &impl Abort,
    pair: &mut P,
    row: &Row<'_, P::Step>,
) -> Result<(), AllocError> {
    repeat(rt, pair, row)?;
    take_all(rt, pair, row.before)?;
    copy(rt, pair, row)
}

/// Has each allocation refused in turn in runs that take its number and return whether it was asked for: more are than
/// so many.
pub fn refused_in_turn<F: FnMut(u64) -> Result<bool, AllocError>>(
    rt: &impl Abort,
    least: u64,
    mut run: F,
) -> Result<(), AllocError>
    requires { F.IsAlwaysCallable run }
{
    for number in 1..200 {
        if !run(number)? {
            sees(rt, number > least, "how many allocations");
            return Ok(());
        }
    }
    sees(rt, false, "a run without a refusal");
    Ok(())
}
