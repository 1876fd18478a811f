//! What of a comparison is asked for.
ghost use Rattle.std.specs.Prelude.{◌≡◌};
ghost use Rattle.mls_compare.specs.Asked.{is_asked, is_from, is_to};

use crate::entry_row::EntryRow;
use mls_differences::{Scope, is_wanted};

/// What of a comparison is asked for.
#[derive(Clone, Copy)]
pub struct Asked {
    pub scope: Scope,
    /// Of the entries of a journal those from this number on.
    pub from: Option<u64>,
    /// Of the entries of a journal those up to this number.
    pub to: Option<u64>,
}

/// Whether a number is no less than the first that is asked for, where one is.
fn is_from(from: Option<u64>, number: u64) -> bool
    ensures { result ≡ is_from from number }
{
    match from {
        Some(first) => first <= number,
        None => true,
    }
}

/// Whether a number is no greater than the last that is asked for, where one is.
fn is_to(to: Option<u64>, number: u64) -> bool
    ensures { result ≡ is_to to number }
{
    match to {
        Some(last) => number <= last,
        None => true,
    }
}

/// Whether an entry that a second start answers otherwise is asked for.
pub(crate) fn is_asked(asked: &Asked, row: &EntryRow) -> bool
    ensures { result ≡ is_asked asked.now row.now }
{
    is_wanted(asked.scope.broken, &row.entry.reply, &row.second)
        && is_from(asked.from, row.entry.number)
        && is_to(asked.to, row.entry.number)
}
