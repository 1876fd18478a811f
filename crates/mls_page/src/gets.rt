//! How many gets of permissions there are, in columns.
ghost use Rattle.std.specs.Prelude.{◌≡◌};
ghost use Rattle.mls_page.specs.Gets.{denied_of, gets_of, granted_of, number_where, titled};
ghost use Rattle.mls_page.specs.Tables.{cell_of};

use crate::cell::Cell;
use crate::cutting::{Column, sum_of};
use mls_spans::Usage;

/// How many gets of permissions there are: a column that would have only zeros isn't there.
#[derive(Clone, Copy)]
pub(crate) struct Gets {
    pub granted: u64,
    pub denied: u64,
}

/// The granted gets of permissions.
struct Granted;

impl Column<Usage> for Granted {
    ghost number_of = { λ u. u.uses.granted };

    fn of(row: &Usage) -> u64 {
        row.uses.granted
    }
}

/// The denied ones.
struct Denied;

impl Column<Usage> for Denied {
    ghost number_of = { λ u. u.uses.denied };

    fn of(row: &Usage) -> u64 {
        row.uses.denied
    }
}

/// How many gets of permissions were granted.
pub(crate) fn granted_of(usages: &[Usage]) -> u64
    ensures { result ≡ granted_of usages.now }
{
    sum_of::<Usage, Granted>(usages)
}

/// How many were denied.
pub(crate) fn denied_of(usages: &[Usage]) -> u64
    ensures { result ≡ denied_of usages.now }
{
    sum_of::<Usage, Denied>(usages)
}

/// How many gets of all permissions there are.
pub(crate) fn gets_of(usages: &[Usage]) -> Gets
    ensures { result ≡ gets_of usages.now }
{
    Gets {
        granted: granted_of(usages),
        denied: denied_of(usages),
    }
}

/// The title of a column, where it has something but zeros.
pub(crate) fn titled(title: &'static str, sum: u64) -> &'static str
    ensures { result.now ≡ titled title.now sum }
{
    if sum == 0 { "" } else { title }
}

/// The cell of a number, where its column has something but zeros.
pub(crate) fn number_where(sum: u64, number: u64) -> Cell<'static>
    ensures { cell_of result ≡ number_where sum number }
{
    if sum == 0 {
        Cell::Nothing
    } else {
        Cell::Number(number)
    }
}
