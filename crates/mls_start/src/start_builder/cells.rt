//! Lists of triples: each once, in the order of triples, and a look at one.
ghost use Rattle.std.specs.Prelude.{◌≡◌, length};
ghost use Rattle.std.specs.FinSet as set;
ghost use Rattle.std.specs.List.Sorted.{IsStrictlySortedBy};
ghost use Rattle.mls_tables.specs.Mode.{mode_number};
ghost use Rattle.mls_tables.specs.Triples.{triple_cmp};

use mls_tables::{Mode, ObjectId, SubjectId};
use std::alloc::Allocator;

/// The place of a triple in the order of triples: by subject, then by object, then by mode.
fn place(cell: &(SubjectId, ObjectId, Mode)) -> (u16, (u16, u8))
    ensures subject { result.0 ≡ cell.now.0 }
    ensures object { result.1.0 ≡ cell.now.1 }
    ensures mode { result.1.1 ≡ mode_number cell.now.2 }
{
    (cell.0.number(), (cell.1.number(), cell.2 as u8))
}

/// Leaves each triple once, in ascending order.
pub(crate) fn drop_repeats<A: Allocator>(cells: &mut Vec<(SubjectId, ObjectId, Mode), A>)
    ensures same { set.from_list {R = triple_cmp} cells.new.items ≡ set.from_list cells.old.items }
    ensures count { length cells.new.items ≡ set.len (set.from_list {R = triple_cmp} cells.old.items) }
    ensures ascending { IsStrictlySortedBy triple_cmp cells.new.items }
{
    cells.sort_unstable_by_key(|cell| place(cell));
    cells.dedup_by_key(|cell| place(cell));
}

/// Whether a triple is in a list that ascends.
pub(crate) fn has_triple(
    cells: &[(SubjectId, ObjectId, Mode)],
    triple: &(SubjectId, ObjectId, Mode),
) -> bool
    requires { IsStrictlySortedBy triple_cmp cells.now }
    ensures { result ≡ set.contains (set.from_list {R = triple_cmp} cells.now) triple.now }
{
    let at = place(triple);
    cells.binary_search_by_key(&at, |cell| place(cell)).is_ok()
}
