//! Listing a pair of a subject and an object beside the cells that say what is accessed.
ghost use Rattle.std.specs.Prelude.{◌≡◌, ℕ, ◌<◌, ◌==◌, ◌&&◌, ◌||◌, Bool, OnOk, OnErr, not, length};
ghost use Rattle.mls_tables.specs.Held.{is_held, Indexes, IsIndexed};
ghost use Rattle.mls_tables.specs.Rows.{TellRelation};

use crate::ids::{ObjectId, SubjectId};
use crate::index::Index;
use crate::matrix::Matrix;
use std::alloc::{AllocError, Allocator};

/// Whether a subject doesn't access an object, in any mode.
fn is_free<A: Allocator>(matrix: &Matrix<A>, s: SubjectId, o: ObjectId) -> bool
    requires subject { s < matrix.now.subjects }
    requires object { o < matrix.now.columns }
    ensures { result ≡ not (is_held matrix.now.triples s o) }
{
    matrix.modes(s, o).is_empty()
}

/// Lists a pair that is about to be accessed, unless it is listed.
///
/// # Errors
/// Where allocation fails. The lists are then unchanged.
pub(crate) fn list_pair<A: Allocator>(
    matrix: &Matrix<A>,
    index: &mut Index<A>,
    s: SubjectId,
    o: ObjectId,
) -> Result<(), AllocError>
    requires subject { s < matrix.now.subjects }
    requires object { o < matrix.now.columns }
    requires indexed { IsIndexed matrix.now index.old.objects.lists index.old.subjects.lists }
    ensures rows { length index.new.objects.lists ≡ length index.old.objects.lists }
    ensures columns { length index.new.subjects.lists ≡ length index.old.subjects.lists }
    ensures ok { OnOk result
        (Indexes (λ a b. (a == s && b == o)
        || is_held matrix.now.triples a b) index.new.objects.lists index.new.subjects.lists) }
    ensures err_objects { OnErr result (index.new.objects.lists ≡ index.old.objects.lists) }
    ensures err_subjects { OnErr result (index.new.subjects.lists ≡ index.old.subjects.lists) }
{
    if is_free(matrix, s, o) {
        index.link(s, o)?;
    }
    Ok(())
}

/// Takes a pair off the lists of a relation, where it isn't accessed any more.
pub(crate) fn unlist_pair<A: Allocator>(
    matrix: &Matrix<A>,
    index: &mut Index<A>,
    s: SubjectId,
    o: ObjectId,
)
    requires subject { s < matrix.now.subjects }
    requires object { o < matrix.now.columns }
    requires row { s < length index.old.objects.lists }
    requires column { o < length index.old.subjects.lists }
    requires told { TellRelation index.old.objects.lists }
    ensures rows { length index.new.objects.lists ≡ length index.old.objects.lists }
    ensures columns { length index.new.subjects.lists ≡ length index.old.subjects.lists }
    ensures listed { (p : ℕ → ℕ → Bool) → Indexes p index.old.objects.lists index.old.subjects.lists →
        Indexes (λ a b. p a b
        && (is_held matrix.now.triples s o
        || not (a == s && b == o))) index.new.objects.lists index.new.subjects.lists }
{
    if is_free(matrix, s, o) {
        index.unlink(s, o);
    }
}
