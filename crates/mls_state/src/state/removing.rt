//! Taking objects out of a state.
ghost use Rattle.std.specs.Prelude.{◌≡◌, ◌≢◌, ◌<◌, IsTrue, OnOk, OnErr, All, not};
ghost use Rattle.std.specs.FinMap as map;
ghost use Rattle.mls_tables.specs.Table.{without_objects};
ghost use Rattle.mls_tree.specs.Tree as hierarchy;
ghost use Rattle.mls_tree.specs.Tree.{IsTree, is_inferior, inferiors, with_parents};
ghost use Rattle.mls_state.specs.State.{is_active};
ghost use Rattle.mls_state.specs.Changes.{without_group};

use crate::state::State;
use mls_tables::{AccessSet, Matrix, ObjectId};
use mls_tree::Tree;
use std::alloc::{AllocError, Allocator};

/// Takes an object that isn't the root and all below it out of the tree, and the triples that name them out of both
/// tables; the list is room for their numbers.
fn take_out<A: Allocator>(
    o: ObjectId,
    group: &mut Vec<ObjectId, A>,
    tree: &mut Tree<A>,
    matrix: &mut Matrix<A>,
    accesses: &mut AccessSet<A>,
) -> Result<(), AllocError>
    requires tree { IsTree tree.old.parent (hierarchy.is_active tree.old.parent) }
    requires object { IsTrue (hierarchy.is_active tree.old.parent o) }
    requires other { o ≢ 0 }
    requires columns { All (λ x. x < matrix.old.columns) (inferiors tree.old.parent o) }
    ensures tree { OnOk result (tree.new ≡
        with_parents tree.old
        (map.retain_keys tree.old.parent (λ x. not (is_inferior tree.old.parent x o))) tree.old.next) }
    ensures matrix { OnOk result (matrix.new ≡ record matrix.old {
      triples = without_objects matrix.old.triples (inferiors tree.old.parent o);
    }) }
    ensures accesses { OnOk result (accesses.new ≡ record accesses.old {
      triples = without_objects accesses.old.triples (inferiors tree.old.parent o);
    }) }
    ensures same_tree { OnErr result (tree.new ≡ tree.old) }
    ensures same_matrix { OnErr result (matrix.new ≡ matrix.old) }
    ensures same_accesses { OnErr result (accesses.new ≡ accesses.old) }
{
    tree.list_inferiors(o, group)?;
    matrix.clear_objects(group);
    accesses.drop_objects(group);
    tree.remove_group(group);
    Ok(())
}

impl<A: Allocator> State<A> {
    /// Takes out an object that isn't the root, all objects below it, and the triples that name them: what a deletion
    /// changes. It doesn't ask who may delete it.
    ///
    /// # Errors
    /// `AllocError` where an allocation failed; the state is then as before.
    pub fn remove_object(&mut self, o: ObjectId) -> Result<(), AllocError>
        requires object { IsTrue (is_active self.old o) }
        requires other { o ≢ 0 }
        ensures ok { OnOk result (self.new ≡ without_group self.old o) }
        ensures err { OnErr result (self.new ≡ self.old) }
    {
        take_out(
            o,
            &mut self.group,
            &mut self.tree,
            &mut self.matrix,
            &mut self.accesses,
        )?;
        self.tree.agrees();
        Ok(())
    }
}
