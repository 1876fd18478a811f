//! What a subject may do with an object by the rules on permissions and on the tree.
ghost use Rattle.std.specs.Prelude.{◌≡◌, ◌++◌, IsTrue, All, map, OnOk};
ghost use Rattle.std.specs.List.{flat_map};
ghost use Rattle.mls_state.specs.State.{is_active};
ghost use Rattle.mls_review.specs.Granted.{change_view};
ghost use Rattle.mls_review.specs.Powers.{is_granted, may, has_power, power_over};

use crate::change::Change;
use mls_requests::{Action, Reply, Request};
use mls_rules::decide;
use mls_state::State;
use mls_tables::{Mode, ObjectId, SubjectId};
use std::alloc::{AllocError, Allocator};

/// A power over an object, in the order of the rules.
#[derive(Clone, Copy, Debug, PartialEq, Eq)]
pub enum Power {
    /// To give permissions on it, and to rescind them.
    Gives,
    /// To create objects below it, with some labels.
    Creates,
    /// To delete it, and all objects below it.
    Deletes,
}

/// Whether a reply grants.
fn is_granted(reply: Reply) -> bool
    ensures { result ≡ is_granted reply }
{
    match reply {
        Reply::Yes | Reply::Created(_) => true,
        Reply::No(_) | Reply::Undefined => false,
    }
}

/// Whether what a subject asks is granted.
pub(crate) fn may<A: Allocator>(state: &State<A>, s: SubjectId, action: Action) -> bool
    ensures { result ≡ may state.now s action }
{
    let asked = Request { subject: s, action };
    is_granted(decide(state, &asked))
}

impl Power {
    /// Whether a subject has the power over an object.
    fn is_had<A: Allocator>(self, state: &State<A>, s: SubjectId, o: ObjectId) -> bool
        requires { IsTrue (is_active state.now o) }
        ensures { result ≡ has_power state.now s self o }
    {
        match self {
            Power::Gives => may(state, s, Action::Give(Mode::Read, s, o)),
            Power::Creates => {
                let labels = *state.labels(o);
                may(
                    state,
                    s,
                    Action::Create(o, labels.security, labels.integrity),
                )
            }
            Power::Deletes => may(state, s, Action::Delete(o)),
        }
    }

    /// Adds the power over an object, where a subject has it.
    fn push_had<A: Allocator>(
        self,
        found: &mut Vec<Change>,
        state: &State<A>,
        s: SubjectId,
        o: ObjectId,
    ) -> Result<(), AllocError>
        requires { IsTrue (is_active state.now o) }
        ensures { OnOk result
            (map change_view found.new.items ≡ map change_view found.old.items ++ power_over state.now s self o) }
    {
        if self.is_had(state, s, o) {
            found.push(Change::Over(s, self, o))?;
        }
        Ok(())
    }

    /// Adds the power over some objects, of those over which a subject has it.
    pub(crate) fn push_all_had<A: Allocator>(
        self,
        found: &mut Vec<Change>,
        state: &State<A>,
        s: SubjectId,
        objects: &[ObjectId],
    ) -> Result<(), AllocError>
        requires { All (λ o. IsTrue (is_active state.now o)) objects.now }
        ensures { OnOk result (map change_view found.new.items
            ≡ map change_view found.old.items ++ flat_map (power_over state.now s self) objects.now) }
    {
        for o in objects {
            self.push_had(found, state, s, *o)?;
        }
        Ok(())
    }
}
