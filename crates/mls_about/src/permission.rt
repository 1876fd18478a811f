//! The permissions of a subject, each with what its get would be answered.
ghost use Rattle.std.specs.Prelude.{◌≡◌, ◌++◌, All, map, IfOk, OnOk};
ghost use Rattle.mls_tables.specs.Once.{accesses_at};
ghost use Rattle.mls_tables.specs.declared.limits.TheConstants.{MAX_OBJECTS};
ghost use Rattle.mls_about.specs.Permissions.{triple_of, where_so, IsTold, permitted};

use mls_explain::{Prospect, prospect_of};
use mls_state::{State, Table};
use mls_tables::{MAX_OBJECTS, Mode, ObjectId, SubjectId};
use std::alloc::{AllocError, Global};

/// A permission on an object, with what its get would be answered.
#[derive(Clone, Copy)]
pub(crate) struct Permission {
    pub object: ObjectId,
    pub prospect: Prospect,
}

/// Adds a permission, where it is there.
fn push_mode(
    found: &mut Vec<Permission>,
    state: &State,
    s: SubjectId,
    o: ObjectId,
    x: Mode,
    there: bool,
) -> Result<(), AllocError>
    requires { All (IsTold state.now) found.old.items }
    ensures triples { OnOk result
        (map triple_of found.new.items ≡ map triple_of found.old.items ++ where_so there (s, o, x)) }
    ensures each { OnOk result (All (IsTold state.now) found.new.items) }
{
    if there {
        found.push(Permission {
            object: o,
            prospect: prospect_of(state, s, o, x),
        })?;
    }
    Ok(())
}

/// Adds the permissions of a subject on an object, in the order of modes.
fn push_object_modes(
    found: &mut Vec<Permission>,
    state: &State,
    s: SubjectId,
    o: ObjectId,
) -> Result<(), AllocError>
    requires { All (IsTold state.now) found.old.items }
    ensures triples { OnOk result
        (map triple_of found.new.items ≡ map triple_of found.old.items ++ accesses_at state.now.matrix s o) }
    ensures each { OnOk result (All (IsTold state.now) found.new.items) }
{
    let modes = Table::Matrix.modes(state, s, o);
    push_mode(found, state, s, o, Mode::Execute, modes.has(Mode::Execute))?;
    push_mode(found, state, s, o, Mode::Read, modes.has(Mode::Read))?;
    push_mode(found, state, s, o, Mode::Append, modes.has(Mode::Append))?;
    push_mode(found, state, s, o, Mode::Write, modes.has(Mode::Write))?;
    Ok(())
}

/// The permissions of a subject, by object.
pub(crate) fn permissions(
    alloc: Global,
    state: &State,
    s: SubjectId,
) -> Result<Vec<Permission>, AllocError>
    ensures triples { IfOk result (λ found. map triple_of found.items ≡ permitted state.now s MAX_OBJECTS) }
    ensures each { IfOk result (λ found. All (IsTold state.now) found.items) }
{
    let mut found = Vec::new(alloc);
    for o in 0..MAX_OBJECTS {
        push_object_modes(&mut found, state, s, ObjectId(o))?;
    }
    Ok(found)
}
