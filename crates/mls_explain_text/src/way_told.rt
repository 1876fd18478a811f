//! What a denied get would take of its subject alone.
ghost use Rattle.mls_explain.specs.Ways.{IsWay};
ghost use Rattle.mls_explain_text.specs.Explained.{IsWayAfter, IsWayFor};

use mls_explain::{Way, way_of};
use mls_requests::{Action, Reply, Request};
use mls_rules::State;
use mls_tables::{Mode, ObjectId, SubjectId};

/// What a get would take.
fn get_way(state: &State, s: SubjectId, o: ObjectId, x: Mode) -> Way
    ensures { IsWay state.now s o x result }
{
    way_of(state, s, o, x)
}

/// What a request would take of its subject: of a get its own way, and of any other nothing is said.
fn way_for(state: &State, request: &Request) -> Way
    ensures { IsWayFor state.now request.now result }
{
    match &request.action {
        Action::Get(x, o) => get_way(state, request.subject, *o, *x),
        _ => Way::Never,
    }
}

/// What is said that a request with this reply would take: of one that is denied, else nothing.
pub(crate) fn way_told(state: &State, request: &Request, reply: &Reply) -> Way
    ensures { IsWayAfter state.now request.now reply.now result }
{
    match reply {
        Reply::No(_) => way_for(state, request),
        _ => Way::Never,
    }
}
