//! The way on which content comes to a place.
ghost use Rattle.std.specs.Prelude.{◌≡◌, ◌↔◌, ◌<◌, IsTrue, IfNone, IfOk, IfSome, MatchOption, OnOk, length};
ghost use Rattle.mls_paths.specs.Found.{IsThere};
ghost use Rattle.mls_paths.specs.Ways.{AddsWay, IsAt, IsWayTo};

use crate::reached::{Hop, Reached};
use mls_flows::Place;
use std::alloc::{AllocError, Global};

/// Adds the hops from the first place that was found to the one at an index.
fn push_way(hops: &mut Vec<Hop>, found: &[Reached], at: usize) -> Result<(), AllocError>
    requires { at < length found.now }
    ensures { OnOk result (AddsWay found.now hops.old.items hops.new.items at) }
{
    let reached = found[at];
    let (place, came) = (reached.place, reached.came);
    match came {
        Some(came) => {
            if came.before >= at {
                return Ok(());
            }
            push_way(hops, found, came.before)?;
            hops.push(Hop {
                hand: came.hand,
                place,
            })?;
            Ok(())
        }
        None => Ok(()),
    }
}

/// Whether two places are the same.
pub fn is_same(a: &Place, b: &Place) -> bool
    ensures { IsTrue result ↔ (a.now ≡ b.now) }
{
    match *a {
        Place::Subject(s) => match *b {
            Place::Subject(t) => s.number() == t.number(),
            Place::Object(_) => false,
        },
        Place::Object(o) => match *b {
            Place::Subject(_) => false,
            Place::Object(p) => o.number() == p.number(),
        },
    }
}

/// The index of a place among those that were found, where it is there.
fn index_of(found: &[Reached], place: &Place) -> Option<usize>
    ensures { MatchOption result (IsThere found.now place.now → ⊥) (λ at. IsAt found.now at place.now) }
{
    for at in 0..found.len() {
        if is_same(&found[at].place, place) {
            return Some(at);
        }
    }
    None
}

/// The way to a place among those that were found, where it is there.
///
/// # Errors
/// `AllocError` where an allocation failed.
pub fn way_to(
    alloc: Global,
    found: &[Reached],
    place: Place,
) -> Result<Option<Vec<Hop>>, AllocError>
    ensures none { IfOk result (λ way. IfNone way (IsThere found.now place → ⊥)) }
    ensures some { IfOk result (λ way. IfSome way (λ hops. IsWayTo found.now place hops.items)) }
{
    match index_of(found, &place) {
        Some(at) => {
            let mut hops = Vec::new(alloc);
            push_way(&mut hops, found, at)?;
            Ok(Some(hops))
        }
        None => Ok(None),
    }
}
