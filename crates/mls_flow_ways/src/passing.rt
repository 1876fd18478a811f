//! Content that is carried from place to place.
ghost use Rattle.std.specs.Prelude.{IsTrue, OnOk};
ghost use Rattle.mls_state.specs.Properties.{IsSecure};
ghost use Rattle.mls_flows.specs.Arriving.{HasIntegrityWithin};
ghost use Rattle.mls_flows.specs.declared.place.Place.TheVariants.{Subject, Object};
ghost use Rattle.mls_futures.specs.Closure.{acts_in};
ghost use Rattle.mls_futures.specs.Futures.{HasLabelsWithin, HoldsNothing};
ghost use Rattle.mls_paths.specs.Hands.{IsHand, has_room};
ghost use Rattle.mls_paths.specs.Ways.{LeadsOn};
ghost use Rattle.mls_flow_ways.specs.Carries.{CarriesTo, StaysIdle, makes_once};

use crate::carrying::carry_by;
use crate::handing::hand_on;
use mls_flows::Place;
use mls_paths::{Hand, Hop};
use mls_rules::{Request, State};
use mls_tables::{ObjectId, SubjectId};
use std::alloc::AllocError;

/// Carries content from an object to a subject by a hand.
fn see(
    state: &mut State,
    script: &mut Vec<Request>,
    actors: &[bool],
    s: SubjectId,
    o: ObjectId,
    hand: Hand,
) -> Result<(), AllocError>
    requires secure { IsSecure state.old }
    requires within { HasLabelsWithin state.old }
    requires nothing { HoldsNothing state.old }
    requires hand { IsHand state.old (acts_in actors.now) (has_room state.old) (Object o) hand (Subject s) }
    ensures { OnOk result (CarriesTo (acts_in actors.now) state.old state.new script.old.items script.new.items
        (Object o) (Subject s) (StaysIdle hand state.old.next)) }
{
    match hand {
        Hand::By(x) => carry_by(state, script, actors, s, o, x),
        Hand::Made(_, _) => Ok(()),
    }
}

/// Carries content from a subject to an object by a hand.
fn leave(
    state: &mut State,
    script: &mut Vec<Request>,
    actors: &[bool],
    s: SubjectId,
    o: ObjectId,
    hand: Hand,
) -> Result<(), AllocError>
    requires secure { IsSecure state.old }
    requires within { HasLabelsWithin state.old }
    requires nothing { HoldsNothing state.old }
    requires hand { IsHand state.old (acts_in actors.now) (has_room state.old) (Subject s) hand (Object o) }
    ensures { OnOk result (CarriesTo (acts_in actors.now) state.old state.new script.old.items script.new.items
        (Subject s) (Object o) (StaysIdle hand state.old.next)) }
{
    match hand {
        Hand::By(x) => carry_by(state, script, actors, s, o, x),
        Hand::Made(_, _) => Ok(()),
    }
}

/// Carries content from a subject to another one by a hand.
fn hand_over(
    state: &mut State,
    script: &mut Vec<Request>,
    actors: &[bool],
    s: SubjectId,
    t: SubjectId,
    hand: Hand,
) -> Result<(), AllocError>
    requires secure { IsSecure state.old }
    requires within { HasLabelsWithin state.old }
    requires nothing { HoldsNothing state.old }
    requires bound { HasIntegrityWithin state.old }
    requires hand { IsHand state.old (acts_in actors.now) (has_room state.old) (Subject s) hand (Subject t) }
    ensures { OnOk result (CarriesTo (acts_in actors.now) state.old state.new script.old.items script.new.items
        (Subject s) (Subject t) (StaysIdle hand state.old.next)) }
{
    match hand {
        Hand::Made(maker, parent) => hand_on(state, script, actors, s, t, maker, parent),
        Hand::By(_) => Ok(()),
    }
}

/// Carries content from a place to the next one by a hand.
fn pass(
    state: &mut State,
    script: &mut Vec<Request>,
    actors: &[bool],
    from: &Place,
    hop: &Hop,
) -> Result<(), AllocError>
    requires secure { IsSecure state.old }
    requires within { HasLabelsWithin state.old }
    requires nothing { HoldsNothing state.old }
    requires bound { HasIntegrityWithin state.old }
    requires hand { IsHand state.old (acts_in actors.now) (has_room state.old) from.now hop.now.hand hop.now.place }
    ensures { OnOk result (CarriesTo (acts_in actors.now) state.old state.new script.old.items script.new.items
        from.now hop.now.place (StaysIdle hop.now.hand state.old.next)) }
{
    let (hand, place) = (hop.hand, hop.place);
    match *from {
        Place::Object(o) => match place {
            Place::Subject(s) => see(state, script, actors, s, o, hand),
            Place::Object(_) => Ok(()),
        },
        Place::Subject(s) => match place {
            Place::Object(o) => leave(state, script, actors, s, o, hand),
            Place::Subject(t) => hand_over(state, script, actors, s, t, hand),
        },
    }
}

/// Carries content from a place on, by hands one after the other, where no more than one object is made.
pub(crate) fn pass_on(
    state: &mut State,
    script: &mut Vec<Request>,
    actors: &[bool],
    from: Place,
    hops: &[Hop],
    _to: Place,
) -> Result<(), AllocError>
    requires secure { IsSecure state.old }
    requires within { HasLabelsWithin state.old }
    requires nothing { HoldsNothing state.old }
    requires bound { HasIntegrityWithin state.old }
    requires leads { LeadsOn (IsHand state.old (acts_in actors.now) (has_room state.old)) from hops.now _to }
    requires once { IsTrue (makes_once hops.now) }
    ensures { OnOk result (CarriesTo (acts_in actors.now) state.old state.new script.old.items script.new.items
        from _to HoldsNothing) }
{
    let mut place = from;
    for hop in hops {
        pass(state, script, actors, &place, hop)?;
        place = hop.place;
    }
    Ok(())
}
