//! Variables that are bound, bound again, and the allocations that they need.
use crate::seen::sees;
use mls_lines::Vars;
use mls_tables::ObjectId;
use refusing::Refusing;
use std::alloc::{Allocator, Global};
use std::process::Abort;

/// Variables and objects, in the order in which they are bound. Two variables are bound twice.
const BINDS: [(&str, u16); 12] = [
    ("a", 4),
    ("b", 4095),
    ("a", 5),
    ("A", 6),
    ("-", 7),
    ("b", 0),
    ("c", 8),
    ("d", 9),
    ("e", 10),
    ("f", 11),
    ("g", 12),
    ("h", 13),
];

/// What variables stand for in the end.
const BOUND: [(&str, Option<ObjectId>); 7] = [
    ("a", Some(ObjectId(5))),
    ("b", Some(ObjectId(0))),
    ("A", Some(ObjectId(6))),
    ("-", Some(ObjectId(7))),
    ("h", Some(ObjectId(13))),
    ("i", None),
    ("ab", None),
];

/// Binds a variable, again where an allocation failed, and says whether one did.
fn bind<A: Allocator + Copy>(
    rt: &impl Abort,
    vars: &mut Vars<A>,
    name: &str,
    object: ObjectId,
) -> bool {
    let before = vars.get(name);
    let refused = vars.bind(name, object).is_err();
    if refused {
        sees(rt, vars.get(name) == before, name);
        sees(rt, vars.bind(name, object).is_ok(), name);
    }
    sees(rt, vars.get(name) == Some(object), name);
    refused
}

/// Asserts what variables stand for in the end.
fn are_bound<A: Allocator>(rt: &impl Abort, vars: &Vars<A>) {
    for (name, object) in &BOUND {
        sees(rt, vars.get(name) == *object, name);
    }
}

/// Binds the variables in their order, and says how often an allocation failed.
fn bind_all<A: Allocator + Copy>(rt: &impl Abort, vars: &mut Vars<A>) -> u32 {
    let mut refusals = 0u32;
    for (name, object) in &BINDS {
        if bind(rt, vars, name, ObjectId(*object)) {
            refusals = refusals.saturating_add(1);
        }
    }
    are_bound(rt, vars);
    refusals
}

/// Reserves what it takes to bind a variable, and says whether each variable of `BOUND` stays as it is, and this one
/// too.
fn reserves(vars: &mut Vars<Global>, name: &str) -> bool {
    let before = vars.get(name);
    let Ok(_) = vars.reserve(name) else {
        return false;
    };
    vars.get(name) == before
        && BOUND
            .iter()
            .all(|(bound, object)| vars.get(bound) == *object)
}

#[test]
fn reserve_binds_nothing(rt: HostRuntime) {
    let mut vars = Vars::new(rt.alloc());
    let _ = bind_all(&rt, &mut vars);
    sees(&rt, reserves(&mut vars, "a"), "a bound variable");
    sees(&rt, reserves(&mut vars, "i"), "a new variable");
    drop(vars);
}

/// Reserves what it takes to bind a variable, binds it, and says what it is bound to.
fn bound_in_two_steps(vars: &mut Vars<Global>, name: &str, object: ObjectId) -> Option<ObjectId> {
    let Ok(copy) = vars.reserve(name) else {
        return None;
    };
    vars.bind_reserved(copy, object);
    vars.get(name)
}

/// Asserts that each variable is bound in two steps, and what they stand for in the end.
fn all_bound_in_two_steps(rt: &impl Abort, vars: &mut Vars<Global>) {
    for (name, object) in &BINDS {
        let object = ObjectId(*object);
        let bound = bound_in_two_steps(vars, name, object);
        sees(rt, bound == Some(object), name);
    }
    are_bound(rt, vars);
}

#[test]
fn bind_reserved_binds(rt: HostRuntime) {
    let mut vars = Vars::new(rt.alloc());
    all_bound_in_two_steps(&rt, &mut vars);
    drop(vars);
}

/// Binds new variables over an allocator, and says how often an allocation failed.
fn run(rt: &impl Abort, heap: &Refusing<Global>) -> u32 {
    let mut vars = Vars::new(heap);
    let refusals = bind_all(rt, &mut vars);
    drop(vars);
    refusals
}

#[test]
fn binds_and_binds_again_whatever_allocation_is_refused(rt: HostRuntime) {
    let mut refusals = 0u32;
    for number in 1..100 {
        let heap = Refusing::new(rt.alloc(), number);
        refusals = refusals.saturating_add(run(&rt, &heap));
        if !heap.has_refused() {
            sees(&rt, refusals >= 13, "how many refusals");
            return;
        }
    }
    sees(&rt, false, "a run without a refusal");
}
