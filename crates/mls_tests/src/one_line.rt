//! A variable is bound to the object that its line made, and to nothing else, whatever allocation is refused.
use crate::seen::sees;
use crate::standard::{ample_start, standard_monitor};
use mls_lines::Vars;
use mls_monitor::Monitor;
use mls_requests::{Reason, Reply};
use mls_scripts::{Answer, Script};
use mls_tables::ObjectId;
use refusing::Refusing;
use std::alloc::{AllocError, Allocator, Global};
use std::process::Abort;

/// A line, its reply, and what `$x` stands for after it.
const LINES: [(&[u8], Reply, Option<ObjectId>); 8] = [
    (
        b"$x = sec create root U hi",
        Reply::No(Reason::Authority),
        None,
    ),
    (b"sec get-write root", Reply::Yes, None),
    (
        b"$x = sec create root U hi",
        Reply::Created(ObjectId(4)),
        Some(ObjectId(4)),
    ),
    (
        b"$x = bob create root U hi",
        Reply::No(Reason::Authority),
        Some(ObjectId(4)),
    ),
    (
        b"$y = sec create root U hi",
        Reply::Created(ObjectId(5)),
        Some(ObjectId(4)),
    ),
    (
        b"$x = sec create #77 U hi",
        Reply::Undefined,
        Some(ObjectId(4)),
    ),
    (
        b"$x = sec create root U hi",
        Reply::Created(ObjectId(6)),
        Some(ObjectId(6)),
    ),
    (
        b"sec create root U hi",
        Reply::Created(ObjectId(7)),
        Some(ObjectId(6)),
    ),
];

/// Whether a line is answered by this reply.
fn is_reply(answer: Result<Answer, AllocError>, reply: Reply) -> bool {
    match answer {
        Ok(Answer::Replied(found)) => found == reply,
        _ => false,
    }
}

/// Answers a line, again where an allocation failed, and says whether one did. What failed added no entry and bound
/// nothing.
fn answered<A: Allocator + Copy>(
    rt: &impl Abort,
    script: &Script<'_, Global>,
    vars: &mut Vars<A>,
    monitor: &mut Monitor<A>,
    line: &[u8],
    reply: Reply,
) -> bool {
    let (entries, bound) = (monitor.entries().len(), vars.get("x"));
    let mut answer = script.answer(vars, monitor, line);
    let refused = answer.is_err();
    if refused {
        sees(rt, monitor.entries().len() == entries, "no entry");
        sees(rt, vars.get("x") == bound, "nothing bound");
        answer = script.answer(vars, monitor, line);
    }
    sees(rt, is_reply(answer, reply), "a reply");
    refused
}

/// Answers the lines, and says how often an allocation failed.
fn all_answered<A: Allocator + Copy>(
    rt: &impl Abort,
    script: &Script<'_, Global>,
    vars: &mut Vars<A>,
    monitor: &mut Monitor<A>,
) -> u32 {
    let mut refusals = 0u32;
    for (line, reply, bound) in &LINES {
        if answered(rt, script, vars, monitor, line, *reply) {
            refusals = refusals.saturating_add(1);
        }
        sees(rt, vars.get("x") == *bound, "what is bound");
    }
    refusals
}

/// Answers the lines over a monitor, and says how often an allocation failed.
fn run_over<A: Allocator + Copy>(
    rt: &impl Abort,
    script: &Script<'_, Global>,
    alloc: A,
    mut monitor: Monitor<A>,
) -> u32 {
    let mut vars = Vars::new(alloc);
    let refusals = all_answered(rt, script, &mut vars, &mut monitor);
    drop(vars);
    drop(monitor);
    refusals
}

/// Answers the lines over a new monitor, and says how often an allocation failed: not at all where the opening's did.
fn run(rt: &impl Abort, script: &Script<'_, Global>, heap: &Refusing<Global>) -> u32 {
    match standard_monitor(heap) {
        Ok(monitor) => run_over(rt, script, heap, monitor),
        Err(_) => 0,
    }
}

/// Answers the lines with each allocation refused in turn, and says how often one of a line was.
fn refusals_in_turn(rt: &impl Abort, alloc: Global, script: &Script<'_, Global>) -> Option<u32> {
    let mut refusals = 0u32;
    for number in 1..1000 {
        let heap = Refusing::new(alloc, number);
        refusals = refusals.saturating_add(run(rt, script, &heap));
        if !heap.has_refused() {
            return Some(refusals);
        }
    }
    None
}

#[test]
fn binds_what_was_made_whatever_allocation_is_refused(rt: HostRuntime) {
    let loaded = ample_start(&rt, rt.alloc());
    let script = Script {
        names: loaded.names(),
        session: 7,
    };
    let refusals = refusals_in_turn(&rt, rt.alloc(), &script);
    drop(loaded);
    sees(&rt, refusals >= Some(12), "how many refusals");
}
