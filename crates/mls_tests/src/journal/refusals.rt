//! Writing entries where each allocation fails in turn.
use super::rows::{LONGEST, longest};
use crate::seen::sees;
use mls_journal::write_entry;
use refusing::Refusing;
use std::alloc::{AllocError, Allocator};
use std::process::Abort;
use std::test::Fail;

/// Writes the longest entry; where the allocation fails the text is as it was, and the same call again writes it.
fn writes<A: Allocator>(rt: &impl Abort, text: &mut String<A>) -> Result<(), AllocError> {
    let before = text.len();
    if write_entry(longest(), text).is_err() {
        sees(rt, text.len() == before, "nothing written");
        write_entry(longest(), text)?;
    }
    Ok(())
}

/// Writes three entries so.
fn writes_three<A: Allocator>(rt: &impl Abort, text: &mut String<A>) -> Result<(), AllocError> {
    writes(rt, text)?;
    writes(rt, text)?;
    writes(rt, text)
}

/// Asserts that a text is three lines of the longest entry.
fn is_thrice(rt: &impl Abort, text: &str) {
    sees(
        rt,
        text.len() == 3 * (LONGEST.len() + 1),
        "how much is written",
    );
    for line in text.lines() {
        sees(rt, line == LONGEST, "a line");
    }
}

/// The same, with a text made for it, as a run that meets no refusal does.
fn text_written<A: Allocator>(rt: &impl Abort, heap: A) -> Result<(), AllocError> {
    let mut text = String::new(heap);
    let written = writes_three(rt, &mut text);
    is_thrice(rt, text.as_str());
    drop(text);
    written
}

#[test]
fn each_allocation_is_refused_in_turn(rt: HostRuntime) -> Result<(), Fail> {
    for number in 1..100 {
        let heap = Refusing::new(rt.alloc(), number);
        text_written(&rt, &heap)?;
        if !heap.has_refused() {
            sees(&rt, number > 2, "how many allocations");
            return Ok(());
        }
    }
    sees(&rt, false, "a run without a refusal");
    Ok(())
}
