//! What services whose journals have marks begin with.
use super::MemoryMarks;
use mls_marks::Time;
use std::alloc::Global;
use std::process::Abort;

/// A keeper without marks, of which so many calls go well.
pub fn keeper(rt: &impl Abort, alloc: Global, good: usize) -> MemoryMarks {
    let Some(time) = Time::read(b"2026-11-27T11:12:26.736512Z") else {
        panic!(rt; "a time");
    };
    MemoryMarks {
        lines: Vec::new(alloc),
        synced: Vec::new(alloc),
        time,
        good,
    }
}
