//! What was asked of an outside in memory.
use super::Call;
use crate::seen::sees_bytes;
use std::alloc::{AllocError, Global};
use std::process::Abort;

/// A letter for a call: a small one where it failed.
fn letter(call: &Call) -> u8 {
    match call {
        Call::Kept(_) => b'K',
        Call::KeepFailed(_) => b'k',
        Call::Cut(_) => b'C',
        Call::CutFailed(_) => b'c',
        Call::Appended(_) => b'A',
        Call::AppendFailed(_) => b'a',
        Call::Synced => b'S',
        Call::SyncFailed => b's',
        Call::Reported(_) => b'R',
        Call::Told(_) => b'T',
        Call::TellFailed(_) => b't',
    }
}

/// The letters of calls.
fn letters(alloc: Global, calls: &[Call]) -> Result<Vec<u8>, AllocError> {
    let mut text = Vec::new(alloc);
    for call in calls {
        text.push(letter(call))?;
    }
    Ok(text)
}

/// What was told.
fn told(alloc: Global, calls: &[Call]) -> Result<Vec<u8>, AllocError> {
    let mut text = Vec::new(alloc);
    for call in calls {
        if let Call::Told(bytes) = call {
            text.extend_from_slice(bytes)?;
        }
    }
    Ok(text)
}

/// Asserts what a text is, where there was memory for it.
fn assert_text(rt: &impl Abort, text: Result<Vec<u8>, AllocError>, wanted: &[u8]) {
    match text {
        Ok(text) => {
            sees_bytes(rt, &text, wanted);
            drop(text);
        }
        Err(_) => panic!(rt; "out of memory"),
    }
}

/// Asserts what the letters of calls are.
pub fn sees_calls(rt: &impl Abort, alloc: Global, calls: &[Call], wanted: &[u8]) {
    assert_text(rt, letters(alloc, calls), wanted);
}

/// Asserts what was told.
pub fn sees_told(rt: &impl Abort, alloc: Global, calls: &[Call], wanted: &[u8]) {
    assert_text(rt, told(alloc, calls), wanted);
}
