//! Scripts of a run that are start files.
use mls_command_line::RunWords;
use mls_start_file::{LoadFault, read_start};
use mls_terminal::Progress;
use std::alloc::Global;

/// Whether a script is a start file, be it one that is refused: it begins as an object of JSON does, and is JSON.
fn is_start(alloc: Global, script: &[u8]) -> bool {
    if !matches!(script, [b'{', ..]) {
        return false;
    }
    match read_start(alloc, script) {
        Ok(loaded) => {
            drop(loaded);
            true
        }
        Err(LoadFault::Json | LoadFault::Memory) => false,
        Err(_) => true,
    }
}

/// The place of the first script that is a start file.
fn first_start(alloc: Global, scripts: &[Vec<u8>]) -> Option<usize> {
    for (place, script) in scripts.iter().enumerate() {
        if is_start(alloc, script) {
            return Some(place);
        }
    }
    None
}

/// Tells a person at a terminal which script of a run is a start file, where one is. Its lines are answered as those of
/// any script.
pub fn tell_starts(progress: &mut Progress<'_>, scripts: &[Vec<u8>], words: &RunWords<'_>) {
    if !progress.is_adding() {
        return;
    }
    let alloc = progress.rt().alloc();
    if let Some(place) = first_start(alloc, scripts) {
        let path = words.scripts.get(place).copied().unwrap_or("");
        progress.end();
        let _ = eprintln!(progress.rt(); "mls: {path}: looks like a start file");
    }
}
