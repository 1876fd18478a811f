//! A file that is read and not looked at. Whoever makes and keeps this program has it wait there.
use std::{env, fs};

/// The word that the program was given, where it was.
fn first_word(rt: &HostRuntime) -> Option<String> {
    let Ok(args) = env::args(rt) else {
        return None;
    };
    let Ok(mut words) = args.collect::<Vec<String>>(rt.alloc()) else {
        return None;
    };
    let word = if words.len() > 1 {
        Some(words.swap_remove(1))
    } else {
        None
    };
    drop(words);
    word
}

/// Reads the file that a word names, to its end, and says whether there was a word.
pub(crate) fn read_named_file(rt: &HostRuntime) -> bool {
    let Some(path) = first_word(rt) else {
        return false;
    };
    if let Ok(text) = fs::read_to_string(rt, path.as_str()) {
        drop(text);
    }
    drop(path);
    true
}
