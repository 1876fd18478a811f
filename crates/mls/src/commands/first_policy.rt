//! The command that makes the files of the first policy.
use crate::commands::policy::{JSONNET, SCRIPT, START};
use crate::commands::readme::README;
use crate::commands::run_journal::is_regular;
use mls_terminal::{NewFile, Progress, make_files};
use std::process::ExitCode;

/// The files, in the order in which they are made and told.
const FILES: [NewFile<'static>; 4] = [
    NewFile {
        name: "start.json",
        text: START,
    },
    NewFile {
        name: "start.jsonnet",
        text: JSONNET,
    },
    NewFile {
        name: "day.script",
        text: SCRIPT,
    },
    NewFile {
        name: "README.md",
        text: README,
    },
];

/// Makes the files of the first policy in a folder, which is made where it isn't there, and tells their names and what
/// is next. No file that is there is touched: where one has the name of a file, none is made.
pub fn init(progress: &mut Progress<'_>, folder: &str) -> ExitCode {
    if is_regular(progress.rt(), folder).unwrap_or(false) {
        let _ = eprintln!(progress.rt(); "mls: {folder}: not a folder");
        return ExitCode::from(1);
    }
    match make_files(progress, folder, &FILES) {
        Ok(()) => {
            let _ = println!(progress.rt(); "next: mls check {folder}/start.json");
            ExitCode::SUCCESS
        }
        Err(status) => status,
    }
}
