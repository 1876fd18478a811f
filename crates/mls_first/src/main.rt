//! The first answer of a fresh clone: the script on standard input, answered over the standard start as `mls` does it.
#![tactic(auto)]

mod serving;
mod waiting;

use crate::serving::serve_standard;
use crate::waiting::read_named_file;
use std::process::ExitCode;

fn main(rt: HostRuntime) -> ExitCode {
    if read_named_file(&rt) {
        return ExitCode::SUCCESS;
    }
    match serve_standard(&rt) {
        Ok(_) => ExitCode::SUCCESS,
        Err(line) => {
            let _ = eprintln!(rt; "{line}");
            ExitCode::from(1)
        }
    }
}
