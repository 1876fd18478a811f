//! The start that a command's start file says.
ghost use Rattle.std.specs.Prelude.{IfOk, IfErr};
ghost use Rattle.mls_replay.specs.Loads.{SaysState, RefusesLoad};
ghost use Rattle.mls_start_file.specs.Says.{SaysStart};

use crate::command::CommandFault;
use mls_lines::Names;
use mls_monitor::Start;
use mls_start_file::{Loaded, read_start};
use std::alloc::Global;

/// The start of a start file, and the names in it.
///
/// # Errors
/// `Load` where the file is refused, `Memory` where an allocation failed.
#[tactic(auto, using(crate::proofs::Starts::load_refuses))]
pub fn load_start(alloc: Global, bytes: &[u8]) -> Result<Loaded, CommandFault>
    ensures ok { IfOk result (λ loaded. SaysStart bytes.now loaded) }
    ensures fault { IfErr result (λ fault. RefusesLoad bytes.now fault) }
{
    Ok(read_start(alloc, bytes)?)
}

/// The start of a start file. Its names are not needed.
pub(crate) fn load(alloc: Global, bytes: &[u8]) -> Result<Start, CommandFault>
    ensures ok { IfOk result (λ start. SaysState bytes.now start) }
    ensures fault { IfErr result (λ fault. RefusesLoad bytes.now fault) }
{
    let (names, start): (Names, Start) = load_start(alloc, bytes)?.into_parts();
    drop(names);
    Ok(start)
}
