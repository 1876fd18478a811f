//! Serving a script: its lines are read, answered and written, each before the next is asked for.
ghost use Rattle.std.specs.Prelude.{◌≡◌, ◌<◌, ◌≤◌, ◌+◌, ◌-◌, [], length, take, vec_len, IfOk, IfErr};
ghost use Rattle.mls_scripts.specs.Script.{standing_of};
ghost use Rattle.mls_scripts.specs.Serve.{ScriptEnds, Serves};

use crate::answer::Script;
use crate::answering::Answering;
use crate::served::Served;
use mls_lines::{Names, Vars};
use mls_monitor::Monitor;
use std::alloc::Allocator;
use std::io::{Read, Write};
use thiserror::Error;

/// The most bytes that a script may have.
pub const SCRIPT_LIMIT: usize = 1_048_576;

/// The most bytes that are asked of a reader at once.
const PIECE: usize = 65_536;

/// Why a script wasn't answered to its end.
#[derive(Clone, Copy, Debug, PartialEq, Eq, Error)]
pub enum ServeFault {
    /// The reader failed. An interrupted read counts as failed.
    #[error("the reader failed")]
    Read,
    /// The writer failed or took nothing. An interrupted write or flush counts as failed.
    #[error("the writer failed")]
    Write,
    /// An allocation failed that a line needs.
    #[error("out of memory")]
    Memory,
    /// The script is longer than `SCRIPT_LIMIT`.
    #[error("the script is too long")]
    TooLong,
}

/// What is left of the room for a script's bytes after so many more.
///
/// # Errors
/// `TooLong` where there isn't room for so many.
fn room_after(room: usize, count: usize) -> Result<usize, ServeFault>
    ensures ok { IfOk result (λ left. left + count ≡ room) }
    ensures err { IfErr result (λ fault. (fault ≡ ServeFault.TooLong) × (room < count)) }
{
    if count > room {
        return Err(ServeFault::TooLong);
    }
    Ok(room - count)
}

/// The first bytes, as many as there is room for.
#[tactic(auto, using(crate::proofs::Kept::same_front))]
fn within(bytes: &[u8], room: usize) -> &[u8]
    ensures { result.now ≡ take room bytes.now }
{
    &bytes[..bytes.len().min(room)]
}

/// How many entries were added to a journal that had `before`.
fn added<A: Allocator>(monitor: &Monitor<A>, before: u64) -> u64
    requires { before ≤ length monitor.now.entries }
    ensures { result ≡ length monitor.now.entries - before }
{
    monitor.next_number() - before
}

/// Serves a script through a buffer.
fn serve_pieces<R: Read, W: Write, A: Allocator, N: Allocator, V: Allocator + Copy>(
    served: &mut Served<'_, N, V>,
    monitor: &mut Monitor<A>,
    buffer: &mut [u8],
    reader: &mut R,
    writer: &mut W,
) -> Result<u64, ServeFault>
    requires room { 0 < length buffer.old }
    requires line { served.old.line.items ≡ [] }
    ensures ends { ScriptEnds served.old.answering.script.names.now served.old.answering.script.session
        (R.remaining reader.old) (R.remaining reader.new)
        (W.contents writer.old) (W.contents writer.new)
        (standing_of served.old.answering.vars.bound monitor.old)
        (standing_of served.new.answering.vars.bound monitor.new) result }
    ensures forgotten { monitor.new.forgotten ≡ monitor.old.forgotten }
{
    let before = monitor.next_number();
    let mut room = SCRIPT_LIMIT;
    loop {
        let Ok(count) = reader.read(buffer) else {
            return Err(ServeFault::Read);
        };
        if count == 0 {
            served.take_end(monitor, writer)?;
            return Ok(added(monitor, before));
        }
        served.take_piece(monitor, within(&buffer[..count], room), writer)?;
        room = room_after(room, count)?;
    }
}

/// Answers a script line by line as the session `session`, and gives how many entries it added.
///
/// Each line that is complete in what was read is answered before the reader is called again. The writer is flushed
/// before each read that follows an answer, and before the return after one; so hand it a buffered writer. A script has
/// at most `SCRIPT_LIMIT` bytes.
///
/// # Errors
/// The monitor is always as after the requests that were asked, each with its entry; it keeps its start, and forgets
/// nothing.
/// - `Read`: at most `SCRIPT_LIMIT` bytes were taken; the lines that are complete in them are answered, and no other
///   line was asked.
/// - `Write`: an answer broke off, which was the last that was asked for; or the writer failed when it was flushed, and
///   all lines that were complete in what was read are answered, at the end of input the last line too.
/// - `Memory`: an allocation failed; the lines before are answered, and the line that met it added no entry. The writer
///   is flushed all the same, and where that fails too, the result is still `Memory`.
/// - `TooLong`: the lines whose newlines are within the limit are answered.
pub fn serve<R: Read, W: Write, A: Allocator, B: Allocator, N: Allocator>(
    alloc: A,
    names: &Names<N>,
    monitor: &mut Monitor<B>,
    session: u32,
    reader: &mut R,
    writer: &mut W,
) -> Result<u64, ServeFault>
    ensures served { Serves names.now session (R.remaining reader.old) (R.remaining reader.new)
        (W.contents writer.old) (W.contents writer.new) monitor.old monitor.new result }
    ensures start { monitor.new.start ≡ monitor.old.start }
    ensures forgotten { monitor.new.forgotten ≡ monitor.old.forgotten }
{
    let Ok(mut buffer) = Vec::from_elem(&alloc, 0u8, PIECE) else {
        return Err(ServeFault::Memory);
    };
    let line = Vec::new(&alloc);
    let vars = Vars::new(&alloc);
    let script = Script { names, session };
    let answering = Answering {
        script,
        vars,
        wrote: false,
    };
    let mut served = Served { answering, line };
    serve_pieces(&mut served, monitor, &mut buffer, reader, writer)
}
