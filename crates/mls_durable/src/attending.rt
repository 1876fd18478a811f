//! Attending to a client: its lines are read, asked, and answered once their entries are on the disk.
ghost use Rattle.std.specs.Prelude.{◌≡◌, ◌<◌, ◌≤◌, ◌+◌, [], List, Some, length, string_bytes};
ghost use Rattle.mls_scripts.specs.Script.{standing_of};
ghost use Rattle.mls_durable.specs.History.{Event, Known, ahead, seen};
ghost use Rattle.mls_durable.specs.Moments.{IsSettled};
ghost use Rattle.mls_durable.specs.Batches.{SoFar, pending};
ghost use Rattle.mls_durable.specs.Attending.{Attends};

use crate::attend_fault::AttendFault;
use crate::batch::Batch;
use crate::client::Client;
use crate::limits::file_limit;
use crate::options::Protocol;
use crate::outside::Outside;
use mls_lines::{Names, Vars};
use mls_monitor::Monitor;
use std::alloc::Global;
use std::io::Read;

/// The most bytes that are asked of a reader at once.
const PIECE: usize = 65_536;

/// Attends to a client through a buffer.
fn attend_pieces<R: Read, O: Outside>(
    client: &mut Client,
    names: &Names,
    protocol: Protocol,
    monitor: &mut Monitor,
    buffer: &mut [u8],
    reader: &mut R,
    outside: &mut O,
) -> Result<(), AttendFault>
    requires buffer { 0 < length buffer.old }
    requires line { client.old.line.items ≡ [] }
    requires text { string_bytes client.old.batch.text ≡ [] }
    requires answers { client.old.batch.answers.items ≡ [] }
    ensures attends { let first = standing_of client.old.batch.vars.bound monitor.old in
        Known (O.history outside.old) (O.history outside.new) (λ before after.
        SoFar names.now protocol first before [] (pending first client.old.batch) before
        → Attends names.now protocol first (R.remaining reader.old) (R.remaining reader.new)
        monitor.new.entries before after result) }
    ensures start { monitor.new.start ≡ monitor.old.start }
{
    for _ in 0..u64::MAX {
        let Ok(count) = reader.read(buffer) else {
            return Err(AttendFault::Read);
        };
        if count == 0 {
            return client.take_end();
        }
        client.take_piece(names, protocol, monitor, &buffer[..count], outside)?;
    }
    Err(AttendFault::Read)
}

/// Answers the lines of a client, to the end of its input, over a monitor whose journal is just what the files hold,
/// all of it on the disk; the live file has `len` bytes. The protocol says of which session a line is, and how it is
/// answered.
///
/// The lines that are complete in what was read are a batch, or more than one where the text of their entries would
/// pass `BATCH` bytes: the entries are added to the file, which is synced, and then the answers are handed out. A batch
/// that adds no entry syncs nothing. All of that is done before the reader is called again. A last line without a
/// newline isn't asked. The monitor forgets an entry once its line is in a batch. There is no limit on the input; a
/// line has at most `MAX_LINE` bytes, and a session's so many behind what tells its session. Where the protocol cuts
/// the journal into files, and the line of one entry more might make the live file longer than a segment, what was
/// asked is committed, and then another file is begun: so no file is longer than a segment that wasn't when it was
/// found.
///
/// # Errors
/// The lines before some line are answered, and no other. The monitor's start stays.
/// - `Read`: all lines that are complete in what was read are answered. The monitor's journal is the file's.
/// - `Unfinished`: the input ended within a line; the lines before it are answered. The monitor's journal is the
///   file's.
/// - `Write`: answers broke off; the entries of all lines that were asked are in the file, and synced.
/// - `File`: no answer of the last batch is handed out; the file may have a front of the text of its entries; or
///   another file couldn't be begun. The journal has to be recovered.
/// - `Memory`: an allocation failed; the line that met it adds no entry to the file.
/// - `TooLong`: no other file is to be begun, and the line of one entry more, of `LONGEST_LINE` bytes, might make the
///   live file longer than `JOURNAL_LIMIT`. The monitor's journal is the file's.
///
/// After `Write` or `Memory` the monitor's journal is the file's, and maybe one entry more: that of the line for whose
/// text or answer no memory was left.
pub fn attend<R: Read, O: Outside>(
    alloc: Global,
    names: &Names,
    protocol: Protocol,
    monitor: &mut Monitor,
    len: usize,
    reader: &mut R,
    outside: &mut O,
) -> Result<(), AttendFault>
    ensures attends { Known (O.history outside.old) (O.history outside.new) (λ before after.
        IsSettled monitor.old.entries before → ahead before + len ≡ length (seen before)
        → Attends names.now protocol (standing_of [] monitor.old) (R.remaining reader.old) (R.remaining reader.new)
        monitor.new.entries before after result) }
    ensures start { monitor.new.start ≡ monitor.old.start }
{
    // that the entries are legal
    let _ = monitor.entries();
    let Ok(mut buffer) = Vec::from_elem(alloc, 0u8, PIECE) else {
        return Err(AttendFault::Memory);
    };
    let batch = Batch {
        vars: Vars::new(alloc),
        text: String::new(alloc),
        answers: Vec::new(alloc),
        room: file_limit(protocol.segment).saturating_sub(len),
        answer: Vec::new(alloc),
    };
    let line = Vec::new(alloc);
    let mut client = Client { batch, line };
    attend_pieces(
        &mut client,
        names,
        protocol,
        monitor,
        &mut buffer,
        reader,
        outside,
    )
}
