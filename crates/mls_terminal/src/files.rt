//! Files that are read and written whole.
ghost use Rattle.std.specs.Prelude.{◌≡◌, ◌≤◌, vec_len, IfOk, OnOk};

use crate::held::Held;
use crate::output::{is_taken, write_bytes};
use crate::progress::Progress;
use std::fs::{File, OpenOptions};
use std::io;
use std::io::Read;

/// Why a file wasn't read or written.
#[derive(Clone, Copy)]
pub enum FileFault {
    /// It couldn't be opened, read or written. An interrupted read counts as failed.
    File,
    /// The system refused to open, read or write it, for this reason.
    System(io::Error),
    /// Another open of it holds its lock.
    InUse,
    /// It has more bytes than its limit.
    TooLong,
    /// An allocation failed.
    Memory,
}

/// The most bytes that are asked of a file at once.
const PIECE: usize = 65_536;

/// The word that names standard input where a file is read.
const INPUT: &str = "-";

/// Standard input, as the system names it.
const INPUT_PATH: &str = "/dev/stdin";

/// The path of a file that is read, by the word that names it.
fn path_of(word: &str) -> &str {
    if word == INPUT { INPUT_PATH } else { word }
}

/// Opens a file to read it.
fn opened(rt: &HostRuntime, word: &str) -> Result<File, FileFault> {
    match File::open(rt, path_of(word)) {
        Ok(file) => Ok(file),
        Err(error) => Err(FileFault::System(error)),
    }
}

/// A file that is to be read, by the word that names it, and the most bytes that it may have.
#[derive(Clone, Copy)]
pub struct Input<'a> {
    pub path: &'a str,
    pub limit: usize,
}

impl Input<'_> {
    /// Appends what a reader gives, until its end, piece by piece.
    fn read_on<R: Read>(
        &self,
        progress: &mut Progress<'_>,
        reader: &mut R,
        piece: &mut [u8],
        bytes: &mut Vec<u8>,
    ) -> Result<(), FileFault>
        requires { vec_len bytes.old ≡ 0 }
        ensures { OnOk result (vec_len bytes.new ≤ self.now.limit) }
    {
        let mut room = self.limit;
        loop {
            let count = match reader.read(piece) {
                Ok(count) => count,
                Err(error) => return Err(FileFault::System(error)),
            };
            if count == 0 {
                return Ok(());
            }
            if count > room {
                return Err(FileFault::TooLong);
            }
            room -= count;
            if bytes.extend_from_slice(&piece[..count]).is_err() {
                return Err(FileFault::Memory);
            }
            progress.read(self.path, count);
        }
    }

    /// What a reader gives.
    fn read_all<R: Read>(
        &self,
        progress: &mut Progress<'_>,
        reader: &mut R,
    ) -> Result<Vec<u8>, FileFault>
        ensures { IfOk result (λ bytes. vec_len bytes ≤ self.now.limit) }
    {
        let alloc = progress.rt().alloc();
        let Ok(mut piece) = Vec::from_elem(alloc, 0u8, PIECE) else {
            return Err(FileFault::Memory);
        };
        let mut bytes = Vec::new(alloc);
        let read = self.read_on(progress, reader, &mut piece, &mut bytes);
        drop(piece);
        match read {
            Ok(()) => Ok(bytes),
            Err(fault) => {
                drop(bytes);
                Err(fault)
            }
        }
    }

    /// Reads the file.
    ///
    /// # Errors
    /// Why it wasn't read.
    pub fn read(&self, progress: &mut Progress<'_>) -> Result<Vec<u8>, FileFault>
        ensures { IfOk result (λ bytes. vec_len bytes ≤ self.now.limit) }
    {
        let mut file = opened(progress.rt(), self.path)?;
        let read = self.read_all(progress, &mut file);
        drop(file);
        read
    }

    /// Reads the file, which then stays open and locked with others where these are held.
    ///
    /// # Errors
    /// Why it wasn't read: `InUse` where it can't be locked since another open of it is.
    pub fn read_held(
        &self,
        progress: &mut Progress<'_>,
        held: &mut Held,
    ) -> Result<Vec<u8>, FileFault>
        ensures { IfOk result (λ bytes. vec_len bytes ≤ self.now.limit) }
    {
        let mut file = opened(progress.rt(), self.path)?;
        if let Err(fault) = held.lock(&file) {
            drop(file);
            return Err(fault);
        }
        let read = self.read_all(progress, &mut file);
        match held.keep(file) {
            Ok(()) => read,
            Err(fault) => {
                drop(read);
                Err(fault)
            }
        }
    }
}

/// Makes a file that isn't there yet, whatever has its name, with this text.
///
/// # Errors
/// Why not all of it was written.
pub fn make_file(rt: &HostRuntime, path: &str, text: &str) -> io::Result<()> {
    let mut options = OpenOptions::new();
    options.write(true).create_new(true);
    let mut file = options.open(rt, path)?;
    let written = write_bytes(&mut file, text.as_bytes());
    drop(file);
    written
}

/// Makes a file anew with this text, and says whether all of it was written.
pub fn write_file(rt: &HostRuntime, path: &str, text: &str) -> bool {
    let Ok(mut file) = File::create(rt, path) else {
        return false;
    };
    let written = is_taken(&mut file, text.as_bytes());
    drop(file);
    written
}
