//! Files that were read and stay open.
use crate::files::FileFault;
use std::alloc::Global;
use std::fs::{File, TryLockError};

/// Files that a command has read, which stay open under shared locks where that is asked for: none of them can then be
/// locked as the file of a journal, by whatever name.
#[derive(Drop)]
pub struct Held {
    files: Vec<File>,
    is_holding: bool,
}

/// Whether a file is known to be no regular one.
fn is_special(file: &File) -> bool {
    let Ok(found) = file.metadata() else {
        return false;
    };
    let is_special = !found.is_file();
    drop(found);
    is_special
}

impl Held {
    /// No files yet; `is_holding` says whether those that are read stay open.
    pub fn new(alloc: Global, is_holding: bool) -> Held {
        Held {
            files: Vec::new(alloc),
            is_holding,
        }
    }

    /// Takes the shared lock of a file, where files are held. What is no regular file can't be a journal's that is
    /// locked.
    pub(crate) fn lock(&self, file: &File) -> Result<(), FileFault> {
        if !self.is_holding || is_special(file) {
            return Ok(());
        }
        match file.try_lock_shared() {
            Ok(()) => Ok(()),
            Err(TryLockError::WouldBlock) => Err(FileFault::InUse),
            Err(TryLockError::Error(_)) => Err(FileFault::File),
        }
    }

    /// Keeps a file that was read open, where files are held.
    pub(crate) fn keep(&mut self, file: File) -> Result<(), FileFault> {
        if !self.is_holding {
            return Ok(());
        }
        match self.files.push(file) {
            Ok(()) => Ok(()),
            Err(_) => Err(FileFault::Memory),
        }
    }
}
