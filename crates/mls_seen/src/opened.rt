//! Start files that were read.
ghost use Rattle.std.specs.Prelude.{◌≡◌, IfOk, IfErr};
ghost use Rattle.mls_replay.specs.Loads.{RefusesLoad};
ghost use Rattle.mls_start_file.specs.Says.{SaysStart};
ghost use Rattle.mls_start_file.specs.Ties.{AreTied};

use mls_lines::Names;
use mls_monitor::Start;
use mls_replay::{CommandFault, load_start};
use mls_start_file::Loaded;
use std::alloc::Global;
use std::marker::Model;

/// The bytes of a start file, and the names and the start that it says.
#[derive(Drop)]
pub struct Opened {
    file: Vec<u8>,
    loaded: Loaded,
}

impl Model for Opened {
    ghost use Rattle.mls_seen.specs.Opened.{Opened, opened_code};
    ghost use Rattle.mls_start_file.specs.Says.{SaysStart};

    ghost Value = { Opened };

    ghost coded = { opened_code };

    ghost view = { λ o. record { file = o.file.items; loaded = o.loaded } };

    ghost invariant = { λ o. SaysStart o.file.items o.loaded };
}

impl Opened {
    /// Reads a start file.
    ///
    /// # Errors
    /// `Load` where the file is refused, `Memory` where an allocation failed.
    pub fn read(alloc: Global, file: Vec<u8>) -> Result<Opened, CommandFault>
        ensures file { IfOk result (λ opened. opened.file ≡ file.items) }
        ensures fault { IfErr result (λ fault. RefusesLoad file.items fault) }
    {
        match load_start(alloc, &file) {
            Ok(loaded) => Ok(Opened { file, loaded }),
            Err(fault) => {
                drop(file);
                Err(fault)
            }
        }
    }

    /// The bytes.
    pub fn file(&self) -> &[u8]
        ensures { result.now ≡ self.now.file }
    {
        &self.file
    }

    /// The names, which go with the start.
    pub fn names(&self) -> &Names
        ensures names { result.now ≡ self.now.loaded.names }
        ensures tied { AreTied self.now.loaded.names self.now.loaded.start }
        ensures says { SaysStart self.now.file self.now.loaded }
    {
        self.loaded.names()
    }

    /// The names and the start.
    pub(crate) fn loaded(&self) -> &Loaded
        ensures { result.now ≡ self.now.loaded }
    {
        &self.loaded
    }

    /// The start.
    pub fn start(&self) -> &Start
        ensures { result.now ≡ self.now.loaded.start }
    {
        self.loaded.start()
    }
}
