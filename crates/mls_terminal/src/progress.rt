//! What a person at a terminal is told while a command works for more than a second, and how its answer is printed.
ghost use Rattle.std.specs.Prelude.{◌≡◌};

use crate::output::{print, print_answer};
use std::io::IsTerminal;
use std::process::ExitCode;
use std::time::Instant;

/// Work on so many bytes takes more than a second.
const MUCH: usize = 33_554_432;

/// What was read is told anew after each so many bytes.
const STEP: usize = 8_388_608;

/// How many seconds a command works before it says what it does.
const PATIENCE: u64 = 1;

/// What a command tells of its work, where standard error is a terminal, and in which form its answer is asked for.
#[derive(Drop)]
pub struct Progress<'a> {
    rt: &'a HostRuntime,
    /// When the work began; `None` where nothing is told.
    begun: Option<Instant>,
    /// How many bytes were read.
    read: usize,
    /// Whether a line stands on the terminal.
    is_shown: bool,
    /// Whether JSON objects are asked for.
    is_json: bool,
    /// Whether the lines that tell of a fault are fixed: what they don't say is told at a terminal alone.
    has_fixed_lines: bool,
}

impl<'a> Progress<'a> {
    /// The progress of work that begins now, whose answer may be asked for as JSON objects, and whose faults may have
    /// fixed lines.
    pub fn new(rt: &'a HostRuntime, is_json: bool, has_fixed_lines: bool) -> Progress<'a> {
        let begun = if rt.stderr().is_terminal() {
            Instant::now(rt).ok()
        } else {
            None
        };
        Progress {
            rt,
            begun,
            read: 0,
            is_shown: false,
            is_json,
            has_fixed_lines,
        }
    }

    /// The runtime that the command works with.
    pub fn rt(&self) -> &'a HostRuntime {
        self.rt
    }

    /// Whether it is time to say something.
    fn is_due(&self) -> bool {
        match self.begun {
            None => false,
            Some(begun) => {
                self.read >= MUCH
                    || begun
                        .elapsed(self.rt)
                        .is_ok_and(|time| time.as_secs() >= PATIENCE)
            }
        }
    }

    /// Tells that so many bytes more were read of a file.
    pub fn read(&mut self, file: &str, count: usize) {
        let before = self.read / STEP;
        self.read = self.read.saturating_add(count);
        if self.read / STEP > before && self.is_due() {
            let read = self.read;
            let _ = eprint!(self.rt; "\r\x1b[Kmls: reading {file}, {read} bytes so far");
            self.is_shown = true;
        }
    }

    /// Tells what begins now.
    pub fn begin(&mut self, phase: &str) {
        if self.is_due() {
            let _ = eprint!(self.rt; "\r\x1b[Kmls: {phase}");
            self.is_shown = true;
        }
    }

    /// Takes the line away, before anything else is written.
    pub fn end(&mut self) {
        if self.is_shown {
            let _ = eprint!(self.rt; "\r\x1b[K");
            self.is_shown = false;
        }
    }

    /// Whether JSON objects are asked for.
    pub fn is_json(&self) -> bool {
        self.is_json
    }

    /// Whether the lines that tell of a fault are fixed.
    pub fn has_fixed_lines(&self) -> bool {
        self.has_fixed_lines
    }

    /// Whether it is told why, and what next, where the line of a fault is fixed or not.
    pub fn is_adding(&self) -> bool {
        !self.has_fixed_lines || self.rt.stderr().is_terminal()
    }

    /// Ends the work, and prints the answer that it came to.
    pub fn print(&mut self, answer: &[u8]) -> ExitCode {
        self.end();
        if self.has_fixed_lines {
            print(self.rt, answer)
        } else {
            print_answer(self.rt, answer)
        }
    }
}
