//! Readers and a writer that fail, count, and look at one another.
use std::alloc::Global;
use std::cell::Cell;
use std::io;
use std::io::{ErrorKind, Read, Write};

/// Gives bytes, at most so many at once, and then ends or fails. It counts its calls.
#[derive(Drop)]
pub struct Pieces<'a> {
    pub bytes: &'a [u8],
    pub most: usize,
    pub fails: bool,
    pub calls: usize,
}

impl Read for Pieces<'_> {
    fn read(&mut self, buf: &mut [u8]) -> io::Result<usize> {
        self.calls = self.calls.saturating_add(1);
        if self.bytes.is_empty() && self.fails {
            return Err(io::Error::from(ErrorKind::Interrupted));
        }
        let count = self.bytes.len().min(self.most).min(buf.len());
        let (front, rest) = self.bytes.split_at(count);
        buf[..count].copy_from_slice(front);
        self.bytes = rest;
        Ok(count)
    }
}

/// How a writer fails.
#[derive(Clone, Copy)]
pub struct Limits {
    /// How many bytes it takes.
    pub room: usize,
    /// How it fails after those; where this says nothing it takes nothing more.
    pub full: Option<ErrorKind>,
    /// Whether no flush succeeds.
    pub is_stuck: bool,
}

/// Takes bytes within its limits, and tells in a cell how many of those were flushed.
#[derive(Drop)]
pub struct Sink<'c> {
    pub taken: Vec<u8>,
    limits: Limits,
    flushed: &'c Cell<usize>,
}

impl<'c> Sink<'c> {
    pub fn new(alloc: Global, limits: Limits, flushed: &'c Cell<usize>) -> Sink<'c> {
        Sink {
            taken: Vec::new(alloc),
            limits,
            flushed,
        }
    }

    /// Whether just these bytes were taken, and all of them flushed.
    pub fn has_flushed(&self, bytes: &[u8]) -> bool {
        self.taken.as_slice() == bytes && self.flushed.get() == bytes.len()
    }
}

impl Write for Sink<'_> {
    fn write(&mut self, buf: &[u8]) -> io::Result<usize> {
        if self.limits.room == 0 {
            return match self.limits.full {
                Some(kind) => Err(io::Error::from(kind)),
                None => Ok(0),
            };
        }
        let count = self.limits.room.min(buf.len());
        self.taken.extend_from_slice(&buf[..count])?;
        self.limits.room -= count;
        Ok(count)
    }

    fn flush(&mut self) -> io::Result<()> {
        if self.limits.is_stuck {
            return Err(io::Error::from(ErrorKind::Other));
        }
        self.flushed.set(self.taken.len());
        Ok(())
    }
}

/// Gives bytes in pieces of these lengths, each only where so many bytes were flushed, as a person waits for an answer.
/// It fails where another number was.
#[derive(Drop)]
pub struct Waiting<'a, 'c> {
    pub bytes: &'a [u8],
    pub steps: &'a [(usize, usize)],
    pub step: usize,
    pub flushed: &'c Cell<usize>,
}

impl Read for Waiting<'_, '_> {
    fn read(&mut self, buf: &mut [u8]) -> io::Result<usize> {
        let Some((count, wanted)) = self.steps.get(self.step).copied() else {
            return Ok(0);
        };
        if self.flushed.get() != wanted || buf.len() < count || self.bytes.len() < count {
            return Err(io::Error::from(ErrorKind::Other));
        }
        let (front, rest) = self.bytes.split_at(count);
        buf[..count].copy_from_slice(front);
        self.bytes = rest;
        self.step = self.step.saturating_add(1);
        Ok(count)
    }
}
