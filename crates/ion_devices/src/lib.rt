//! Devices for tests: they give or take a few octets a call, and fail at one call, once, as if they
//! would go on behind it.
#![tactic(auto)]

use std::io;
use std::io::{ErrorKind, Read, Write};

/// The number of no call: a device that fails at it never fails.
pub const NEVER: u64 = u64::MAX;

/// A reader of octets in memory.
#[derive(Drop, Debug)]
pub struct FrailReader<'a> {
    /// What it still has to give.
    pub octets: &'a [u8],
    /// How many octets its first call gives at most.
    pub first: usize,
    /// And each other.
    pub then: usize,
    /// How often it was called.
    pub calls: u64,
    /// Which call fails, counted from 0.
    pub fails_at: u64,
    /// What that call answers.
    pub kind: ErrorKind,
}

impl<'a> FrailReader<'a> {
    /// Octets of which the first call gives so many, and each other so many; none fails.
    pub fn new(octets: &'a [u8], first: usize, then: usize) -> FrailReader<'a> {
        FrailReader {
            octets,
            first,
            then,
            calls: 0,
            fails_at: NEVER,
            kind: ErrorKind::Interrupted,
        }
    }

    /// The same, where the call with this index fails.
    pub fn failing(mut self, fails_at: u64) -> FrailReader<'a> {
        self.fails_at = fails_at;
        self
    }
}

impl Read for FrailReader<'_> {
    fn read(&mut self, buf: &mut [u8]) -> io::Result<usize> {
        let now = self.calls;
        self.calls = self.calls.saturating_add(1);
        if now == self.fails_at {
            return Err(io::Error::from(self.kind));
        }
        let most = if now == 0 { self.first } else { self.then };
        let count = buf.len().min(most);
        self.octets.read(&mut buf[..count])
    }
}

/// A writer into memory.
#[derive(Drop, Debug)]
pub struct FrailWriter<'v> {
    /// What it has taken.
    pub taken: &'v mut Vec<u8>,
    /// How many octets a call takes at most.
    pub takes: usize,
    /// How often it was called, to write or to flush.
    pub calls: u64,
    /// Which call fails, counted from 0.
    pub fails_at: u64,
}

impl<'v> FrailWriter<'v> {
    /// A writer that takes so many octets a call, of which the one with this index fails.
    pub fn new(taken: &'v mut Vec<u8>, takes: usize, fails_at: u64) -> FrailWriter<'v> {
        FrailWriter {
            taken,
            takes,
            calls: 0,
            fails_at,
        }
    }

    /// Counts a call, and fails where it is the one.
    fn called(&mut self) -> io::Result<()> {
        let now = self.calls;
        self.calls = self.calls.saturating_add(1);
        if now == self.fails_at {
            return Err(io::Error::from(ErrorKind::Interrupted));
        }
        Ok(())
    }
}

impl Write for FrailWriter<'_> {
    fn write(&mut self, buf: &[u8]) -> io::Result<usize> {
        self.called()?;
        let count = buf.len().min(self.takes);
        self.taken.write(&buf[..count])
    }

    fn flush(&mut self) -> io::Result<()> {
        self.called()
    }
}
