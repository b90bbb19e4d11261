//! What is reported on a terminal while a long history is read.

use std::io::{self, IsTerminal, Read};
use streams::{Opener, SystemFiles, SystemInput};

/// How many bytes are read from one message to the next.
const STRIDE: u64 = 16 << 20;

/// The system's files. Where standard error is a terminal it is reported how much of a long one was read.
#[derive(Drop)]
pub struct WatchedFiles<'a>(pub &'a HostRuntime);

/// A file of the system, and how much of it was read.
#[derive(Drop)]
pub struct WatchedInput<'a> {
    rt: &'a HostRuntime,
    input: SystemInput,
    is_watched: bool,
    read: u64,
    told: u64,
}

impl WatchedInput<'_> {
    /// Tells how much was read, if that is a stride more than was reported.
    fn go_on(&mut self, count: usize) {
        self.read = self.read.saturating_add(count as u64);
        if self.read - self.told.min(self.read) >= STRIDE {
            self.told = self.read;
            let _ = eprint!(self.rt; "\rrfx-judge: {} MB read", self.read >> 20);
        }
    }

    /// Tells that all was read, if anything was reported.
    fn end(&mut self) {
        if self.told > 0 {
            self.told = 0;
            let _ = eprintln!(self.rt; "\rrfx-judge: {} MB read, judging", self.read >> 20);
        }
    }
}

impl Read for WatchedInput<'_> {
    fn read(&mut self, buf: &mut [u8]) -> io::Result<usize> {
        let count = self.input.read(buf)?;
        match count {
            _ if !self.is_watched => {}
            0 => self.end(),
            _ => self.go_on(count),
        }
        Ok(count)
    }
}

impl<'a> Opener for WatchedFiles<'a> {
    type Input = WatchedInput<'a>;

    fn open(&self, file: &str) -> io::Result<WatchedInput<'a>> {
        Ok(WatchedInput {
            rt: self.0,
            input: SystemFiles(self.0).open(file)?,
            is_watched: self.0.stderr().is_terminal(),
            read: 0,
            told: 0,
        })
    }
}
