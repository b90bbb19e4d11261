//! Readers that are slow, or fail.

use std::io::{self, ErrorKind, Read};

/// Gives one byte at a call, and is interrupted before it gives the next one. It fails at its end if it is told to
/// to.
#[derive(Drop)]
pub struct Slow<'a> {
    pub left: &'a [u8],
    fails: bool,
    /// How often it is interrupted before its next byte.
    interruptions: u32,
}

impl<'a> Read for Slow<'a> {
    fn read(&mut self, buf: &mut [u8]) -> io::Result<usize> {
        if self.interruptions > 0 {
            self.interruptions -= 1;
            return Err(io::Error::from(ErrorKind::Interrupted));
        }
        self.interruptions = 1;
        if self.left.is_empty() && self.fails {
            return Err(io::Error::from(ErrorKind::BrokenPipe));
        }
        let count = buf.len().min(self.left.len()).min(1);
        buf[..count].copy_from_slice(&self.left[..count]);
        self.left = &self.left[count..];
        Ok(count)
    }
}

pub fn slow_reader(bytes: &[u8], fails: bool) -> Slow<'_> {
    Slow {
        left: bytes,
        fails,
        interruptions: 1,
    }
}

/// Is interrupted this many times before it gives its first byte.
pub fn late_reader(bytes: &[u8], interruptions: u32) -> Slow<'_> {
    Slow {
        left: bytes,
        fails: false,
        interruptions,
    }
}
