//! Writers that hold little, are slow, or fail.

ghost use Rattle.std.specs.Prelude.{⊤};

use std::alloc::Global;
use std::io::{self, ErrorKind, Write};
use streams::Output;

/// Holds no more than its room. It takes a few bytes at a call, and is interrupted before it takes the next ones.
#[derive(Drop)]
pub struct Faulty {
    pub held: Vec<u8>,
    room: usize,
    /// What it answers without room: that it took 0 bytes, or an error.
    takes_none: bool,
    /// Whether it fails when it should let go of what it holds.
    is_stuck: bool,
    /// How often it is interrupted before it takes the next bytes.
    interruptions: u32,
}

impl Faulty {
    pub fn new(alloc: Global, room: usize, takes_none: bool) -> Faulty {
        Faulty {
            held: Vec::new(alloc),
            room,
            takes_none,
            is_stuck: false,
            interruptions: 1,
        }
    }

    /// Has room for all, and fails when it should let go of it.
    pub fn stuck(alloc: Global) -> Faulty {
        Faulty {
            is_stuck: true,
            ..Faulty::new(alloc, usize::MAX, false)
        }
    }

    /// Has room for all, and is interrupted this many times before it takes its first bytes.
    pub fn late(alloc: Global, interruptions: u32) -> Faulty {
        Faulty {
            interruptions,
            ..Faulty::new(alloc, usize::MAX, false)
        }
    }
}

impl Write for Faulty {
    fn write(&mut self, buf: &[u8]) -> io::Result<usize> {
        if self.interruptions > 0 {
            self.interruptions -= 1;
            return Err(io::Error::from(ErrorKind::Interrupted));
        }
        self.interruptions = 1;
        let count = buf.len().min(self.room).min(3);
        if count == 0 && !self.takes_none {
            return Err(io::Error::from(ErrorKind::StorageFull));
        }
        self.held.extend_from_slice(&buf[..count])?;
        self.room -= count;
        Ok(count)
    }

    fn flush(&mut self) -> io::Result<()> {
        if self.is_stuck {
            Err(io::Error::from(ErrorKind::StorageFull))
        } else {
            Ok(())
        }
    }
}

impl Output for Faulty {
    ghost is_let_go = { λ _. ⊤ };

    fn let_go(&mut self) -> io::Result<()> {
        self.flush()
    }
}

/// Holds up to 4,096 bytes, of which it takes one at a call, and needs no memory.
#[derive(Drop)]
pub struct Fixed {
    held: [u8; 4096],
    len: usize,
}

impl Fixed {
    pub fn new() -> Fixed {
        Fixed {
            held: [0; 4096],
            len: 0,
        }
    }

    pub fn bytes(&self) -> &[u8] {
        self.held.get(..self.len).unwrap_or(&[])
    }
}

impl Write for Fixed {
    fn write(&mut self, buf: &[u8]) -> io::Result<usize> {
        match (buf.first(), self.held.get_mut(self.len)) {
            (Some(byte), Some(place)) => {
                *place = *byte;
                self.len += 1;
                Ok(1)
            }
            _ => Ok(0),
        }
    }

    fn flush(&mut self) -> io::Result<()> {
        Ok(())
    }
}

impl Output for Fixed {
    ghost is_let_go = { λ _. ⊤ };

    fn let_go(&mut self) -> io::Result<()> {
        self.flush()
    }
}
